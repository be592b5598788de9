//! The commands, over a house that stands for files and streams. What comes of arguments and files is defined
//! in w4_defs (`Commands`, `Outputs`). The layer above relies on `run_form` ending as `Outputs` has it, on
//! `form_of_words` giving the form of the arguments, and on `status_line` for a status.
#![tactic(auto)]

mod batch;
pub mod budget;
pub mod commands;
mod compare;
mod differences;
mod edit;
pub mod forms;
mod lines_refusal;
mod load;
mod make;
mod net;
mod place_text;
pub mod places;
mod ram;
mod recordings;
mod scene;
mod serve;
mod stage;
pub mod status_line;
mod summary;
mod units;
mod wave;

pub use commands::run_form;
pub use forms::{CartCommand, EditorCommand, Form, form_of_words};
pub use w4_defs::status::{Finish, RecordingKind, Refusal, ScriptKind, Status, number};
