//! The answers of orders, lines and requests at an editor, and how they are written. `specs/` has the words:
//! what a step says of the world before and after, and what an answer leaves of the editor. The commands rely
//! on each answer being that of the definition, or a first part of it where it stopped.
#![tactic(auto)]

pub mod change_answer;
pub mod counted_editor;
pub mod desk;
mod film_answer;
pub mod held_pages;
pub mod inputs_text;
pub mod live_answer;
pub mod net_answers;
mod own_answer;
pub mod ram_answers;
mod range_answer;
pub mod record_text;
mod refusal;
pub mod saving;
pub mod script_answers;
pub mod shape;
mod state_answer;
pub mod state_line;
mod units_answer;
pub mod writing;
