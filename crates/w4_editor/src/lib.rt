//! The editor of recordings (project rule): edits with undo and redo, kept places with links, and showing.
//! The layers above rely on each call leaving the session of the definitions, on a shown state being that of
//! a run from reset, and on how many frames a call runs.
#![tactic(auto)]

pub mod draft;
pub mod editor;
pub mod edits;
pub mod history;
pub mod keep_every;
pub mod kept;
pub mod kept_list;
pub mod memory_refusal;
pub mod places;
pub mod player;
pub mod playing;
pub mod settling;
pub mod showing;

pub use editor::Editor;
pub use memory_refusal::only_memory;
pub use showing::MOST_KEPT;
pub use w4_defs::EditRefusal;
