//! Watching and searching memory (project rule, as cheat finders of emulators do it): values of the page over
//! places of a recording, and searches by how a value changed. The layers above rely on each value being that
//! of a run from reset, and on a search having just the addresses at which all its tests held.
#![tactic(auto)]

pub mod laws;
pub mod place_pages;
pub mod refusal;
pub mod search;
pub mod searching;
mod values;
pub mod watching;

pub use place_pages::PlacePages;
pub use refusal::RamRefusal;
pub use search::Search;
pub use w4_defs::inspect::Test;
pub use watching::{ValueBytes, watch};
