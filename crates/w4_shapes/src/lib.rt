//! Lines, rectangles and ovals on the framebuffer (WASM-4 reference; project rules where the definitions say
//! so). Every call's contract is the painted page, for every argument: coordinates are signed and added
//! exactly, what lies off the screen is skipped, and no call does more work than the screen has room for.
#![tactic(auto)]

pub mod boxes;
pub mod lines;
mod oval_cells;
pub mod ovals;
mod steps;

pub use boxes::{hline, rect, vline};
pub use lines::line;
pub use ovals::oval;
