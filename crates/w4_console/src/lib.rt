//! The console without a window: resets and frames of a cart (WASM-4 reference; the order of events, and
//! what follows a trap or a spent budget, are project rules). The layers above rely on this: the state and
//! the record that a reset or a frame leaves are exactly those of the definitions.
#![tactic(auto)]

mod calls;
pub mod console;
mod current_record;
mod frames;
pub mod laws;
mod page;
pub mod playing;
pub mod setup;
mod start;
pub mod taken;
pub mod units_text;

pub use console::Console;
pub use setup::Setup;
pub use taken::{FrameTaken, Taken};
pub use units_text::{start_line, units_line};
