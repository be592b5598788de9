//! The registers of the page, and the state of a console between two frames (WASM-4 memory map). The layers
//! above rely on each register being the bytes of the definitions, and on `State` being seen as theirs.
#![tactic(auto)]

pub mod registers;
pub mod state;

pub use registers::{draw_colors, palette, put_input, system_flags};
pub use state::State;
