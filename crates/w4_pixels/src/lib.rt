//! Pixels of the framebuffer: points, spans and clearing, written by whole bytes (WASM-4 memory map).
//! Every call's contract is the painted page, so the layers above add up painters and see no bytes.
#![tactic(auto)]

pub mod colour;
mod digits;
pub mod dots;
pub mod quads;
pub mod runs;
pub mod screen;

pub use colour::{PaletteIndex, entry_of};
pub use dots::{column, pixel, point, put_pixel};
pub use quads::{Quad, put_quad};
pub use runs::{clear, fill, span};
pub use screen::{RowByte, ScreenPart, on_screen, part_between, screen_part};
