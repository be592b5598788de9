//! The functions that a cart may import, as one host: the console's board (WASM-4 reference; weights are a
//! project rule). The layers above rely on this: weight and effect of each import are those of the
//! definitions.
#![tactic(auto)]

mod arguments;
pub mod board;
mod drawing;
mod weights;

pub use board::Board;
