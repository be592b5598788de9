//! Blits and text on the framebuffer (WASM-4 reference; project rules where the definitions say
//! so). Every call's contract is the painted page, for every argument. Each byte that a call reads is the one
//! when the call begins, also where it lies in the framebuffer; no call does more work than the screen has
//! room for, or the text has codes.
#![tactic(auto)]

pub mod blit;
mod cells;
mod codes;
mod digits;
mod glyphs;
mod inks;
mod kept;
mod masks;
mod reach;
mod source;
mod spread;
mod strips;
pub mod texts;
mod walks;
mod windows;

pub use blit::blit_sub;
pub use texts::text;
