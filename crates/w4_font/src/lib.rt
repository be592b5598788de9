//! Fonts, which a run is given and no call changes.
#![tactic(auto)]

pub mod font;

pub use font::{FONT_BYTES, Font, FontLength};
