//! Tones (WASM-4 reference, `tone`): what a call asks for, and what the four channels sound at each tick.
//! A channel's level and frequency are exact whole numbers, so the layers above list them as they are.
#![tactic(auto)]

pub mod channels;
pub mod decoding;
mod envelope;
mod frequency;
mod voice;

pub use channels::Channels;
pub use decoding::decode;
