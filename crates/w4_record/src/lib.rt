//! Recordings (project rule): a cart's digest, a budget, a disk and the inputs of a run, as a value within
//! its limits and as the bytes of a file. Both versions of the file are read, and version 2 is written. The
//! layer above relies on each reader and writer meeting its definition in w4_defs.
#![tactic(auto)]

pub mod digest;
mod fields;
mod frames;
mod ranges;
pub mod reading;
pub mod recording;
pub mod refusal;
pub mod writing;

pub use digest::digest_of;
pub use reading::{MOST_BYTES, read_recording};
pub use recording::{MOST_DISK_BYTES, MOST_FRAMES, Recording};
pub use refusal::RecordingRefusal;
pub use writing::write_recording;
