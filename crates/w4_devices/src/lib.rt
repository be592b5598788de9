//! The disk, the logs of one frame, their texts, and the parts of all texts (WASM-4 reference: `diskr`,
//! `diskw`, the trace calls; project rule: bounds of the logs and the texts). A contract sees lists of bytes,
//! lines and tones.
#![tactic(auto)]

mod bounded;
pub mod disk;
mod format;
pub mod frame_record;
mod hexadecimal;
mod line;
mod page_bytes;
mod source;
pub mod text_parts;
pub mod texts;
pub mod tone_log;
pub mod trace_log;

pub use disk::Disk;
pub use frame_record::FrameRecord;
pub use texts::{schedule_text, trace_text};
pub use tone_log::ToneLog;
pub use trace_log::TraceLog;
