//! The sound of a run, as the samples and the header of a WAV file (RIFF WAVE, PCM, 2 channels of 16 bits,
//! 44,100 samples a second; project rule: the oscillators). The layers above rely on frames that are rendered
//! one after another being the samples of their records. Nothing here takes memory or fails.
#![tactic(auto)]

mod beginning;
pub mod header;
mod laws;
mod oscillators;
mod output;
mod samples;
pub mod wave;

pub use header::wav_header;
pub use laws::calls_give_samples;
pub use samples::FRAME_LEN;
pub use wave::Wave;
