//! What one frame leaves behind besides the state.

ghost use Rattle.std.specs.Prelude.{◌≡◌};
ghost use Rattle.w4_defs.specs.State.{empty_record};
ghost use Rattle.w4_devices.specs.Records.{record_of};

use crate::tone_log::ToneLog;
use crate::trace_log::TraceLog;
use w4_defs::Sound;

/// The tones and lines of a reset or a frame, and what the four channels sound at its first tick.
#[derive(Debug, Drop)]
pub struct FrameRecord {
    pub tones: ToneLog,
    pub traces: TraceLog,
    /// None where a channel is silent.
    pub sounds: [Option<Sound>; 4],
}

impl FrameRecord {
    /// A record with empty logs and no sounds.
    pub fn new() -> FrameRecord
        ensures { record_of result ≡ empty_record }
    {
        FrameRecord {
            tones: ToneLog::new(),
            traces: TraceLog::new(),
            sounds: [None; 4],
        }
    }

    /// Empties logs and sounds in place: less is written than for a new record.
    pub fn clear(&mut self)
        ensures { record_of self.new ≡ empty_record }
    {
        self.tones.clear();
        self.traces.clear();
        self.sounds = [None; 4];
    }
}
