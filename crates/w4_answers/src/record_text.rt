//! Texts of a frame's record.

ghost use Rattle.std.specs.Prelude.{◌≡◌, IfOk};
ghost use Rattle.w4_devices.specs.Records.{record_of};
ghost use Rattle.w4_answers.specs.RecordText.{record_text};

use std::alloc::Global;
use w4_defs::OutOfMemory;
use w4_devices::{FrameRecord, schedule_text, trace_text};

/// Which text of a frame's record is asked for.
#[derive(Clone, Copy)]
pub enum RecordText {
    /// The tones that the frame began, and what sounds.
    Schedule,
    /// The lines that the frame traced.
    Traces,
}

/// A text of the frame that led to a place.
pub fn record_text(
    alloc: Global,
    wanted: RecordText,
    place: usize,
    frame_record: &FrameRecord,
) -> Result<Vec<u8>, OutOfMemory>
    ensures { IfOk result (λ text. text.items ≡ record_text wanted place (record_of frame_record.now)) }
{
    let mut text = Vec::new(alloc);
    match wanted {
        RecordText::Schedule => schedule_text(alloc, place, frame_record, &mut text)?,
        RecordText::Traces => trace_text(alloc, place, frame_record, &mut text)?,
    }
    Ok(text)
}
