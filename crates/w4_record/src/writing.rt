//! Writing of recordings.

ghost use Rattle.std.specs.Prelude.{◌≡◌, ◌++◌, IfOk, OnOk};
ghost use Rattle.std.specs.List.{flat_map};
ghost use Rattle.w4_defs.specs.Recording.{encoding, frame_bytes};

use crate::recording::Recording;
use std::alloc::Global;
use w4_defs::{Input, OutOfMemory};

/// The ten bytes of a frame.
fn frame_bytes(input: &Input) -> [u8; 10]
    ensures { result ≡ frame_bytes 2 input.now }
{
    let [pad_1, pad_2, pad_3, pad_4] = input.pads;
    let [x_low, x_high] = input.mouse_x.to_le_bytes();
    let [y_low, y_high] = input.mouse_y.to_le_bytes();
    [
        pad_1,
        pad_2,
        pad_3,
        pad_4,
        x_low,
        x_high,
        y_low,
        y_high,
        input.buttons,
        u8::from(input.reset),
    ]
}

/// Adds the bytes of all frames.
fn push_frames(bytes: &mut Vec<u8>, inputs: &[Input]) -> Result<(), OutOfMemory>
    ensures { OnOk result (bytes.new.items ≡ bytes.old.items ++ flat_map (frame_bytes 2) inputs.now) }
{
    for input in inputs {
        let frame = frame_bytes(input);
        bytes.extend_from_slice(frame.as_slice())?;
    }
    Ok(())
}

/// The bytes of a recording in version 2: 47, those of its disk, and 10 a frame.
#[tactic(auto, unfolding(w4_defs::specs::Recording::encoding))]
pub fn write_recording(alloc: Global, recording: &Recording) -> Result<Vec<u8>, OutOfMemory>
    ensures { IfOk result (λ bytes. bytes.items ≡ encoding 2 recording.now) }
{
    let mut bytes = Vec::new(alloc);
    bytes.extend_from_slice(b"W4RC\x02")?;
    bytes.extend_from_slice(recording.digest.as_slice())?;
    bytes.extend_from_slice(recording.budget.to_le_bytes().as_slice())?;
    let size = recording.disk.len() as u16;
    bytes.extend_from_slice(size.to_le_bytes().as_slice())?;
    bytes.extend_from_slice(recording.disk.as_slice())?;
    let count = recording.frames.len() as u32;
    bytes.extend_from_slice(count.to_le_bytes().as_slice())?;
    push_frames(&mut bytes, recording.frames.as_slice())?;
    Ok(bytes)
}
