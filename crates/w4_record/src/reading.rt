//! Reading of recordings.

ghost use Rattle.std.specs.Prelude.{◌≡◌, Some, None, length, IfOk, IfSome, IsErrOf};
ghost use Rattle.w4_defs.specs.Recording.{IsRecording, recording_of};
ghost use Rattle.w4_record.specs.Parts.{recording_from};

use crate::fields::{front, u16_at, u32_at};
use crate::frames::{Version, are_frames, frames_of};
use crate::recording::{MOST_DISK_BYTES, MOST_FRAMES, Recording};
use crate::refusal::RecordingRefusal;
use std::alloc::Global;

/// The greatest length of a recording's file, in bytes: 47 of its heading, digest, budget and counts, a whole
/// disk, and 10 for each of the most frames.
pub const MOST_BYTES: usize = 47 + MOST_DISK_BYTES + 10 * MOST_FRAMES;

/// The parts of a recording's bytes, with the frames as bytes.
#[derive(Drop)]
struct Parts<'a> {
    version: Version,
    digest: &'a [u8],
    budget: u32,
    disk: &'a [u8],
    count: u32,
    frames: &'a [u8],
}

/// The parts of the bytes, or None where they encode no recording for what stands before the frames.
#[tactic(auto, unfolding(w4_defs::specs::Recording::recording_of))]
fn parts_of(bytes: &[u8]) -> Option<Parts<'_>>
    ensures recording { recording_of bytes.now ≡ recording_from result }
    ensures digest { IfSome result (λ parts. length parts.digest.now ≡ 32) }
{
    let (heading, rest) = front(bytes, 5)?;
    let version = Version::of_heading(heading)?;
    let (digest, rest) = front(rest, 32)?;
    let (budget, rest) = u32_at(rest)?;
    let (size, rest) = u16_at(rest)?;
    let (disk, rest) = front(rest, size as usize)?;
    let (count, frames) = u32_at(rest)?;
    if 1 <= budget && size as usize <= MOST_DISK_BYTES && count as usize <= MOST_FRAMES {
        Some(Parts {
            version,
            digest,
            budget,
            disk,
            count,
            frames,
        })
    } else {
        None
    }
}

/// The recording that the bytes of a file encode, in version 1 or 2. It takes memory for what stands in the
/// bytes and never by a count that it has read. Errors: BadRecording if and only if the bytes encode no
/// recording, OutOfMemory.
pub fn read_recording(alloc: Global, bytes: &[u8]) -> Result<Recording, RecordingRefusal>
    ensures read { IfOk result (λ recording. recording_of bytes.now ≡ Some recording) }
    ensures limits { IfOk result IsRecording }
    ensures bad { IsErrOf result RecordingRefusal.BadRecording → recording_of bytes.now ≡ None }
{
    let parts = parts_of(bytes).ok_or(RecordingRefusal::BadRecording)?;
    if !are_frames(parts.version, parts.count, parts.frames) {
        return Err(RecordingRefusal::BadRecording);
    }
    let frames = frames_of(alloc, parts.version, parts.count, parts.frames)?;
    let disk = Vec::from_slice(alloc, parts.disk)?;
    let mut digest = [0; 32];
    digest.copy_from_slice(parts.digest);
    Ok(Recording {
        digest,
        budget: parts.budget,
        disk,
        frames,
    })
}
