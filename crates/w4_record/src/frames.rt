//! Reading of frames, in both versions of the file.

ghost use Rattle.std.specs.Prelude.{◌≡◌, ◌≤◌, length, is_some, option_map, IfOk, IsSome, Some};
ghost use Rattle.w4_defs.specs.Recording.{frames_of, frame_size, input_of, reset_of, version_of};
ghost use Rattle.w4_record.specs.Frames.{version_number, first_frame};

use crate::fields::front;
use std::alloc::Global;
use w4_defs::{Input, OutOfMemory};

/// The version of a recording's file.
#[derive(Clone, Copy, PartialEq, Eq, Debug)]
pub enum Version {
    /// Nine bytes a frame, and no resets.
    First,
    /// Ten bytes a frame, the last of which says whether the frame begins with a reset.
    Second,
}

impl Version {
    /// The version of a file with this heading.
    pub fn of_heading(heading: &[u8]) -> Option<Version>
        ensures { option_map version_number result ≡ version_of heading.now }
    {
        if heading == b"W4RC\x01".as_slice() {
            Some(Version::First)
        } else if heading == b"W4RC\x02".as_slice() {
            Some(Version::Second)
        } else {
            None
        }
    }

    /// How many bytes a frame has.
    fn frame_size(self) -> usize
        ensures { result ≡ frame_size (version_number self) }
    {
        match self {
            Version::First => 9,
            Version::Second => 10,
        }
    }
}

/// Whether this flag of a frame says that the frame has a reset; None where the flag is neither 0 nor 1.
fn reset_of(flag: u8) -> Option<bool>
    ensures { result ≡ reset_of flag }
{
    match flag {
        0 => Some(false),
        1 => Some(true),
        _ => None,
    }
}

/// The input of a frame's bytes.
fn input_of(bytes: &[u8], reset: bool) -> Input
    requires { 9 ≤ length bytes.now }
    ensures { result ≡ input_of bytes.now reset }
{
    Input {
        pads: [bytes[0], bytes[1], bytes[2], bytes[3]],
        mouse_x: i16::from_le_bytes([bytes[4], bytes[5]]),
        mouse_y: i16::from_le_bytes([bytes[6], bytes[7]]),
        buttons: bytes[8],
        reset,
    }
}

/// The input of the first frame, and the bytes after the frame.
#[tactic(auto, unfolding(crate::specs::Frames::first_frame))]
fn first_frame(version: Version, bytes: &[u8]) -> Option<(Input, &[u8])>
    ensures { option_map (λ p. (p.0, p.1.now)) result ≡ first_frame (version_number version) bytes.now }
{
    let (frame, rest) = front(bytes, version.frame_size())?;
    let reset = match version {
        Version::First => false,
        Version::Second => reset_of(frame[9])?,
    };
    Some((input_of(frame, reset), rest))
}

/// Whether the bytes are that many frames.
pub fn are_frames(version: Version, count: u32, bytes: &[u8]) -> bool
    ensures { result ≡ is_some (frames_of (version_number version) count bytes.now) }
{
    let mut rest = bytes;
    for _ in 0..count {
        let Some((_, after)) = first_frame(version, rest) else {
            return false;
        };
        rest = after;
    }
    rest.is_empty()
}

/// The inputs of that many frames, which are all of the bytes.
pub fn frames_of(
    alloc: Global,
    version: Version,
    count: u32,
    bytes: &[u8],
) -> Result<Vec<Input>, OutOfMemory>
    requires { IsSome (frames_of (version_number version) count bytes.now) }
    ensures { IfOk result (λ inputs.
        frames_of (version_number version) count bytes.now ≡ Some inputs.items) }
{
    let mut inputs = Vec::new(alloc);
    let mut rest = bytes;
    for _ in 0..count {
        let (input, after) = first_frame(version, rest).unwrap();
        inputs.push(input)?;
        rest = after;
    }
    Ok(inputs)
}
