//! Recordings, each within its limits.

ghost use Rattle.std.specs.Prelude.{◌≡◌, ◌≤◌, vec_len};

use crate::ranges::{bytes_are_in_range, inputs_are_in_range};
use std::marker::Model;
use std::mem;
use w4_defs::Input;

/// How many bytes a disk has at most, as in WASM-4.
pub const MOST_DISK_BYTES: usize = 1_024;

/// How many frames a recording has at most: ten minutes of 60 a second.
pub const MOST_FRAMES: usize = 36_000;

/// What a run is given. Contracts see it as the record of w4_defs, and its limits hold of every value.
#[derive(Drop)]
pub struct Recording {
    /// The SHA-256 digest of the cart.
    pub digest: [u8; 32],
    /// Units of the reset and of each frame, at least 1.
    pub budget: u32,
    /// The disk at the reset, at most 1,024 bytes.
    pub disk: Vec<u8>,
    /// One input a frame, at most 36,000.
    pub frames: Vec<Input>,
}

impl Model for Recording {
    ghost use Rattle.w4_defs.specs.Recording as defs;

    ghost Value = { defs.Recording };

    ghost view = { λ r. record {
      digest = r.digest;
      budget = r.budget;
      disk = r.disk.items;
      frames = r.frames.items;
    } };

    ghost invariant = { λ r. defs.IsRecording (record {
      digest = r.digest;
      budget = r.budget;
      disk = r.disk.items;
      frames = r.frames.items;
    }) };
}

impl Recording {
    /// A recording of these parts.
    pub fn new(digest: [u8; 32], budget: u32, disk: Vec<u8>, frames: Vec<Input>) -> Recording
        requires budget { 1 ≤ budget }
        requires disk { vec_len disk ≤ 1024 }
        requires frames { vec_len frames ≤ 36000 }
        ensures { result ≡ record {
          digest = digest;
          budget = budget;
          disk = disk.items;
          frames = frames.items;
        } }
    {
        bytes_are_in_range(digest.as_slice());
        bytes_are_in_range(disk.as_slice());
        inputs_are_in_range(frames.as_slice());
        Recording {
            digest,
            budget,
            disk,
            frames,
        }
    }

    /// Replaces the inputs of the recording with others, and returns the old ones. Takes no memory.
    pub fn replace_frames(&mut self, frames: Vec<Input>) -> Vec<Input>
        requires { vec_len frames ≤ 36000 }
        ensures before { result.items ≡ self.old.frames }
        ensures after { self.new ≡ record {
          digest = self.old.digest;
          budget = self.old.budget;
          disk = self.old.disk;
          frames = frames.items;
        } }
    {
        inputs_are_in_range(frames.as_slice());
        mem::replace(&mut self.frames, frames)
    }
}
