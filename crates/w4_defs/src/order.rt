//! The orders of a script.

use crate::console::Input;

/// An order of a script. Inputs and places count from 0: input `k` leads from place `k` to place `k + 1`.
#[derive(Clone, Copy, PartialEq, Eq, Debug)]
pub enum Order {
    /// Input `k` becomes this one.
    Set { k: u32, input: Input },
    /// This input is put before input `k`, or after the last.
    Insert { k: u32, input: Input },
    /// Input `k` is taken out.
    Delete { k: u32 },
    /// The last edit is undone.
    Undo,
    /// The last edit that was undone is made again.
    Redo,
    /// The state of place `p` is kept.
    Keep { p: u32 },
    /// Each place that is a multiple of `every`, at least 1, is kept.
    KeepEvery { every: u32 },
    /// Place `p` isn't kept any longer.
    DropKept { p: u32 },
    /// All kept states are brought up to date by 1 to 16 workers.
    Settle { workers: u32 },
    /// The frame at place `p` is shown.
    Show { p: u32 },
    /// The frames of places `a` to `b` are shown, made by 1 to 16 workers.
    Film { a: u32, b: u32, workers: u32 },
    /// The tones of places `a` to `b` are written.
    Tones { a: u32, b: u32 },
    /// The trace lines of places `a` to `b` are written.
    Traces { a: u32, b: u32 },
    /// The disk's bytes at place `p` are written.
    DiskAt { p: u32 },
    /// The state at place `p` is written in one line.
    StateAt { p: u32 },
}
