//! How a run ends: its statuses and their numbers.

ghost use Rattle.std.specs.Prelude.{◌≡◌};
ghost use Rattle.w4_defs.specs.StatusLines.{number_of_status};

use crate::memory::OutOfMemory;
use crate::refusal::CartKind;
use std::alloc::{AllocError, AllocFailed};

/// Why a recording is refused.
#[derive(Clone, Copy, PartialEq, Eq, Debug)]
pub enum RecordingKind {
    /// The bytes encode no recording, or are a disk of more than 1,024 bytes.
    Bad,
    /// Its digest isn't the SHA-256 of the cart.
    WrongCart,
}

/// Why a file of lines is refused: a script, a log, a query or a list.
#[derive(Clone, Copy, PartialEq, Eq, Debug)]
pub enum ScriptKind {
    /// There are more than 1,048,576 bytes, or 65,536 of a list.
    TooLong,
    /// This line, counted from 1, is the first bad one.
    BadLine(u32),
}

/// How a command ended that did all that it was to do.
#[derive(Clone, Copy, PartialEq, Eq, Debug)]
pub enum Finish {
    /// Nothing else is to be told.
    Done,
    /// Two runs were compared, and they differ.
    Different,
}

/// Why a command isn't done: a file or a place that its arguments name is refused, or a call failed.
#[derive(Clone, Copy, PartialEq, Eq, Debug)]
pub enum Refusal {
    /// The bytes of the cart's file are no cart, by the first cause that holds.
    CartRefused(CartKind),
    /// The bytes encode no recording, or one of another cart; or a disk has more than 1,024 bytes.
    RecordingRefused(RecordingKind),
    /// The font hasn't 1,792 bytes.
    FontRefused,
    /// The script, log or query is too long or has a bad line.
    ScriptRefused(ScriptKind),
    /// The list is too long or has a bad line.
    ListRefused(ScriptKind),
    /// The words name a place past the last, `n`.
    FrameRefused { number: u32, n: usize },
    /// A file couldn't be read, or isn't there.
    ReadFault,
    /// Standard input couldn't be read.
    InputFault,
    /// Standard output or a file couldn't be written.
    WriteFault,
    /// Memory was refused.
    OutOfMemory,
}

/// How a run ended.
#[derive(Clone, Copy, PartialEq, Eq, Debug)]
pub enum Status {
    /// All was written.
    Done,
    /// All was written, and the two runs that were compared differ.
    Different,
    /// The arguments match no command.
    Usage,
    /// The bytes of the cart's file are no cart, by the first cause that holds.
    CartRefused(CartKind),
    /// The bytes encode no recording, or one of another cart; or a disk has more than 1,024 bytes.
    RecordingRefused(RecordingKind),
    /// The font hasn't 1,792 bytes.
    FontRefused,
    /// The script, log or query is too long or has a bad line.
    ScriptRefused(ScriptKind),
    /// A file couldn't be read, or isn't there.
    ReadFault,
    /// Standard input couldn't be read.
    InputFault,
    /// Standard output or a file couldn't be written.
    WriteFault,
    /// Memory was refused.
    OutOfMemory,
    /// The words name a place past the last, `n`.
    FrameRefused { number: u32, n: usize },
    /// The list is too long or has a bad line.
    ListRefused(ScriptKind),
}

impl From<OutOfMemory> for Refusal {
    ghost use Rattle.w4_defs.specs.declared.status.Refusal.TheVariants.{OutOfMemory as MemoryRefused};

    ghost from_gives = { λ _ refusal. refusal ≡ MemoryRefused };

    fn from(_refusal: OutOfMemory) -> Refusal {
        Refusal::OutOfMemory
    }
}

impl From<AllocError> for Refusal {
    ghost use Rattle.w4_defs.specs.declared.status.Refusal.TheVariants.{OutOfMemory as MemoryRefused};

    ghost from_gives = { λ _ refusal. refusal ≡ MemoryRefused };

    fn from(_refusal: AllocError) -> Refusal {
        Refusal::OutOfMemory
    }
}

impl<T: Drop> From<AllocFailed<T>> for Refusal {
    ghost use Rattle.w4_defs.specs.declared.status.Refusal.TheVariants.{OutOfMemory as MemoryRefused};

    ghost from_gives = { λ _ refusal. refusal ≡ MemoryRefused };

    fn from(_refusal: AllocFailed<T>) -> Refusal {
        Refusal::OutOfMemory
    }
}

impl From<Refusal> for Status {
    ghost use Rattle.w4_defs.specs.Endings.{status_of_refusal};

    ghost from_gives = { λ refusal status. status ≡ status_of_refusal refusal };

    fn from(refusal: Refusal) -> Status {
        match refusal {
            Refusal::CartRefused(kind) => Status::CartRefused(kind),
            Refusal::RecordingRefused(kind) => Status::RecordingRefused(kind),
            Refusal::FontRefused => Status::FontRefused,
            Refusal::ScriptRefused(kind) => Status::ScriptRefused(kind),
            Refusal::ListRefused(kind) => Status::ListRefused(kind),
            Refusal::FrameRefused { number, n } => Status::FrameRefused { number, n },
            Refusal::ReadFault => Status::ReadFault,
            Refusal::InputFault => Status::InputFault,
            Refusal::WriteFault => Status::WriteFault,
            Refusal::OutOfMemory => Status::OutOfMemory,
        }
    }
}

impl From<Finish> for Status {
    ghost use Rattle.w4_defs.specs.Endings.{status_of_finish};

    ghost from_gives = { λ finish status. status ≡ status_of_finish finish };

    fn from(finish: Finish) -> Status {
        match finish {
            Finish::Done => Status::Done,
            Finish::Different => Status::Different,
        }
    }
}

/// The exit status of the process.
pub fn number(status: Status) -> u8
    ensures { result ≡ number_of_status status }
{
    match status {
        Status::Done => 0,
        Status::Different => 1,
        Status::Usage => 2,
        Status::CartRefused(_) => 3,
        Status::RecordingRefused(_) => 4,
        Status::FontRefused => 5,
        Status::ScriptRefused(_) => 6,
        Status::ReadFault => 7,
        Status::WriteFault => 8,
        Status::OutOfMemory => 9,
        Status::FrameRefused { number: _, n: _ } => 10,
        Status::ListRefused(_) => 12,
        Status::InputFault => 13,
    }
}
