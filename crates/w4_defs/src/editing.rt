//! Editing of recordings.

ghost use Rattle.std.specs.Prelude.{◌≡◌};

use crate::memory::OutOfMemory;
use std::alloc::{AllocError, AllocFailed};

/// Why an edit, or a change of the kept places, is refused. The causes are looked at in this order, and a
/// refusal changes nothing.
#[derive(Clone, Copy, PartialEq, Eq, Debug)]
pub enum EditRefusal {
    /// There is no such input, or no such place.
    NoFrame,
    /// The recording has 36,000 inputs.
    FullRecording,
    /// The undo history is empty.
    NothingToUndo,
    /// The redo history is empty.
    NothingToRedo,
    /// The place is kept.
    Kept,
    /// The place isn't kept, or is place 0.
    NotKept,
    /// 1,024 places are kept, or more would be.
    FullSnapshots,
    /// Memory was refused; always permitted.
    OutOfMemory,
}

impl From<OutOfMemory> for EditRefusal {
    ghost use Rattle.w4_defs.specs.declared.editing.EditRefusal.TheVariants.{OutOfMemory as NoMemory};

    ghost from_gives = { λ _ refusal. refusal ≡ NoMemory };

    fn from(_refusal: OutOfMemory) -> EditRefusal {
        EditRefusal::OutOfMemory
    }
}

impl From<AllocError> for EditRefusal {
    ghost use Rattle.w4_defs.specs.declared.editing.EditRefusal.TheVariants.{OutOfMemory as NoMemory};

    ghost from_gives = { λ _ refusal. refusal ≡ NoMemory };

    fn from(_refusal: AllocError) -> EditRefusal {
        EditRefusal::OutOfMemory
    }
}

impl<T: Drop> From<AllocFailed<T>> for EditRefusal {
    ghost use Rattle.w4_defs.specs.declared.editing.EditRefusal.TheVariants.{OutOfMemory as NoMemory};

    ghost from_gives = { λ _ refusal. refusal ≡ NoMemory };

    fn from(_refusal: AllocFailed<T>) -> EditRefusal {
        EditRefusal::OutOfMemory
    }
}
