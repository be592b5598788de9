//! Why bytes give no recording.

ghost use Rattle.std.specs.Prelude.{◌≡◌};

use std::alloc::{AllocError, AllocFailed};
use thiserror::Error;
use w4_defs::{OutOfMemory as NoMemory, RecordingKind, Refusal};

/// Why there is no recording.
#[derive(Clone, Copy, PartialEq, Eq, Debug, Error)]
pub enum RecordingRefusal {
    /// The bytes encode no recording, in either version.
    #[error("bad recording")]
    BadRecording,
    /// Memory was refused.
    #[error("out of memory")]
    OutOfMemory,
}

impl From<NoMemory> for RecordingRefusal {
    ghost use Rattle.w4_record.specs.declared.refusal.RecordingRefusal.TheVariants as refusal;

    ghost from_gives = { λ _ e. e ≡ refusal.OutOfMemory };

    fn from(_refusal: NoMemory) -> RecordingRefusal {
        RecordingRefusal::OutOfMemory
    }
}

impl From<AllocError> for RecordingRefusal {
    ghost use Rattle.w4_record.specs.declared.refusal.RecordingRefusal.TheVariants as refusal;

    ghost from_gives = { λ _ e. e ≡ refusal.OutOfMemory };

    fn from(_refusal: AllocError) -> RecordingRefusal {
        RecordingRefusal::OutOfMemory
    }
}

impl<T: Drop> From<AllocFailed<T>> for RecordingRefusal {
    ghost use Rattle.w4_record.specs.declared.refusal.RecordingRefusal.TheVariants as refusal;

    ghost from_gives = { λ _ e. e ≡ refusal.OutOfMemory };

    fn from(_refusal: AllocFailed<T>) -> RecordingRefusal {
        RecordingRefusal::OutOfMemory
    }
}

impl From<RecordingRefusal> for Refusal {
    ghost use Rattle.w4_record.specs.Refusal.{recording_refusal};

    ghost from_gives = { λ why refusal. refusal ≡ recording_refusal why };

    fn from(why: RecordingRefusal) -> Refusal {
        match why {
            RecordingRefusal::BadRecording => Refusal::RecordingRefused(RecordingKind::Bad),
            RecordingRefusal::OutOfMemory => Refusal::OutOfMemory,
        }
    }
}
