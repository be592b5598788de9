//! Why a text isn't read.

ghost use Rattle.std.specs.Prelude.{◌≡◌};

use std::alloc::{AllocError, AllocFailed};
use thiserror::Error;
use w4_defs::OutOfMemory as NoMemory;

/// Why there are no orders. A text that is too long is refused first, then the first bad line.
#[derive(Clone, Copy, PartialEq, Eq, Debug, Error)]
pub enum ScriptRefusal {
    /// The text has more than 1,048,576 bytes, or a list more than 65,536.
    #[error("too long")]
    TooLong,
    /// The first line that is no order or no name, counted from 1, skipped lines too.
    #[error("line {0}")]
    BadLine(u32),
    /// Memory was refused; always permitted.
    #[error("out of memory")]
    OutOfMemory,
}

impl From<NoMemory> for ScriptRefusal {
    ghost use Rattle.w4_script.specs.declared.refusal.ScriptRefusal.TheVariants as refusal;

    ghost from_gives = { λ _ e. e ≡ refusal.OutOfMemory };

    fn from(_refusal: NoMemory) -> ScriptRefusal {
        ScriptRefusal::OutOfMemory
    }
}

impl From<AllocError> for ScriptRefusal {
    ghost use Rattle.w4_script.specs.declared.refusal.ScriptRefusal.TheVariants as refusal;

    ghost from_gives = { λ _ e. e ≡ refusal.OutOfMemory };

    fn from(_refusal: AllocError) -> ScriptRefusal {
        ScriptRefusal::OutOfMemory
    }
}

impl<T: Drop> From<AllocFailed<T>> for ScriptRefusal {
    ghost use Rattle.w4_script.specs.declared.refusal.ScriptRefusal.TheVariants as refusal;

    ghost from_gives = { λ _ e. e ≡ refusal.OutOfMemory };

    fn from(_refusal: AllocFailed<T>) -> ScriptRefusal {
        ScriptRefusal::OutOfMemory
    }
}
