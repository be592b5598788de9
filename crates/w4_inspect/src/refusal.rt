//! Why a watch or a search is refused.

ghost use Rattle.std.specs.Prelude.{◌≡◌};

use std::alloc::{AllocError, AllocFailed};
use thiserror::Error;
use w4_defs::OutOfMemory as NoMemory;

/// Why there is no answer. The causes are looked at in this order.
#[derive(Clone, Copy, PartialEq, Eq, Debug, Error)]
pub enum RamRefusal {
    /// The recording has no such place.
    #[error("no frame")]
    NoFrame,
    /// The bytes that are watched pass the end of the page.
    #[error("outside")]
    Outside,
    /// Memory was refused; always permitted.
    #[error("out of memory")]
    OutOfMemory,
}

impl From<NoMemory> for RamRefusal {
    ghost use Rattle.w4_inspect.specs.declared.refusal.RamRefusal.TheVariants as refusal;

    ghost from_gives = { λ _ e. e ≡ refusal.OutOfMemory };

    fn from(_refusal: NoMemory) -> RamRefusal {
        RamRefusal::OutOfMemory
    }
}

impl From<AllocError> for RamRefusal {
    ghost use Rattle.w4_inspect.specs.declared.refusal.RamRefusal.TheVariants as refusal;

    ghost from_gives = { λ _ e. e ≡ refusal.OutOfMemory };

    fn from(_refusal: AllocError) -> RamRefusal {
        RamRefusal::OutOfMemory
    }
}

impl<T: Drop> From<AllocFailed<T>> for RamRefusal {
    ghost use Rattle.w4_inspect.specs.declared.refusal.RamRefusal.TheVariants as refusal;

    ghost from_gives = { λ _ e. e ≡ refusal.OutOfMemory };

    fn from(_refusal: AllocFailed<T>) -> RamRefusal {
        RamRefusal::OutOfMemory
    }
}
