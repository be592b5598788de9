//! Why bytes aren't read.

ghost use Rattle.std.specs.Prelude.{◌≡◌};

use std::alloc::{AllocError, AllocFailed};
use thiserror::Error;
use w4_defs::OutOfMemory as NoMemory;

/// Why there is no module.
#[derive(Clone, Copy, PartialEq, Eq, Debug, Error)]
pub enum ReadRefusal {
    /// The bytes encode no module.
    #[error("malformed")]
    Malformed,
    /// Memory was refused.
    #[error("out of memory")]
    OutOfMemory,
}

impl From<NoMemory> for ReadRefusal {
    ghost use Rattle.wasm_read.specs.declared.refusal.ReadRefusal.TheVariants as refusal;

    ghost from_gives = { λ _ e. e ≡ refusal.OutOfMemory };

    fn from(_refusal: NoMemory) -> ReadRefusal {
        ReadRefusal::OutOfMemory
    }
}

impl From<AllocError> for ReadRefusal {
    ghost use Rattle.wasm_read.specs.declared.refusal.ReadRefusal.TheVariants as refusal;

    ghost from_gives = { λ _ e. e ≡ refusal.OutOfMemory };

    fn from(_refusal: AllocError) -> ReadRefusal {
        ReadRefusal::OutOfMemory
    }
}

impl<T: Drop> From<AllocFailed<T>> for ReadRefusal {
    ghost use Rattle.wasm_read.specs.declared.refusal.ReadRefusal.TheVariants as refusal;

    ghost from_gives = { λ _ e. e ≡ refusal.OutOfMemory };

    fn from(_refusal: AllocFailed<T>) -> ReadRefusal {
        ReadRefusal::OutOfMemory
    }
}
