//! Why a module is no cart.

ghost use Rattle.std.specs.Prelude.{◌≡◌};

use std::fmt;
use thiserror::Error;
use w4_defs::OutOfMemory as NoMemory;

/// Why there is no cart.
#[derive(Clone, Copy, PartialEq, Eq, Debug, Error)]
pub enum ValidRefusal {
    /// A module rule fails (None), or this own function, counted from 0, is the first without a typing.
    #[error("invalid {}", Part(*.0))]
    Invalid(Option<usize>),
    /// Memory was refused. So is refused code that no reader makes: with 2^32 operations or types.
    #[error("out of memory")]
    OutOfMemory,
}

/// The part of a module that is invalid: an own function, or the module itself.
#[derive(Drop)]
struct Part(Option<usize>);

impl fmt::Display for Part {
    fn fmt<W: fmt::Write>(&self, f: &mut fmt::Formatter<W>) -> fmt::Result {
        match self.0 {
            Some(func) => write!(f, "function {func}"),
            None => f.write_str("module"),
        }
    }
}

impl From<NoMemory> for ValidRefusal {
    ghost use Rattle.wasm_valid.specs.declared.refusal.ValidRefusal.TheVariants as refusal;

    ghost from_gives = { λ _ e. e ≡ refusal.OutOfMemory };

    fn from(_refusal: NoMemory) -> ValidRefusal {
        ValidRefusal::OutOfMemory
    }
}
