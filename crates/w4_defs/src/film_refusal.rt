//! Why there is no film.

ghost use Rattle.std.specs.Prelude.{◌≡◌};

use crate::memory::OutOfMemory as NoMemory;
use thiserror::Error;

/// Why there is no film. The causes are looked at in this order.
#[derive(Clone, Copy, PartialEq, Eq, Debug, Error)]
pub enum FilmRefusal {
    /// The recording has no such last place.
    #[error("no frame")]
    NoFrame,
    /// There would be more than 600 images.
    #[error("too long")]
    FilmTooLong,
    /// Memory was refused; always permitted.
    #[error("out of memory")]
    OutOfMemory,
}

impl From<NoMemory> for FilmRefusal {
    ghost use Rattle.w4_defs.specs.declared.film_refusal.FilmRefusal.TheVariants as refusal;

    ghost from_gives = { λ _ e. e ≡ refusal.OutOfMemory };

    fn from(_refusal: NoMemory) -> FilmRefusal {
        FilmRefusal::OutOfMemory
    }
}
