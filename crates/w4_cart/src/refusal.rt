//! Why bytes are no cart.

ghost use Rattle.std.specs.Prelude.{◌≡◌};

use w4_defs::{CartKind, Refusal};

/// Why bytes are no cart, or that memory was refused.
#[derive(Clone, Copy, PartialEq, Eq, Debug)]
pub enum CartRefusal {
    /// By the first cause that holds.
    Kind(CartKind),
    /// Memory was refused.
    OutOfMemory,
}

impl From<CartRefusal> for Refusal {
    ghost use Rattle.w4_cart.specs.Refusal.{cart_refusal};

    ghost from_gives = { λ why refusal. refusal ≡ cart_refusal why };

    fn from(why: CartRefusal) -> Refusal {
        match why {
            CartRefusal::Kind(kind) => Refusal::CartRefused(kind),
            CartRefusal::OutOfMemory => Refusal::OutOfMemory,
        }
    }
}
