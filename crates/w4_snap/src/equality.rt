//! Equality of globals and of channels.

ghost use Rattle.std.specs.Prelude.{◌≡◌, ◌↔◌, IsTrue};

use w4_defs::Val;
use w4_tone::Channels;

/// Whether two lists of globals are equal.
pub fn equal_globals(one: &[Val], other: &[Val]) -> bool
    ensures { IsTrue result ↔ (one.now ≡ other.now) }
{
    one == other
}

/// Whether two consoles' channels play alike.
pub fn equal_channels(one: &Channels, other: &Channels) -> bool
    ensures { IsTrue result ↔ (one.now ≡ other.now) }
{
    one == other
}
