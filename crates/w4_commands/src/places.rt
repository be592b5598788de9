//! A range of places.

ghost use Rattle.std.specs.Prelude.{◌≤◌};

/// The places from one up to another.
#[derive(Clone, Copy)]
pub struct Places {
    pub from: u32,
    pub to: u32,
    ghost order: { from ≤ to },
}
