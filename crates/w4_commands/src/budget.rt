//! A budget, in units.

ghost use Rattle.std.specs.Prelude.{◌≤◌};

/// How many units a reset or a frame may take: at least 1.
#[derive(Clone, Copy)]
pub struct Budget {
    pub units: u32,
    ghost some: { 1 ≤ units },
}
