//! A number of workers.

ghost use Rattle.std.specs.Prelude.{◌≤◌};

/// How many workers share a piece of work at most.
pub const MOST_WORKERS: usize = 16;

/// How many workers share a piece of work: 1 to 16.
#[derive(Clone, Copy)]
pub struct Workers {
    pub count: usize,
    ghost some: { 1 ≤ count },
    ghost few: { count ≤ 16 },
}
