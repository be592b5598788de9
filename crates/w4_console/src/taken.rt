//! What the calls of a frame or a reset take of their budget.

ghost use Rattle.std.specs.Prelude.{◌≡◌};
ghost use Rattle.w4_console.specs.Taken.{taken_by_calls_of, taken_of};

/// What a frame or a reset took of its budget.
#[derive(Clone, Copy, PartialEq, Eq, Debug)]
pub enum Taken {
    /// So many units: all calls ended normally.
    Units(u32),
    /// None, since the console was halted before.
    Halted,
    /// The cart trapped.
    Trapped,
    /// The budget was spent.
    Spent,
}

/// What a frame took.
#[derive(Clone, Copy, PartialEq, Eq, Debug)]
pub struct FrameTaken {
    /// What `update` took of its budget, that of a reset not counted.
    pub update: Taken,
    /// What the reset at the frame's start took, if its input has one.
    pub start: Option<Taken>,
}

/// Why no calls follow.
#[derive(Clone, Copy, PartialEq, Eq, Debug)]
pub(crate) enum Stop {
    Trapped,
    Spent,
}

/// What calls took that leave this rest of their budget, or of which the last was stopped.
pub(crate) fn taken_by_calls(budget: u32, rest: Result<u32, Stop>) -> Taken
    ensures { taken_of result ≡ taken_by_calls_of budget rest }
{
    match rest {
        Ok(rest) => Taken::Units(budget.saturating_sub(rest)),
        Err(Stop::Trapped) => Taken::Trapped,
        Err(Stop::Spent) => Taken::Spent,
    }
}
