//! How a run goes on after a step.

use w4_defs::Cause;

/// The result of one step.
#[derive(Clone, Copy, PartialEq, Eq, Debug)]
pub enum Flow {
    /// On at this position, with this much of the budget.
    Go { pc: usize, rest: u32 },
    /// The entry function has come to its end, and this much of the budget is left.
    Done { rest: u32 },
    /// The instruction trapped.
    Trap(Cause),
    /// The budget doesn't last for the instruction, which had no effect.
    Spent,
}
