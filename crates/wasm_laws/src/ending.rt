//! How a run ends.

use w4_defs::Cause;

/// How the run of an entry function ended.
#[derive(Clone, Copy, PartialEq, Eq, Debug)]
pub enum Ending {
    /// The function came to its end, and this much of the budget is left.
    Done { rest: u32 },
    /// An instruction trapped; what was written before it stays.
    Trap(Cause),
    /// The budget was used up before an instruction, which had no effect.
    Spent,
}
