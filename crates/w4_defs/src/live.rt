//! The orders of a live session.

use crate::inspect::Ask;
use crate::order::Order;

/// An order of a live session, one a line. Inputs and places count from 0.
#[derive(Clone, Copy, PartialEq, Eq, Debug)]
pub enum LiveOrder {
    /// An order of a script.
    Script { order: Order },
    /// A request of a query.
    Query { ask: Ask },
    /// The page at place `p`.
    PageAt { p: u32 },
    /// The globals at place `p`.
    GlobalsAt { p: u32 },
    /// The inputs from `a` to before `b`, as orders that set them.
    Inputs { a: u32, b: u32 },
    /// What the frames from `a` to before `b` took of their budgets.
    Units { a: u32, b: u32 },
    /// The file OUT becomes the recording as it is.
    Save,
}
