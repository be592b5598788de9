//! Labels: what a branch goes to (Core Specification, section 4.2.12).

/// A list of instructions that is open. Places count the operations of all bodies; `height` is how many
/// slots lie below the list's operands.
#[derive(Clone, Copy, PartialEq, Eq, Debug)]
pub enum Label {
    /// A block or an if, which leaves its result at its end.
    List {
        answers: bool,
        end: u32,
        height: u32,
    },
    /// A loop, whose next iteration begins at `start`.
    Loop {
        start: u32,
        height: u32,
    },
    /// The body of a called function: where the caller goes on, the caller's base, and the reserve of the
    /// called function.
    Call {
        answers: bool,
        back: u32,
        base: u32,
        reserve: u32,
    },
}
