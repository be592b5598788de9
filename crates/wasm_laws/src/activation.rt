//! The active function (an activation of the Core Specification, section 4.2.12), as far as the stack rule
//! needs it.

/// `base` is how many slots lie below the function's locals, `depth` how many functions are active, and
/// `reserve` the sum of their reserves.
#[derive(Clone, Copy, PartialEq, Eq, Debug)]
pub struct Activation {
    pub base: usize,
    pub depth: usize,
    pub reserve: usize,
}
