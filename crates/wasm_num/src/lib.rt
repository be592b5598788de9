//! The integer operations of 32 and 64 bits by machine operations (Core Specification, section 4.3.2).
//! The layers above rely on this: each call gives exactly what the definition of the operation says, for
//! every operand, and traps if and only if the definition does.
#![tactic(auto)]

pub mod bits32;
pub mod bits64;
mod division;
mod extend;
pub mod laws;
mod sign;

pub use bits32::{binary32, compare32, unary32};
pub use bits64::{binary64, compare64, unary64};
pub use extend::{extend_32, extend_64};
