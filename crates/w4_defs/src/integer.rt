//! The integer instructions by their shape (Core Specification, section 4.3.2). What each computes is
//! in `specs/Integers.antt`.

/// An operation on one operand.
#[derive(Clone, Copy, PartialEq, Eq, Debug)]
pub enum Unary {
    /// The zeros above the highest set digit.
    Clz,
    /// The zeros below the lowest set digit.
    Ctz,
    /// The set digits.
    Popcnt,
}

/// An operation on two operands of one width. `S` reads them as signed, `U` as unsigned.
#[derive(Clone, Copy, PartialEq, Eq, Debug)]
pub enum Binary {
    Add,
    Sub,
    Mul,
    DivS,
    DivU,
    RemS,
    RemU,
    And,
    Or,
    Xor,
    Shl,
    ShrS,
    ShrU,
    Rotl,
    Rotr,
}

/// A comparison of two operands of one width.
#[derive(Clone, Copy, PartialEq, Eq, Debug)]
pub enum Compare {
    Eq,
    Ne,
    LtS,
    LtU,
    GtS,
    GtU,
    LeS,
    LeU,
    GeS,
    GeU,
}
