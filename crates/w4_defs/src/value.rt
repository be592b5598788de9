//! Values and their types (Core Specification, sections 2.2 and 2.3).

/// A value type. The float types are read and then refused by the profile.
#[derive(Clone, Copy, PartialEq, Eq, Debug)]
pub enum ValType {
    I32,
    I64,
    F32,
    F64,
}

/// A value, as the number modulo 2^32 or 2^64.
#[derive(Clone, Copy, PartialEq, Eq, Debug)]
pub enum Val {
    I32(u32),
    I64(u64),
}

/// The least size and, where there is one, the greatest: in elements of a table or pages of a memory.
#[derive(Clone, Copy, PartialEq, Eq, Debug)]
pub struct Limits {
    pub least: u32,
    pub greatest: Option<u32>,
}

/// The type of a global's value, and whether it may be set.
#[derive(Clone, Copy, PartialEq, Eq, Debug)]
pub struct GlobalType {
    pub value: ValType,
    pub mutable: bool,
}

/// Why a run trapped.
#[derive(Clone, Copy, PartialEq, Eq, Debug)]
pub enum Cause {
    /// The instruction `unreachable`.
    Unreachable,
    /// A division or remainder by zero.
    DivideByZero,
    /// The least signed number divided by -1.
    Overflow,
    /// An access past the page.
    Memory,
    /// An index at or past the table's size.
    Table,
    /// A table element that holds no function.
    EmptyEntry,
    /// A function whose type isn't the one named at the indirect call.
    Type_,
    /// More active functions, or greater reserves, than the stack rule allows.
    Stack,
}
