//! Flat operations: the marks of a list of instructions in the order of their bytes, in which each `else` and
//! each `end` is a mark of its own (Core Specification, section 5.4).

use crate::basic::Basic;
use crate::value::ValType;

/// One mark of a flattened list. `end` is the position of the matching `end`, `other` that of the `else`,
/// None where there is none.
#[derive(Clone, Copy, PartialEq, Eq, Debug)]
pub enum Op {
    Unreachable,
    Nop,
    Block {
        result: Option<ValType>,
        end: usize,
    },
    Loop {
        result: Option<ValType>,
        end: usize,
    },
    If {
        result: Option<ValType>,
        other: Option<usize>,
        end: usize,
    },
    Else,
    End,
    Br {
        label: u32,
    },
    BrIf {
        label: u32,
    },
    /// Its labels stand beside it, the default last.
    BrTable,
    Return,
    Call {
        func: u32,
    },
    CallIndirect {
        signature: u32,
        table: u32,
    },
    Drop,
    Select,
    LocalGet {
        index: u32,
    },
    LocalSet {
        index: u32,
    },
    LocalTee {
        index: u32,
    },
    GlobalGet {
        index: u32,
    },
    GlobalSet {
        index: u32,
    },
    Basic(Basic),
}
