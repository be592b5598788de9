//! Instructions as trees (Core Specification, sections 2.4 and 5.4).

use crate::basic::Basic;
use crate::value::ValType;

/// One instruction, with the lists inside it. A label counts blocks outward, from 0.
#[derive(Debug, Drop)]
pub enum Instr {
    Unreachable,
    Nop,
    Block {
        result: Option<ValType>,
        inner: Vec<Instr>,
    },
    Loop {
        result: Option<ValType>,
        inner: Vec<Instr>,
    },
    /// `no` is None where no `else` parts the lists.
    If {
        result: Option<ValType>,
        yes: Vec<Instr>,
        no: Option<Vec<Instr>>,
    },
    Br {
        label: u32,
    },
    BrIf {
        label: u32,
    },
    /// `last` is the default label.
    BrTable {
        labels: Vec<u32>,
        last: u32,
    },
    Return,
    Call {
        func: u32,
    },
    CallIndirect {
        signature: u32,
        table: u32,
    },
    Drop,
    Select,
    LocalGet {
        index: u32,
    },
    LocalSet {
        index: u32,
    },
    LocalTee {
        index: u32,
    },
    GlobalGet {
        index: u32,
    },
    GlobalSet {
        index: u32,
    },
    Basic(Basic),
}
