//! The parts of a module that hold expressions, in flat lists.

use crate::expression::FlatExpression;
use std::marker::Model;
use w4_defs::{GlobalType, Locals};

/// An own global: its type and the expression of its first value.
#[derive(Debug, Drop)]
pub struct FlatGlobal {
    pub global: GlobalType,
    pub first: FlatExpression,
}

impl Model for FlatGlobal {
    ghost use Rattle.w4_defs.specs.Module.{Global};

    ghost Value = { Global };

    ghost use Rattle.std.specs.Coded.{codes};
    ghost use Rattle.w4_defs.specs.TreeCode.{tree_code};

    ghost coded = { Prim.hlevel (codes, tree_code) };

    ghost view = { λ g. record { global = g.global; first = g.first } };
}

/// An element segment: functions that are put into a table.
#[derive(Debug, Drop)]
pub struct FlatElement {
    pub table: u32,
    pub offset: FlatExpression,
    pub functions: Vec<u32>,
}

impl Model for FlatElement {
    ghost use Rattle.w4_defs.specs.Module.{ElementSegment};

    ghost Value = { ElementSegment };

    ghost use Rattle.std.specs.Coded.{codes};
    ghost use Rattle.w4_defs.specs.TreeCode.{tree_code};

    ghost coded = { Prim.hlevel (codes, tree_code) };

    ghost view = { λ s. record { table = s.table; offset = s.offset; functions = s.functions.items } };
}

/// A data segment: bytes that are put into a memory.
#[derive(Debug, Drop)]
pub struct FlatSegment {
    pub memory: u32,
    pub offset: FlatExpression,
    pub bytes: Vec<u8>,
}

impl Model for FlatSegment {
    ghost use Rattle.w4_defs.specs.Module.{DataSegment};

    ghost Value = { DataSegment };

    ghost use Rattle.std.specs.Coded.{codes};
    ghost use Rattle.w4_defs.specs.TreeCode.{tree_code};

    ghost coded = { Prim.hlevel (codes, tree_code) };

    ghost view = { λ s. record { memory = s.memory; offset = s.offset; bytes = s.bytes.items } };
}

/// An own function's code by itself: its runs of locals, as they are written, and its expression.
#[derive(Debug, Drop)]
pub struct FlatBody {
    pub runs: Vec<Locals>,
    pub list: FlatExpression,
}

impl Model for FlatBody {
    ghost use Rattle.w4_defs.specs.Module.{Function};

    ghost Value = { Function };

    ghost use Rattle.std.specs.Coded.{codes};
    ghost use Rattle.w4_defs.specs.TreeCode.{tree_code};

    ghost coded = { Prim.hlevel (codes, tree_code) };

    ghost view = { λ b. record { runs = b.runs.items; list = b.list } };
}
