//! A module and its parts (Core Specification, sections 2.5 and 5.5).

use crate::instruction::Instr;
use crate::value::{GlobalType, Limits, ValType};
use std::marker::Model;

/// What an import is: a function by its type index, a table, a memory or a global.
#[derive(Clone, Copy, PartialEq, Eq, Debug)]
pub enum ImportKind {
    Func { index: u32 },
    Table { limits: Limits },
    Memory { limits: Limits },
    Global { global: GlobalType },
}

/// What the index of an export names.
#[derive(Clone, Copy, PartialEq, Eq, Debug)]
pub enum ExportKind {
    Func,
    Table,
    Memory,
    Global,
}

/// A run of `count` locals of one type.
#[derive(Clone, Copy, PartialEq, Eq, Debug)]
pub struct Locals {
    pub count: u32,
    pub kind: ValType,
}

/// A function type.
#[derive(Debug, Drop)]
pub struct FuncType {
    pub params: Vec<ValType>,
    pub results: Vec<ValType>,
}

impl Model for FuncType {
    ghost use Rattle.w4_defs.specs.Module.{Signature};

    ghost Value = { Signature };

    ghost view = { λ s. record { params = s.params.items; results = s.results.items } };
}

/// An import, by the bytes of its two names.
#[derive(Debug, Drop)]
pub struct ImportEntry {
    pub module: Vec<u8>,
    pub name: Vec<u8>,
    pub kind: ImportKind,
}

impl Model for ImportEntry {
    ghost use Rattle.w4_defs.specs.Module.{Imported};

    ghost Value = { Imported };

    ghost view = { λ i. record { module_name = i.module.items; name = i.name.items; kind = i.kind } };
}

/// An own global: its type and the expression of its first value.
#[derive(Debug, Drop)]
pub struct GlobalEntry {
    pub global: GlobalType,
    pub first: Vec<Instr>,
}

impl Model for GlobalEntry {
    ghost use Rattle.w4_defs.specs.Module.{Global};

    ghost Value = { Global };

    ghost use Rattle.std.specs.Coded.{codes};
    ghost use Rattle.w4_defs.specs.TreeCode.{tree_code};

    ghost coded = { Prim.hlevel (codes, tree_code) };

    ghost use Rattle.w4_defs.specs.View.{expression_of};

    ghost view = { λ g. record { global = g.global; first = expression_of g.first.items } };
}

/// An export; the index counts imports first.
#[derive(Debug, Drop)]
pub struct Export {
    pub name: Vec<u8>,
    pub kind: ExportKind,
    pub index: u32,
}

impl Model for Export {
    ghost use Rattle.w4_defs.specs.Module.{Exported};

    ghost Value = { Exported };

    ghost view = { λ e. record { name = e.name.items; kind = e.kind; index = e.index } };
}

/// An element segment: functions that are put into a table.
#[derive(Debug, Drop)]
pub struct Element {
    pub table: u32,
    pub offset: Vec<Instr>,
    pub functions: Vec<u32>,
}

impl Model for Element {
    ghost use Rattle.w4_defs.specs.Module.{ElementSegment};

    ghost Value = { ElementSegment };

    ghost use Rattle.std.specs.Coded.{codes};
    ghost use Rattle.w4_defs.specs.TreeCode.{tree_code};

    ghost coded = { Prim.hlevel (codes, tree_code) };

    ghost use Rattle.w4_defs.specs.View.{expression_of};

    ghost view = { λ s. record {
      table = s.table;
      offset = expression_of s.offset.items;
      functions = s.functions.items;
    } };
}

/// An own function's code: its runs of locals, as they are written, and its expression.
#[derive(Debug, Drop)]
pub struct Body {
    pub runs: Vec<Locals>,
    pub list: Vec<Instr>,
}

impl Model for Body {
    ghost use Rattle.w4_defs.specs.Module.{Function};

    ghost Value = { Function };

    ghost use Rattle.std.specs.Coded.{codes};
    ghost use Rattle.w4_defs.specs.TreeCode.{tree_code};

    ghost coded = { Prim.hlevel (codes, tree_code) };

    ghost use Rattle.w4_defs.specs.View.{expression_of};

    ghost view = { λ b. record { runs = b.runs.items; list = expression_of b.list.items } };
}

/// A data segment: bytes that are put into a memory.
#[derive(Debug, Drop)]
pub struct Segment {
    pub memory: u32,
    pub offset: Vec<Instr>,
    pub bytes: Vec<u8>,
}

impl Model for Segment {
    ghost use Rattle.w4_defs.specs.Module.{DataSegment};

    ghost Value = { DataSegment };

    ghost use Rattle.std.specs.Coded.{codes};
    ghost use Rattle.w4_defs.specs.TreeCode.{tree_code};

    ghost coded = { Prim.hlevel (codes, tree_code) };

    ghost use Rattle.w4_defs.specs.View.{expression_of};

    ghost view = { λ s. record {
      memory = s.memory;
      offset = expression_of s.offset.items;
      bytes = s.bytes.items;
    } };
}

/// A module. `functions` has the type indices of own functions, `segments` the data segments.
#[derive(Debug, Drop)]
pub struct Module {
    pub types: Vec<FuncType>,
    pub imports: Vec<ImportEntry>,
    pub functions: Vec<u32>,
    pub tables: Vec<Limits>,
    pub memories: Vec<Limits>,
    pub globals: Vec<GlobalEntry>,
    pub exports: Vec<Export>,
    pub start: Option<u32>,
    pub elements: Vec<Element>,
    pub bodies: Vec<Body>,
    pub segments: Vec<Segment>,
}

impl Model for Module {
    ghost use Rattle.w4_defs.specs.Module.{WasmModule};

    ghost Value = { WasmModule };

    ghost use Rattle.std.specs.Coded.{codes};
    ghost use Rattle.w4_defs.specs.TreeCode.{tree_code};

    ghost coded = { Prim.hlevel (codes, tree_code) };

    ghost view = { λ m. record {
      types = m.types.items;
      imports = m.imports.items;
      functions = m.functions.items;
      tables = m.tables.items;
      memories = m.memories.items;
      globals = m.globals.items;
      exports = m.exports.items;
      start = m.start;
      elements = m.elements.items;
      bodies = m.bodies.items;
      segments = m.segments.items;
    } };
}
