//! A module in flat lists.

ghost use Rattle.std.specs.Prelude.{◌<◌, ◌≤◌, ◌≡◌, All, IfSome, Some, length, option_map, slice_get};
ghost use Rattle.w4_defs.specs.Flattening.{IsProper};
ghost use Rattle.w4_defs.specs.Tree.{flat};
ghost use Rattle.wasm_tree.specs.Layout.{IsBody, StandsAt, body_size, body_starts, marks, mark_in};
ghost use Rattle.wasm_tree.specs.Pool.{label_begins, operations_of, pool_of};

use crate::bodies::Bodies;
use crate::parts::{FlatElement, FlatGlobal, FlatSegment};
use std::marker::Model;
use w4_defs::{Export, FuncType, GlobalType, ImportEntry, Limits, Locals, Op};

/// A module whose expressions are flattened, and whose bodies stand in one list. A clause sees the module.
/// The reader of the binary format alone makes one.
#[derive(Debug, Drop)]
pub struct Code {
    pub types: Vec<FuncType>,
    pub imports: Vec<ImportEntry>,
    pub functions: Vec<u32>,
    pub tables: Vec<Limits>,
    pub memories: Vec<Limits>,
    pub globals: Vec<FlatGlobal>,
    pub exports: Vec<Export>,
    pub start: Option<u32>,
    pub elements: Vec<FlatElement>,
    pub bodies: Bodies,
    pub segments: Vec<FlatSegment>,
}

impl Model for Code {
    ghost use Rattle.w4_defs.specs.Module.{WasmModule};

    ghost Value = { WasmModule };

    ghost use Rattle.std.specs.Coded.{codes};
    ghost use Rattle.w4_defs.specs.TreeCode.{tree_code};

    ghost coded = { Prim.hlevel (codes, tree_code) };

    ghost use Rattle.wasm_tree.specs.Layout.{IsCode};

    ghost view = { λ c. record {
      types = c.types.items;
      imports = c.imports.items;
      functions = c.functions.items;
      tables = c.tables.items;
      memories = c.memories.items;
      globals = c.globals.items;
      exports = c.exports.items;
      start = c.start;
      elements = c.elements.items;
      bodies = c.bodies;
      segments = c.segments.items;
    } };

    ghost invariant = { λ c. IsCode c.functions.items c.bodies c.types.items };
}

/// The lists of the module.
impl Code {
    /// The function types.
    pub fn types(&self) -> &[FuncType]
        ensures { result.now ≡ self.now.types }
    {
        &self.types
    }

    /// Each function type has at most one result, as the binary format demands.
    pub fn results_are_few(&self)
        ensures { All (λ s. length s.results ≤ 1) self.now.types }
    {
        let _types = &self.types;
    }

    pub fn imports(&self) -> &[ImportEntry]
        ensures { result.now ≡ self.now.imports }
    {
        &self.imports
    }

    /// The type indices of own functions; there are as many as bodies.
    pub fn functions(&self) -> &[u32]
        ensures value { result.now ≡ self.now.functions }
        ensures as_many_bodies { length self.now.functions ≡ length self.now.bodies }
    {
        &self.functions
    }

    /// The limits of own tables.
    pub fn tables(&self) -> &[Limits]
        ensures { result.now ≡ self.now.tables }
    {
        &self.tables
    }

    /// The limits of own memories.
    pub fn memories(&self) -> &[Limits]
        ensures { result.now ≡ self.now.memories }
    {
        &self.memories
    }

    pub fn exports(&self) -> &[Export]
        ensures { result.now ≡ self.now.exports }
    {
        &self.exports
    }

    /// The start function, which counts imports first; None if and only if there is none.
    pub fn start(&self) -> Option<u32>
        ensures { result ≡ self.now.start }
    {
        self.start
    }
}

/// Own globals.
impl Code {
    pub fn globals(&self) -> &[FlatGlobal]
        ensures { result.now ≡ self.now.globals }
    {
        &self.globals
    }

    pub fn global_count(&self) -> usize
        ensures { result ≡ length self.now.globals }
    {
        self.globals.len()
    }

    pub fn global_type(&self, i: usize) -> GlobalType
        requires { i < length self.now.globals }
        ensures { option_map (λ g. g.global) (slice_get self.now.globals i) ≡ Some result }
    {
        self.globals[i].global
    }

    /// The flattening of the first value.
    pub fn global_first(&self, i: usize) -> &[Op]
        requires { i < length self.now.globals }
        ensures value { option_map (λ g. operations_of (flat g.first)) (slice_get self.now.globals i)
            ≡ Some result.now }
        ensures proper { IfSome (slice_get self.now.globals i) (λ g. IsProper g.first) }
    {
        self.globals[i].first.ops()
    }
}

/// Element segments.
impl Code {
    pub fn elements(&self) -> &[FlatElement]
        ensures { result.now ≡ self.now.elements }
    {
        &self.elements
    }

    pub fn element_count(&self) -> usize
        ensures { result ≡ length self.now.elements }
    {
        self.elements.len()
    }

    /// The index of the table.
    pub fn element_table(&self, i: usize) -> u32
        requires { i < length self.now.elements }
        ensures { option_map (λ s. s.table) (slice_get self.now.elements i) ≡ Some result }
    {
        self.elements[i].table
    }

    /// The flattening of the offset.
    pub fn element_offset(&self, i: usize) -> &[Op]
        requires { i < length self.now.elements }
        ensures value { option_map (λ s. operations_of (flat s.offset)) (slice_get self.now.elements i)
            ≡ Some result.now }
        ensures proper { IfSome (slice_get self.now.elements i) (λ s. IsProper s.offset) }
    {
        self.elements[i].offset.ops()
    }

    /// The indices of the functions, which count imports first.
    pub fn element_functions(&self, i: usize) -> &[u32]
        requires { i < length self.now.elements }
        ensures { option_map (λ s. s.functions) (slice_get self.now.elements i) ≡ Some result.now }
    {
        &self.elements[i].functions
    }
}

/// Data segments.
impl Code {
    pub fn segments(&self) -> &[FlatSegment]
        ensures { result.now ≡ self.now.segments }
    {
        &self.segments
    }

    pub fn segment_count(&self) -> usize
        ensures { result ≡ length self.now.segments }
    {
        self.segments.len()
    }

    /// The index of the memory.
    pub fn segment_memory(&self, i: usize) -> u32
        requires { i < length self.now.segments }
        ensures { option_map (λ s. s.memory) (slice_get self.now.segments i) ≡ Some result }
    {
        self.segments[i].memory
    }

    /// The flattening of the offset.
    pub fn segment_offset(&self, i: usize) -> &[Op]
        requires { i < length self.now.segments }
        ensures value { option_map (λ s. operations_of (flat s.offset)) (slice_get self.now.segments i)
            ≡ Some result.now }
        ensures proper { IfSome (slice_get self.now.segments i) (λ s. IsProper s.offset) }
    {
        self.segments[i].offset.ops()
    }

    pub fn segment_bytes(&self, i: usize) -> &[u8]
        requires { i < length self.now.segments }
        ensures { option_map (λ s. s.bytes) (slice_get self.now.segments i) ≡ Some result.now }
    {
        &self.segments[i].bytes
    }
}

/// Own functions, one by one; positions count from the function's first mark.
impl Code {
    /// The runs of locals, as they are written.
    pub fn runs(&self, func: usize) -> &[Locals]
        requires { func < length self.now.bodies }
        ensures { option_map (λ f. f.runs) (slice_get self.now.bodies func) ≡ Some result.now }
    {
        self.bodies.runs(func)
    }

    /// How many marks the flattening has.
    pub fn len(&self, func: usize) -> usize
        requires { func < length self.now.bodies }
        ensures { result ≡ body_size self.now func }
    {
        self.bodies.body_size(func)
    }

    /// The mark at a position.
    pub fn op(&self, func: usize, position: usize) -> Op
        requires { position < body_size self.now func }
        ensures { option_map (λ m. m.0) (mark_in self.now func position) ≡ Some result }
    {
        self.bodies.op(func, position)
    }

    /// The labels of the mark at a position: those of a br_table, the default last; none at any other.
    pub fn labels(&self, func: usize, position: usize) -> &[u32]
        requires { position < body_size self.now func }
        ensures { option_map (λ m. m.1) (mark_in self.now func position) ≡ Some result.now }
    {
        self.bodies.labels(func, position)
    }
}

/// The bodies of all own functions as one list; positions count from the first mark of all.
impl Code {
    /// The operations of all bodies.
    pub fn operations(&self) -> &[Op]
        ensures value { result.now ≡ operations_of (marks self.now) }
        ensures proper { All (λ f. IsProper f.list) self.now.bodies }
    {
        self.bodies.marks().ops()
    }

    /// The labels of all br_tables, one after the other.
    pub fn pool(&self) -> &[u32]
        ensures { result.now ≡ pool_of (marks self.now) }
    {
        self.bodies.marks().pool()
    }

    /// For each operation the position in the pool where its labels begin, and at the end the pool's end.
    pub fn label_begins(&self) -> &[usize]
        ensures { result.now ≡ label_begins (marks self.now) }
    {
        self.bodies.marks().label_begins()
    }

    /// The position of the first mark of an own function.
    pub fn body_start(&self, func: usize) -> usize
        requires { func < length self.now.bodies }
        ensures start { slice_get (body_starts self.now) func ≡ Some result }
        ensures stands { StandsAt (marks self.now) result (slice_get self.now.bodies func) }
    {
        self.bodies.body_start(func)
    }

    /// The operations of one body, a part of the operations of all.
    pub fn body(&self, func: usize) -> &[Op]
        requires { func < length self.now.bodies }
        ensures value { IsBody (slice_get self.now.bodies func) result.now }
        ensures proper { IfSome (slice_get self.now.bodies func) (λ f. IsProper f.list) }
    {
        self.bodies.operations(func)
    }
}
