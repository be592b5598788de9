//! Operations with their labels in three flat lists.

ghost use Rattle.std.specs.Prelude.{◌+◌, ◌++◌, ◌<◌, ◌≡◌, ◌≤◌, ◌∷◌, IfOk, Some, [], get_or, length, option_map, slice_get, slice_index, slice_range, slice_set};
ghost use Rattle.wasm_tree.specs.Pool.{label_begins, operations_of, pool_of};

use std::alloc::Global;
use std::marker::Model;
use w4_defs::{Op, OutOfMemory};

/// Marks of a flattening: each is an operation with its labels, those of a br_table with the default last. A
/// clause sees their list.
#[derive(Debug, Drop)]
pub struct Marks {
    ops: Vec<Op>,
    begins: Vec<usize>,
    pool: Vec<u32>,
}

impl Model for Marks {
    ghost use Rattle.std.specs.Prelude.{List};
    ghost use Rattle.w4_defs.specs.Tree.{Mark};
    ghost use Rattle.wasm_tree.specs.Pool.{ArePooled, marks_of};

    ghost Value = { List Mark };

    ghost view = { λ m. marks_of m.ops.items m.begins.items m.pool.items };

    ghost invariant = { λ m. ArePooled m.ops.items m.begins.items m.pool.items };
}

impl Marks {
    /// No marks.
    pub fn new(alloc: Global) -> Result<Marks, OutOfMemory>
        ensures { IfOk result (λ m. m ≡ []) }
    {
        let mut begins = Vec::new(alloc);
        begins.push(0)?;
        Ok(Marks {
            ops: Vec::new(alloc),
            begins,
            pool: Vec::new(alloc),
        })
    }

    /// One more mark at the end.
    pub fn with(self, op: Op, labels: &[u32]) -> Result<Marks, OutOfMemory>
        ensures { IfOk result (λ m. m ≡ self ++ (op, labels.now) ∷ []) }
    {
        let Marks {
            mut ops,
            mut begins,
            mut pool,
        } = self;
        pool.extend_from_slice(labels)?;
        begins.push(pool.len())?;
        ops.push(op)?;
        Ok(Marks { ops, begins, pool })
    }

    /// Puts another operation in place of one; its labels stay.
    pub fn set_op(&mut self, position: usize, op: Op)
        requires { position < length self.old }
        ensures { self.new ≡ slice_set self.old position (op, (get_or self.old position (op, [])).1) }
    {
        self.ops[position] = op;
    }

    pub fn len(&self) -> usize
        ensures { result ≡ length self.now }
    {
        self.ops.len()
    }

    pub fn op(&self, position: usize) -> Op
        requires { position < length self.now }
        ensures { option_map (λ m. m.0) (slice_get self.now position) ≡ Some result }
    {
        self.ops[position]
    }

    /// The labels of the mark at this position.
    pub fn labels(&self, position: usize) -> &[u32]
        requires { position < length self.now }
        ensures { option_map (λ m. m.1) (slice_get self.now position) ≡ Some result.now }
    {
        stretch(&self.pool, &self.begins, position)
    }

    /// All operations.
    pub fn ops(&self) -> &[Op]
        ensures { result.now ≡ operations_of self.now }
    {
        &self.ops
    }

    /// All labels, one mark's after the other's.
    pub fn pool(&self) -> &[u32]
        ensures { result.now ≡ pool_of self.now }
    {
        &self.pool
    }

    /// For each mark the position in the pool where its labels begin, and at the end that of the pool's end.
    pub fn label_begins(&self) -> &[usize]
        ensures { result.now ≡ label_begins self.now }
    {
        &self.begins
    }
}

/// The part of the pool from the position that stands in the list to the next.
fn stretch<'a>(pool: &'a [u32], begins: &[usize], position: usize) -> &'a [u32]
    requires next { position + 1 < length begins.now }
    requires rises { slice_index begins.now position ≤ slice_index begins.now (position + 1) }
    requires within { slice_index begins.now (position + 1) ≤ length pool.now }
    ensures { result.now ≡ slice_range pool.now (slice_index begins.now position)
        (slice_index begins.now (position + 1)) }
{
    &pool[begins[position]..begins[position + 1]]
}
