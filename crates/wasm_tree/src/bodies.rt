//! The bodies of all own functions in one list.

ghost use Rattle.std.specs.Prelude.{◌+◌, ◌++◌, ◌<◌, ◌≡◌, ◌≤◌, ◌∷◌, All, IfOk, IfSome, Some, [], length, map, option_map, slice_get, take, drop};
ghost use Rattle.w4_defs.specs.Flattening.{IsProper};
ghost use Rattle.w4_defs.specs.Tree.{flat};
ghost use Rattle.wasm_tree.specs.Layout.{IsBody, StandsAt, mark_of, laid_from, size_with, starts_from};
ghost use Rattle.wasm_tree.specs.Shifting.{shifted_mark};

use crate::marks::Marks;
use crate::parts::FlatBody;
use crate::positions::{op_after, op_within};
use std::alloc::Global;
use std::marker::Model;
use w4_defs::{Locals, Op, OutOfMemory};

/// Where a body stands in the one list, how many marks it has, and its runs of locals.
#[derive(Debug, Drop)]
struct BodyPosition {
    start: usize,
    count: usize,
    runs: Vec<Locals>,
}

impl Model for BodyPosition {
    ghost use Rattle.wasm_tree.specs.Layout.{Placed};

    ghost Value = { Placed };

    ghost view = { λ p. record { start = p.start; count = p.count; runs = p.runs.items } };
}

/// The bodies of all own functions, one after the other. Positions count from the first mark of all. A clause
/// sees the list of the functions.
#[derive(Debug, Drop)]
pub struct Bodies {
    marks: Marks,
    positions: Vec<BodyPosition>,
}

impl Model for Bodies {
    ghost use Rattle.std.specs.Prelude.{List};
    ghost use Rattle.w4_defs.specs.Module.{Function};

    ghost Value = { List Function };

    ghost use Rattle.std.specs.Coded.{codes};
    ghost use Rattle.w4_defs.specs.TreeCode.{tree_code};

    ghost coded = { Prim.hlevel (codes, tree_code) };

    ghost use Rattle.wasm_tree.specs.Layout.{AreLaid, functions_of};

    ghost view = { λ b. functions_of b.marks b.positions.items };

    ghost invariant = { λ b. AreLaid b.marks b.positions.items };
}

impl Bodies {
    /// No bodies.
    pub fn new(alloc: Global) -> Result<Bodies, OutOfMemory>
        ensures { IfOk result (λ b. b ≡ []) }
    {
        Ok(Bodies {
            marks: Marks::new(alloc)?,
            positions: Vec::new(alloc),
        })
    }

    /// One more body at the end.
    pub fn with(self, body: FlatBody) -> Result<Bodies, OutOfMemory>
        ensures { IfOk result (λ b. b ≡ self ++ body ∷ []) }
    {
        let Bodies {
            marks,
            mut positions,
        } = self;
        let FlatBody { runs, list } = body;
        let start = marks.len();
        let flat_marks = list.marks();
        let count = flat_marks.len();
        let marks = appended(marks, flat_marks)?;
        positions.push(BodyPosition { start, count, runs })?;
        Ok(Bodies { marks, positions })
    }

    pub fn len(&self) -> usize
        ensures { result ≡ length self.now }
    {
        self.positions.len()
    }

    /// The marks of all bodies.
    pub fn marks(&self) -> &Marks
        ensures flat_marks { result.now ≡ laid_from 0 self.now }
        ensures proper { All (λ f. IsProper f.list) self.now }
    {
        &self.marks
    }

    /// The position of the first mark of a body.
    pub fn body_start(&self, func: usize) -> usize
        requires { func < length self.now }
        ensures start { slice_get (starts_from 0 self.now) func ≡ Some result }
        ensures stands { StandsAt (laid_from 0 self.now) result (slice_get self.now func) }
    {
        self.positions[func].start
    }

    /// How many marks a body has.
    pub fn body_size(&self, func: usize) -> usize
        requires { func < length self.now }
        ensures { option_map (λ f. length (flat f.list)) (slice_get self.now func) ≡ Some result }
    {
        self.positions[func].count
    }

    /// The operations of a body, with positions that count from the first mark of all bodies.
    pub fn operations(&self, func: usize) -> &[Op]
        requires { func < length self.now }
        ensures value { IsBody (slice_get self.now func) result.now }
        ensures proper { IfSome (slice_get self.now func) (λ f. IsProper f.list) }
    {
        part(
            self.marks().ops(),
            self.body_start(func),
            self.body_size(func),
        )
    }

    /// The runs of locals of a body.
    pub fn runs(&self, func: usize) -> &[Locals]
        requires { func < length self.now }
        ensures { option_map (λ f. f.runs) (slice_get self.now func) ≡ Some result.now }
    {
        &self.positions[func].runs
    }

    /// The mark of a body at a position that counts from the body's first.
    pub fn op(&self, func: usize, position: usize) -> Op
        requires { position < size_with (slice_get self.now func) }
        ensures { option_map (λ m. m.0) (mark_of (slice_get self.now func) position) ≡ Some result }
    {
        let start = self.body_start(func);
        let marks = self.marks();
        let at = position_among(marks.ops(), start, position);
        op_within(marks.op(at), start)
    }

    /// The labels of the mark of a body at a position that counts from the body's first.
    pub fn labels(&self, func: usize, position: usize) -> &[u32]
        requires { position < size_with (slice_get self.now func) }
        ensures { option_map (λ m. m.1) (mark_of (slice_get self.now func) position) ≡ Some result.now }
    {
        let start = self.body_start(func);
        let marks = self.marks();
        let at = position_among(marks.ops(), start, position);
        marks.labels(at)
    }
}

/// The marks with those of a body after them.
fn appended(marks: Marks, body: &Marks) -> Result<Marks, OutOfMemory>
    ensures { IfOk result (λ m. m ≡ marks ++ map (shifted_mark (length marks)) body.now) }
{
    let start = marks.len();
    let mut marks = marks;
    for position in 0..body.len() {
        let op = op_after(body.op(position), start)?;
        marks = marks.with(op, body.labels(position))?;
    }
    Ok(marks)
}

/// A position of one body among those of all operations.
fn position_among(operations: &[Op], start: usize, position: usize) -> usize
    requires { start + position < length operations.now }
    ensures { result ≡ start + position }
{
    start + position
}

fn part(operations: &[Op], start: usize, count: usize) -> &[Op]
    requires { start + count ≤ length operations.now }
    ensures { result.now ≡ take count (drop start operations.now) }
{
    &operations[start..start + count]
}
