//! The control stack of the pass over a body (Core Specification, the appendix on validation): a control
//! frame for each open block, over one stack of operand types.

ghost use Rattle.std.specs.Prelude.{◌+◌, ◌≡◌, ◌∷◌, IfOk, None, Some, [], cond, drop, option_map, slice_get};
ghost use Rattle.wasm_valid.specs.ControlStack.{has_no_operands, is_open, on_top, popped, with_block, with_operand, without_operands};
ghost use Rattle.wasm_valid.specs.Pass.{label_types, opened};

use std::alloc::Global;
use std::marker::Model;
use w4_defs::{OutOfMemory, ValType};

/// An open block: the types of its label and of its results, the height of the operands below its own, and
/// whether the code is unreachable, so that any operands may lie below its own.
#[derive(Clone, Copy)]
struct ControlFrame<'a> {
    label: &'a [ValType],
    results: &'a [ValType],
    height: usize,
    unreachable: bool,
}

/// The open blocks; None is an unknown operand type. A clause sees the blocks from the innermost on, each
/// with its abstract stack.
#[derive(Drop)]
pub struct ControlStack<'a> {
    operands: Vec<Option<ValType>>,
    inner: Option<ControlFrame<'a>>,
    outer: Vec<ControlFrame<'a>>,
}

impl<'a> Model for ControlStack<'a> {
    ghost use Rattle.std.specs.Prelude.{List, length, reverse};
    ghost use Rattle.wasm_valid.specs.Pass.{OpenBlock};
    ghost use Rattle.wasm_valid.specs.ControlStack.{AreNested, all_frames, blocks_of_frames};

    ghost Value = { List OpenBlock };

    ghost view = { λ f. blocks_of_frames (all_frames f.inner f.outer.items) (reverse f.operands.items) };

    ghost invariant = { λ f. AreNested (all_frames f.inner f.outer.items) (length f.operands.items) };
}

impl<'a> ControlStack<'a> {
    /// One open list, a function's, whose label and results have these types.
    pub fn new(alloc: Global, results: &'a [ValType]) -> ControlStack<'a>
        ensures { result ≡ opened results.now results.now ∷ [] }
    {
        ControlStack {
            operands: Vec::new(alloc),
            inner: Some(ControlFrame {
                label: results,
                results,
                height: 0,
                unreachable: false,
            }),
            outer: Vec::new(alloc),
        }
    }

    /// Whether a list is open.
    pub fn is_open(&self) -> bool
        ensures { result ≡ is_open self.now }
    {
        self.inner.is_some()
    }

    /// Takes the topmost operand of the innermost list; None where it has none.
    pub fn pop(&mut self) -> Option<Option<ValType>>
        ensures { popped self.old ≡ option_map (λ k. (k, self.new)) result }
    {
        match self.inner {
            Some(frame) => {
                if frame.height < self.operands.len() {
                    self.operands.pop()
                } else {
                    unknown(frame.unreachable)
                }
            }
            None => None,
        }
    }

    pub fn push(&mut self, operand: Option<ValType>) -> Result<(), OutOfMemory>
        ensures { IfOk result (λ _. self.new ≡ on_top (with_operand operand) self.old) }
    {
        self.operands.push(operand)?;
        Ok(())
    }

    /// Drops the operands of the innermost block, which is unreachable from here on, or isn't.
    pub fn clear_operands(&mut self, unreachable: bool)
        ensures { self.new ≡ on_top (without_operands unreachable) self.old }
    {
        if let Some(frame) = self.inner {
            self.operands.truncate(frame.height);
            self.inner = Some(ControlFrame {
                unreachable,
                ..frame
            });
        }
    }

    /// Opens a list inside the innermost.
    pub fn enter(&mut self, label: &'a [ValType], results: &'a [ValType]) -> Result<(), OutOfMemory>
        ensures { IfOk result (λ _. self.new ≡ with_block label.now results.now self.old) }
    {
        if let Some(frame) = self.inner {
            self.outer.push(frame)?;
            let height = self.operands.len();
            self.inner = Some(ControlFrame {
                label,
                results,
                height,
                unreachable: false,
            });
        }
        Ok(())
    }

    /// Leaves the innermost list, with all its operands.
    pub fn leave(&mut self)
        ensures { self.new ≡ drop 1 self.old }
    {
        if let Some(frame) = self.inner {
            self.operands.truncate(frame.height);
            self.inner = self.outer.pop();
        }
    }

    /// Whether the innermost list has no operands left.
    pub fn has_no_operands(&self) -> bool
        ensures { result ≡ has_no_operands self.now }
    {
        match self.inner {
            Some(frame) => self.operands.len() <= frame.height,
            None => false,
        }
    }

    /// The types of the innermost list's results.
    pub fn results(&self) -> Option<&'a [ValType]>
        ensures { option_map (λ ts. ts.now) result ≡ option_map (λ o. o.result) (slice_get self.now 0) }
    {
        match self.inner {
            Some(frame) => Some(frame.results),
            None => None,
        }
    }

    /// The types of the innermost list's label.
    fn inner_label(&self) -> Option<&'a [ValType]>
        ensures { option_map (λ ts. ts.now) result ≡ slice_get (label_types self.now) 0 }
    {
        match self.inner {
            Some(frame) => Some(frame.label),
            None => None,
        }
    }

    /// The types of the label of a list that is open around the innermost, counted from the next on.
    fn outer_label(&self, depth: usize) -> Option<&'a [ValType]>
        ensures { option_map (λ ts. ts.now) result ≡ slice_get (label_types self.now) (depth + 1) }
    {
        match self.inner {
            Some(_) => {
                if depth < self.outer.len() {
                    Some(self.outer[self.outer.len() - 1 - depth].label)
                } else {
                    None
                }
            }
            None => None,
        }
    }

    /// The types of a label, counted from the innermost.
    pub fn label(&self, label: u32) -> Option<&'a [ValType]>
        ensures { option_map (λ ts. ts.now) result ≡ slice_get (label_types self.now) label }
    {
        if label == 0 {
            self.inner_label()
        } else {
            self.outer_label(label as usize - 1)
        }
    }
}

/// Below the operands of an unreachable block lie unknown ones.
fn unknown(unreachable: bool) -> Option<Option<ValType>>
    ensures { result ≡ cond unreachable (Some None) None }
{
    if unreachable { Some(None) } else { None }
}
