//! Steps of the pass that open a block, go on to its `else`, and close it.

ghost use Rattle.std.specs.Prelude.{◌≡◌, IfOk, true};
ghost use Rattle.wasm_valid.specs.ControlStack.{Becomes, chosen_on, closed_on, else_begun, finishes, on_top, with_block_begun, without_operands};

use crate::control_stack::ControlStack;
use crate::stack_types::one;
use w4_defs::{OutOfMemory, ValType};

/// The result says whether the control stack allows the step; where it doesn't, it is of no further use.
impl<'a> ControlStack<'a> {
    /// A block or loop: its list is opened.
    pub fn open_block(
        &mut self,
        label: &'a [ValType],
        results: &'a [ValType],
    ) -> Result<bool, OutOfMemory>
        ensures { IfOk result
            (λ went. Becomes went self.new (with_block_begun label.now results.now self.old)) }
    {
        if !self.is_open() {
            return Ok(false);
        }
        self.enter(label, results)?;
        Ok(true)
    }

    /// An `if`: its condition is taken, and its first list is opened.
    pub fn choose(&mut self, results: &'a [ValType]) -> Result<bool, OutOfMemory>
        ensures { IfOk result (λ went. Becomes went self.new (chosen_on results.now self.old)) }
    {
        if !self.take_all(one(ValType::I32)) {
            return Ok(false);
        }
        self.enter(results, results)?;
        Ok(true)
    }

    /// Whether the innermost list has just what its results are; all its operands are taken then.
    fn finish(&mut self) -> bool
        ensures value { result ≡ finishes self.old }
        ensures taken { result ≡ true → self.new ≡ on_top (λ s. without_operands s.unreachable s) self.old }
    {
        match self.results() {
            Some(results) => self.take_all(results) && self.has_no_operands(),
            None => false,
        }
    }

    /// An `else`: the first list of an `if` is closed, and the second is opened.
    pub fn begin_else(&mut self) -> bool
        ensures { Becomes result self.new (else_begun self.old) }
    {
        if !self.finish() {
            return false;
        }
        self.clear_operands(false);
        true
    }

    /// An `end`: the innermost list is closed, and its results go to the next.
    pub fn close(&mut self) -> Result<bool, OutOfMemory>
        ensures { IfOk result (λ went. Becomes went self.new (closed_on self.old)) }
    {
        let Some(results) = self.results() else {
            return Ok(false);
        };
        if !self.finish() {
            return Ok(false);
        }
        self.leave();
        self.give_all(results)?;
        Ok(true)
    }
}
