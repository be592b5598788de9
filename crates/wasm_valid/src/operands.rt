//! What instructions do to the operands of the innermost block: types are taken from the top and given.

ghost use Rattle.std.specs.Prelude.{◌≡◌, ◌∷◌, IfOk, Some, []};
ghost use Rattle.w4_defs.specs.AbstractStack.{after_branch, agrees, common_type, dropped, given, passed, selected, taken};
ghost use Rattle.w4_defs.specs.ValueTypes.{same_type};
ghost use Rattle.wasm_valid.specs.ControlStack.{Becomes, at_top, on_top};

use crate::control_stack::ControlStack;
use w4_defs::{OutOfMemory, ValType};

/// The result says whether the operands were there; where they weren't, the control stack is of no further
/// use.
impl<'a> ControlStack<'a> {
    fn take(&mut self, operand: ValType) -> bool
        ensures { Becomes result self.new (at_top (taken (operand ∷ [])) self.old) }
    {
        match self.pop() {
            Some(found) => agrees(found, operand),
            None => false,
        }
    }

    /// Takes these types, the last of which is topmost.
    pub fn take_all(&mut self, operands: &[ValType]) -> bool
        ensures { Becomes result self.new (at_top (taken operands.now) self.old) }
    {
        for i in 0..operands.len() {
            if !self.take(operands[operands.len() - 1 - i]) {
                return false;
            }
        }
        self.is_open()
    }

    /// Gives these types, the last of which comes topmost.
    pub fn give_all(&mut self, operands: &[ValType]) -> Result<(), OutOfMemory>
        ensures { IfOk result (λ _. self.new ≡ on_top (given operands.now) self.old) }
    {
        for i in 0..operands.len() {
            self.push(Some(operands[i]))?;
        }
        Ok(())
    }

    /// Takes the types of an instruction's operands, and gives those of its results.
    pub fn pass(&mut self, takes: &[ValType], gives: &[ValType]) -> Result<bool, OutOfMemory>
        ensures { IfOk result (λ went.
            Becomes went self.new (at_top (λ s. passed s (takes.now, gives.now)) self.old)) }
    {
        if !self.take_all(takes) {
            return Ok(false);
        }
        self.give_all(gives)?;
        Ok(true)
    }

    /// Takes the types of a label; what follows is never reached.
    pub fn branch(&mut self, label: &[ValType]) -> bool
        ensures { Becomes result self.new (at_top (λ s. after_branch s (Some label.now)) self.old) }
    {
        if !self.take_all(label) {
            return false;
        }
        self.clear_operands(true);
        true
    }

    /// Takes one operand, whichever it is.
    pub fn drop_top(&mut self) -> bool
        ensures { Becomes result self.new (at_top dropped self.old) }
    {
        self.pop().is_some()
    }

    /// Takes two operands that one type agrees with, and gives what they have in common.
    pub fn take_common(&mut self) -> Result<bool, OutOfMemory>
        ensures { IfOk result (λ went. Becomes went self.new (at_top selected self.old)) }
    {
        let Some(upper) = self.pop() else {
            return Ok(false);
        };
        let Some(lower) = self.pop() else {
            return Ok(false);
        };
        match common_operand(upper, lower) {
            Some(operand) => {
                self.push(operand)?;
                Ok(true)
            }
            None => Ok(false),
        }
    }
}

fn agrees(found: Option<ValType>, operand: ValType) -> bool
    ensures { result ≡ agrees found operand }
{
    match found {
        Some(found) => same_type(found, operand),
        None => true,
    }
}

fn common_operand(upper: Option<ValType>, lower: Option<ValType>) -> Option<Option<ValType>>
    ensures { result ≡ common_type upper lower }
{
    match (upper, lower) {
        (None, _) => Some(lower),
        (Some(_), None) => Some(upper),
        (Some(first), Some(second)) => {
            if same_type(first, second) {
                Some(upper)
            } else {
                None
            }
        }
    }
}

pub fn same_type(first: ValType, second: ValType) -> bool
    ensures { result ≡ same_type first second }
{
    match first {
        ValType::I32 => matches!(second, ValType::I32),
        ValType::I64 => matches!(second, ValType::I64),
        ValType::F32 => matches!(second, ValType::F32),
        ValType::F64 => matches!(second, ValType::F64),
    }
}
