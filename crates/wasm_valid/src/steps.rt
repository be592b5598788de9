//! The steps of the pass: what each mark of a body does to the control stack.

ghost use Rattle.std.specs.Prelude.{◌≡◌, ◌∷◌, IfOk, Some, [], option_and_then, slice_get};
ghost use Rattle.w4_defs.specs.Lookup.{signature_of};
ghost use Rattle.w4_defs.specs.OperandTypes.{gives, unary_type};
ghost use Rattle.w4_defs.specs.AbstractStack.{after_branch, anything, selected};
ghost use Rattle.w4_defs.specs.Typing.{branches, calls, consumes, only_type, sets};
ghost use Rattle.wasm_valid.specs.ControlStack.{Becomes, after_stack_type, after_mark, after_operation, at_top, chosen_if, direct_type, shared, with_condition};
ghost use Rattle.wasm_valid.specs.Pass.{label_types};
ghost use Rattle.wasm_valid.specs.StackTypes.{shown};

use crate::control_stack::ControlStack;
use crate::labels::common_label;
use crate::scope::Scope;
use crate::stack_types::{StackType, one, result_types};
use w4_defs::{GlobalType, Op, OutOfMemory, ValType};

/// The result says whether the control stack allows the step; where it doesn't, it is of no further use.
impl<'a> Scope<'a> {
    /// One mark of the body, with its labels.
    pub fn check_mark(
        &self,
        op: Op,
        labels: &[u32],
        control: &mut ControlStack<'a>,
    ) -> Result<bool, OutOfMemory>
        ensures { IfOk result
            (λ went. Becomes went control.new (after_mark self.now op labels.now control.old)) }
    {
        match op {
            Op::Block { result: block, .. } => control.open_block(
                result_types(block),
                result_types(block),
            ),
            Op::Loop { result: block, .. } => control.open_block(&[], result_types(block)),
            Op::If {
                result: block,
                other,
                ..
            } => choose(block, other, control),
            Op::Else => Ok(control.begin_else()),
            Op::End => control.close(),
            _ => self.check_operation(op, labels, control),
        }
    }

    /// An operation: a mark that opens and closes no block.
    fn check_operation(
        &self,
        op: Op,
        labels: &[u32],
        control: &mut ControlStack<'a>,
    ) -> Result<bool, OutOfMemory>
        ensures { IfOk result
            (λ went. Becomes went control.new (after_operation self.now op labels.now control.old)) }
    {
        match op {
            Op::Unreachable => Ok(never_reached(control)),
            Op::Br { label } => Ok(branch(label, control)),
            Op::BrIf { label } => branch_if(label, control),
            Op::BrTable => Ok(branch_table(labels, control)),
            Op::Return => Ok(control.branch(self.results())),
            Op::CallIndirect { signature, table } => self.call_indirect(signature, table, control),
            Op::Drop => Ok(control.drop_top()),
            Op::Select => check_select(control),
            _ => self.pass(op, control),
        }
    }

    fn pass(&self, op: Op, control: &mut ControlStack<'a>) -> Result<bool, OutOfMemory>
        ensures { IfOk result (λ went.
            Becomes went control.new (after_stack_type (direct_type self.now op) control.old)) }
    {
        match self.stack_type(op) {
            Some(stack_type) => control.pass(stack_type.takes, stack_type.gives),
            None => Ok(false),
        }
    }

    /// The types of an operation that looks at no label and no table.
    fn stack_type(&self, op: Op) -> Option<StackType<'a>>
        ensures { shown result ≡ direct_type self.now op }
    {
        match op {
            Op::Nop => Some(StackType {
                takes: &[],
                gives: &[],
            }),
            Op::Call { func } => self.call(func),
            Op::LocalGet { index } => gives_type(self.local(index)),
            Op::LocalSet { index } => takes_type(self.local(index)),
            Op::LocalTee { index } => unary_type_of(self.local(index)),
            Op::GlobalGet { index } => global_get_type(self.global(index)),
            Op::GlobalSet { index } => global_set_type(self.global(index)),
            Op::Basic(basic) => self.table_stack_type(basic),
            _ => None,
        }
    }

    fn call(&self, func: u32) -> Option<StackType<'a>>
        ensures { shown result ≡ option_and_then calls (signature_of self.now.within func) }
    {
        match self.function(func) {
            Some(signature) => Some(StackType {
                takes: &signature.params,
                gives: &signature.results,
            }),
            None => None,
        }
    }

    /// Takes the index into the table, and then as a call.
    fn call_indirect(
        &self,
        index: u32,
        table: u32,
        control: &mut ControlStack<'a>,
    ) -> Result<bool, OutOfMemory>
        ensures { IfOk result (λ went.
            Becomes went control.new
            (after_stack_type (only_type self.now (Op.CallIndirect index table)) control.old)) }
    {
        if !self.has_table(table) {
            return Ok(false);
        }
        let Some(signature) = self.signature(index) else {
            return Ok(false);
        };
        if !control.take_all(one(ValType::I32)) {
            return Ok(false);
        }
        control.pass(&signature.params, &signature.results)
    }
}

fn gives_type(block: Option<ValType>) -> Option<StackType<'static>>
    ensures { shown result ≡ option_and_then gives block }
{
    match block {
        Some(block) => Some(StackType {
            takes: &[],
            gives: one(block),
        }),
        None => None,
    }
}

fn takes_type(block: Option<ValType>) -> Option<StackType<'static>>
    ensures { shown result ≡ option_and_then consumes block }
{
    match block {
        Some(block) => Some(StackType {
            takes: one(block),
            gives: &[],
        }),
        None => None,
    }
}

fn unary_type_of(block: Option<ValType>) -> Option<StackType<'static>>
    ensures { shown result ≡ option_and_then unary_type block }
{
    match block {
        Some(block) => Some(StackType {
            takes: one(block),
            gives: one(block),
        }),
        None => None,
    }
}

fn global_get_type(global: Option<GlobalType>) -> Option<StackType<'static>>
    ensures { shown result ≡ option_and_then (λ g. gives g.value) global }
{
    match global {
        Some(global) => gives_type(Some(global.value)),
        None => None,
    }
}

fn global_set_type(global: Option<GlobalType>) -> Option<StackType<'static>>
    ensures { shown result ≡ option_and_then sets global }
{
    match global {
        Some(global) => {
            if global.mutable {
                takes_type(Some(global.value))
            } else {
                None
            }
        }
        None => None,
    }
}

/// An `if` without an `else` has no result.
fn choose<'a>(
    block: Option<ValType>,
    other: Option<usize>,
    control: &mut ControlStack<'a>,
) -> Result<bool, OutOfMemory>
    ensures { IfOk result (λ went. Becomes went control.new (chosen_if block other control.old)) }
{
    if block.is_some() && other.is_none() {
        return Ok(false);
    }
    control.choose(result_types(block))
}

/// What follows is never reached.
fn never_reached(control: &mut ControlStack) -> bool
    ensures { Becomes result control.new (at_top (λ s. Some anything) control.old) }
{
    control.clear_operands(true);
    control.is_open()
}

fn branch(label: u32, control: &mut ControlStack) -> bool
    ensures { Becomes result control.new
        (at_top (λ s. after_branch s (slice_get (label_types control.old) label)) control.old) }
{
    match control.label(label) {
        Some(types) => control.branch(types),
        None => false,
    }
}

/// Takes the condition; the label's types are taken and given again.
fn branch_if(label: u32, control: &mut ControlStack) -> Result<bool, OutOfMemory>
    ensures { IfOk result (λ went. Becomes went control.new
        (after_stack_type (option_and_then branches (slice_get (label_types control.old) label))
        control.old)) }
{
    let Some(types) = control.label(label) else {
        return Ok(false);
    };
    if !control.take_all(one(ValType::I32)) {
        return Ok(false);
    }
    control.pass(types, types)
}

fn branch_table(labels: &[u32], control: &mut ControlStack) -> bool
    ensures { Becomes result control.new
        (with_condition (λ s. after_branch s (shared control.old labels.now)) control.old) }
{
    let Some(types) = common_label(labels, control) else {
        return false;
    };
    if !control.take_all(one(ValType::I32)) {
        return false;
    }
    control.branch(types)
}

fn check_select(control: &mut ControlStack) -> Result<bool, OutOfMemory>
    ensures { IfOk result (λ went. Becomes went control.new (with_condition selected control.old)) }
{
    if !control.take_all(one(ValType::I32)) {
        return Ok(false);
    }
    control.take_common()
}
