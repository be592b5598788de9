//! Whether a float occurs anywhere in a module.

ghost use Rattle.std.specs.List.{list_any};
ghost use Rattle.std.specs.Prelude.{◌<◌, ◌≡◌, Some, length, option_map, slice_get};
ghost use Rattle.w4_defs.specs.Floats.{function_has_float, has_float, is_float, is_float_operation, is_float_result, is_float_row, module_has_float};
ghost use Rattle.w4_defs.specs.InstructionTable.{row};
ghost use Rattle.w4_defs.specs.Lookup.{global_types};
ghost use Rattle.wasm_link.specs.Judging.{imports_float, is_float_mark};

use crate::condition::{Condition, any};
use w4_defs::{Basic, FuncType, ImportEntry, ImportKind, Locals, Op, Row, ValType};
use wasm_tree::{Code, FlatElement, FlatExpression, FlatGlobal, FlatSegment};

pub fn has_floats(code: &Code) -> bool
    ensures { result ≡ module_has_float code.now }
{
    any(&HasFloat, code.types())
        || has_float_globals(code)
        || any(&HasFloat, code.globals())
        || any(&HasFloat, code.elements())
        || has_float_bodies(code)
        || any(&HasFloat, code.segments())
}

/// An imported or own global of a float type.
fn has_float_globals(code: &Code) -> bool
    ensures { result ≡ list_any (λ g. is_float g.value) (global_types code.now) }
{
    let imported = any(&IsFloat, code.imports());
    let own = any(&IsFloat, code.globals());
    imported || own
}

fn has_float_bodies(code: &Code) -> bool
    ensures { result ≡ list_any function_has_float code.now.bodies }
{
    for func in 0..code.functions().len() {
        if has_float_body(code, func) {
            return true;
        }
    }
    false
}

fn has_float_body(code: &Code, func: usize) -> bool
    requires { func < length code.now.bodies }
    ensures { option_map function_has_float (slice_get code.now.bodies func) ≡ Some result }
{
    let in_runs = any(&IsFloat, code.runs(func));
    let in_list = any(&IsFloat, code.body(func));
    in_runs || in_list
}

/// What is of a float type by itself, or is a float instruction.
#[derive(Drop)]
struct IsFloat;

impl Condition<ValType> for IsFloat {
    ghost use Rattle.w4_defs.specs.Floats.{is_float};

    ghost is_met = { λ _ kind. is_float kind };

    fn is_met(&self, kind: &ValType) -> bool {
        is_float(*kind)
    }
}

impl Condition<Locals> for IsFloat {
    ghost use Rattle.w4_defs.specs.Floats.{is_float};

    ghost is_met = { λ _ run. is_float run.kind };

    fn is_met(&self, run: &Locals) -> bool {
        is_float(run.kind)
    }
}

impl Condition<ImportEntry> for IsFloat {
    ghost use Rattle.wasm_link.specs.Judging.{imports_float};

    ghost is_met = { λ _ i. imports_float i.kind };

    fn is_met(&self, import: &ImportEntry) -> bool {
        imports_float(import.kind)
    }
}

impl Condition<FlatGlobal> for IsFloat {
    ghost use Rattle.w4_defs.specs.Floats.{is_float};

    ghost is_met = { λ _ g. is_float g.global.value };

    fn is_met(&self, global: &FlatGlobal) -> bool {
        is_float(global.global.value)
    }
}

impl Condition<Op> for IsFloat {
    ghost use Rattle.wasm_link.specs.Judging.{is_float_mark};

    ghost is_met = { λ _ op. is_float_mark op };

    fn is_met(&self, op: &Op) -> bool {
        is_float_mark(*op)
    }
}

/// What holds a float type or a float instruction.
#[derive(Drop)]
struct HasFloat;

impl Condition<FuncType> for HasFloat {
    ghost use Rattle.w4_defs.specs.Floats.{signature_has_float};

    ghost is_met = { λ _ s. signature_has_float s };

    fn is_met(&self, signature: &FuncType) -> bool {
        any(&IsFloat, &signature.params) || any(&IsFloat, &signature.results)
    }
}

impl Condition<FlatGlobal> for HasFloat {
    ghost use Rattle.w4_defs.specs.Floats.{has_float};

    ghost is_met = { λ _ g. has_float g.first };

    fn is_met(&self, global: &FlatGlobal) -> bool {
        has_float(&global.first)
    }
}

impl Condition<FlatElement> for HasFloat {
    ghost use Rattle.w4_defs.specs.Floats.{has_float};

    ghost is_met = { λ _ s. has_float s.offset };

    fn is_met(&self, segment: &FlatElement) -> bool {
        has_float(&segment.offset)
    }
}

impl Condition<FlatSegment> for HasFloat {
    ghost use Rattle.w4_defs.specs.Floats.{has_float};

    ghost is_met = { λ _ s. has_float s.offset };

    fn is_met(&self, segment: &FlatSegment) -> bool {
        has_float(&segment.offset)
    }
}

fn has_float(expression: &FlatExpression) -> bool
    ensures { result ≡ has_float expression.now }
{
    any(&IsFloat, expression.ops())
}

fn is_float(kind: ValType) -> bool
    ensures { result ≡ is_float kind }
{
    match kind {
        ValType::I32 => false,
        ValType::I64 => false,
        ValType::F32 => true,
        ValType::F64 => true,
    }
}

fn is_float_result(kind: Option<ValType>) -> bool
    ensures { result ≡ is_float_result kind }
{
    match kind {
        Some(kind) => is_float(kind),
        None => false,
    }
}

fn imports_float(kind: ImportKind) -> bool
    ensures { result ≡ imports_float kind }
{
    match kind {
        ImportKind::Global { global } => is_float(global.value),
        _ => false,
    }
}

fn is_float_basic(basic: Basic) -> bool
    ensures { result ≡ is_float_row (row basic) }
{
    let (_, row) = basic.table_row();
    matches!(row, Row::Float)
}

/// A float instruction, or a block type that is a float's.
fn is_float_mark(op: Op) -> bool
    ensures { result ≡ is_float_mark op }
{
    match op {
        Op::Block { result, .. } => is_float_result(result),
        Op::Loop { result, .. } => is_float_result(result),
        Op::If { result, .. } => is_float_result(result),
        Op::Basic(basic) => is_float_basic(basic),
        _ => false,
    }
}
