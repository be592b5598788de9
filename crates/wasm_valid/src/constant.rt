//! Expressions that are a single constant (Core Specification, section 3.3.7).

ghost use Rattle.std.specs.Bool.{Decides};
ghost use Rattle.std.specs.Prelude.{◌≡◌, None, Option, Some};
ghost use Rattle.w4_defs.specs.Validity.{IsConstant, constant_type};
ghost use Rattle.wasm_valid.specs.Constants.{first_number32, number32, only_constant};

use w4_defs::{Basic, Op, ValType};
use wasm_tree::FlatExpression;

/// Whether the expression is a single constant of this type.
pub fn is_constant(kind: ValType, expression: &FlatExpression) -> bool
    ensures { Decides result (IsConstant kind expression.now) }
{
    is_of(only_constant(expression.ops()), kind)
}

/// The type of the constant before the end, where there is nothing else.
fn only_constant(ops: &[Op]) -> Option<ValType>
    ensures { result ≡ only_constant ops.now }
{
    if ops.len() == 2 {
        constant_type(ops[0])
    } else {
        None
    }
}

fn constant_type(op: Op) -> Option<ValType>
    ensures { result ≡ constant_type op }
{
    match op {
        Op::Basic(Basic::I32Const { .. }) => Some(ValType::I32),
        Op::Basic(Basic::I64Const { .. }) => Some(ValType::I64),
        _ => None,
    }
}

fn is_of(found: Option<ValType>, kind: ValType) -> bool
    ensures { Decides result (found ≡ Some kind) }
{
    match found {
        Some(found) => found == kind,
        None => false,
    }
}

/// The number of a first operation that is an `i32.const`; 0 of any other.
pub fn first_number32(ops: &[Op]) -> u32
    ensures { result ≡ first_number32 ops.now }
{
    match ops.get(0) {
        Some(op) => number32(*op),
        None => 0,
    }
}

fn number32(op: Op) -> u32
    ensures { result ≡ number32 op }
{
    match op {
        Op::Basic(Basic::I32Const { value }) => value,
        _ => 0,
    }
}
