//! The first values of the globals.

ghost use Rattle.std.specs.Prelude.{◌≡◌, All, IfOk};
ghost use Rattle.w4_defs.specs.EntryPoints.{first_globals};
ghost use Rattle.w4_defs.specs.Validity.{IsConstant};
ghost use Rattle.wasm_valid.specs.Constants.{constant_value, first_constant};

use std::alloc::Global;
use w4_defs::{Basic, Op, OutOfMemory, Val};
use wasm_tree::Code;

/// The first value of each global.
pub fn first_globals(alloc: Global, code: &Code) -> Result<Vec<Val>, OutOfMemory>
    requires { All (λ g. IsConstant g.global.value g.first) code.now.globals }
    ensures { IfOk result (λ values. values.items ≡ first_globals code.now) }
{
    let mut values = Vec::new(alloc);
    for i in 0..code.global_count() {
        values.push(first_value(code.global_first(i)))?;
    }
    Ok(values)
}

/// The value of a first operation that is a constant.
fn first_value(ops: &[Op]) -> Val
    ensures { result ≡ first_constant ops.now }
{
    match ops.get(0) {
        Some(op) => constant_value(*op),
        None => Val::I32(0),
    }
}

fn constant_value(op: Op) -> Val
    ensures { result ≡ constant_value op }
{
    match op {
        Op::Basic(Basic::I32Const { value }) => Val::I32(value),
        Op::Basic(Basic::I64Const { value }) => Val::I64(value),
        _ => Val::I32(0),
    }
}
