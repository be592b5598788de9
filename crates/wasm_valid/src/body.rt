//! Whether an own function's body has its type, by one pass over its marks.

ghost use Rattle.std.specs.Prelude.{◌<◌, ◌≡◌, ◌↔◌, IfOk, IfSome, IsTrue, None, Some, [], length, option_map, slice_get};
ghost use Rattle.w4_defs.specs.Flattening.{IsProper};
ghost use Rattle.w4_defs.specs.Lookup.{function_indices};
ghost use Rattle.w4_defs.specs.Profile.{profile_refusal};
ghost use Rattle.w4_defs.specs.Validity.{IsTypedAt};
ghost use Rattle.wasm_valid.specs.AbstractStackLaw.{body_stands};
ghost use Rattle.wasm_valid.specs.BodyMarks.{body_marks};
ghost use Rattle.wasm_valid.specs.Pass.{blocks_after};

use crate::control_stack::ControlStack;
use crate::scope::{Scope, type_at};
use std::alloc::Global;
use w4_defs::{FuncType, OutOfMemory};
use wasm_tree::Code;

/// Whether own function `func`, counted from 0, has the type that its type index names (Core Specification,
/// section 3.4.1). `functions` has the type index of each function, imports first. Each mark and each label
/// is looked at once.
pub fn body_has_type(
    alloc: Global,
    code: &Code,
    functions: &[u32],
    func: usize,
) -> Result<bool, OutOfMemory>
    requires profile { profile_refusal code.now ≡ None }
    requires functions { functions.now ≡ function_indices code.now }
    requires body { func < length code.now.bodies }
    ensures { IfOk result (λ r. IsTrue r ↔ IsTypedAt code.now func) }
{
    match type_at(code, code.functions()[func]) {
        Some(signature) => has_type(alloc, code, functions, func, signature),
        None => Ok(false),
    }
}

fn has_type(
    alloc: Global,
    code: &Code,
    functions: &[u32],
    func: usize,
    signature: &FuncType,
) -> Result<bool, OutOfMemory>
    requires profile { profile_refusal code.now ≡ None }
    requires functions { functions.now ≡ function_indices code.now }
    requires body { func < length code.now.bodies }
    ensures { IfOk result (λ r.
        option_map (body_stands code.now signature.now) (slice_get code.now.bodies func) ≡ Some r) }
{
    let scope = Scope::new(alloc, code, functions, signature, code.runs(func))?;
    let control = ControlStack::new(alloc, &signature.results);
    goes_through(&scope, code, func, control)
}

/// Whether the pass comes to the end of the body, and no list is open then.
fn goes_through<'a>(
    scope: &Scope<'a>,
    code: &Code,
    func: usize,
    control: ControlStack<'a>,
) -> Result<bool, OutOfMemory>
    requires { func < length code.now.bodies }
    ensures value { IfOk result (λ r.
        IsTrue r ↔ (blocks_after scope.now (body_marks code.now func) control.entry ≡ Some [])) }
    ensures proper { IfSome (slice_get code.now.bodies func) (λ f. IsProper f.list) }
{
    let operations = code.body(func);
    let mut control = control;
    for position in 0..operations.len() {
        if !scope.check_mark(
            operations[position],
            code.labels(func, position),
            &mut control,
        )? {
            return Ok(false);
        }
    }
    Ok(!control.is_open())
}
