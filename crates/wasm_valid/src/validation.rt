//! Whether a module is valid (Core Specification, section 3.4).

ghost use Rattle.std.specs.Prelude.{◌<◌, ◌≡◌, Err, IfOk, None, Option, length, ℕ};
ghost use Rattle.w4_defs.specs.Cart.{IsInvalid};
ghost use Rattle.w4_defs.specs.Profile.{profile_refusal};
ghost use Rattle.w4_defs.specs.Validity.{IsValid};
ghost use Rattle.wasm_valid.specs.Untyped.{IsUntypedFound};

use crate::body::body_has_type;
use crate::cart::Cart;
use crate::module_rules::keeps_module_rules;
use crate::refusal::ValidRefusal;
use crate::scope::function_indices;
use std::alloc::Global;
use w4_defs::OutOfMemory;
use wasm_tree::Code;

/// The cart of a module that the profile lets through.
///
/// There is a cart only where the module is valid. The refusal is Invalid(None) if and only if a module rule
/// fails, and Invalid(Some(f)) if and only if all hold and f is the first own function, counted from 0, whose
/// body has no typing. The code is dropped on a refusal.
pub fn validate(alloc: Global, code: Code) -> Result<Cart, ValidRefusal>
    requires { profile_refusal code ≡ None }
    ensures cart { IfOk result (λ cart. cart ≡ code) }
    ensures valid { IfOk result (λ cart. IsValid cart) }
    ensures invalid { (func : Option ℕ) → result ≡ Err (ValidRefusal.Invalid func) → IsInvalid code func }
{
    if !keeps_module_rules(&code) {
        return Err(ValidRefusal::Invalid(None));
    }
    if let Some(func) = first_untyped(alloc, &code)? {
        return Err(ValidRefusal::Invalid(Some(func)));
    }
    Ok(Cart::new(alloc, code)?)
}

/// The first own function whose body has no typing.
fn first_untyped(alloc: Global, code: &Code) -> Result<Option<usize>, OutOfMemory>
    requires { profile_refusal code.now ≡ None }
    ensures { IfOk result (λ found. IsUntypedFound code.now found) }
{
    let functions = function_indices(alloc, code)?;
    for func in 0..code.functions().len() {
        if !body_has_type(alloc, code, &functions, func)? {
            return Ok(Some(func));
        }
    }
    Ok(None)
}
