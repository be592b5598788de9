//! Function types: whether two are equal, and their numbers.

ghost use Rattle.std.specs.Prelude.{◌<◌, ◌≡◌, ◌≤◌, ◌^◌, IfOk, length, map};
ghost use Rattle.w4_defs.specs.ValueTypes.{same_signature, same_types};
ghost use Rattle.wasm_valid.specs.Calls.{number_of_type};

use crate::operands::same_type;
use std::alloc::Global;
use w4_defs::{FuncType, OutOfMemory, ValType};

/// The number of each type: the index of the first equal one.
pub fn type_numbers(alloc: Global, types: &[FuncType]) -> Result<Vec<u32>, OutOfMemory>
    requires { length types.now < 2 ^ 32 }
    ensures { IfOk result (λ numbers. numbers.items ≡ map (number_of_type types.now) types.now) }
{
    let mut numbers = Vec::new(alloc);
    for i in 0..types.len() {
        numbers.push(number_of_type(types, &types[i]))?;
    }
    Ok(numbers)
}

/// The index of the first equal type; the number of all types where none is equal.
pub fn number_of_type(types: &[FuncType], signature: &FuncType) -> u32
    requires { length types.now < 2 ^ 32 }
    ensures { result ≡ number_of_type types.now signature.now }
{
    for i in 0..types.len() {
        if same_signature(&types[i], signature) {
            return i as u32;
        }
    }
    types.len() as u32
}

fn same_signature(first: &FuncType, second: &FuncType) -> bool
    ensures { result ≡ same_signature first.now second.now }
{
    same_types(&first.params, &second.params) && same_types(&first.results, &second.results)
}

/// Whether two lists of types are equal.
pub fn same_types(first: &[ValType], second: &[ValType]) -> bool
    ensures { result ≡ same_types first.now second.now }
{
    if first.len() != second.len() {
        return false;
    }
    for i in 0..first.len() {
        if !same_type(first[i], second[i]) {
            return false;
        }
    }
    true
}
