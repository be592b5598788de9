//! Whether an own function has more than 1,024 parameters and locals together.

ghost use Rattle.std.specs.List.{list_any};
ghost use Rattle.std.specs.Prelude.{◌+◌, ◌<◌, ◌≡◌, Some, length, nat_lt, option_map, slice_get, zip};
ghost use Rattle.w4_defs.specs.Lookup.{local_count};
ghost use Rattle.w4_defs.specs.Profile.{has_many_locals, param_count};

use crate::imports::type_at;
use w4_defs::Locals;
use wasm_tree::Code;

pub fn has_many_locals(code: &Code) -> bool
    ensures { result ≡ list_any (has_many_locals code.now) (zip code.now.functions code.now.bodies) }
{
    for func in 0..code.functions().len() {
        if is_large(code, func) {
            return true;
        }
    }
    false
}

fn is_large(code: &Code, func: usize) -> bool
    requires { func < length code.now.bodies }
    ensures { option_map (has_many_locals code.now) (slice_get (zip code.now.functions code.now.bodies) func)
        ≡ Some result }
{
    let functions = code.functions();
    exceeds(param_count(code, functions[func]), code.runs(func))
}

/// The number of parameters; 0 where the index names no type.
fn param_count(code: &Code, index: u32) -> usize
    ensures { result ≡ param_count (slice_get code.now.types index) }
{
    match type_at(code, index) {
        Some(signature) => signature.params.len(),
        None => 0,
    }
}

fn exceeds(params: usize, runs: &[Locals]) -> bool
    ensures { result ≡ nat_lt 1024 (params + local_count runs.now) }
{
    if 1024 < params {
        return true;
    }
    let mut left = 1024 - params;
    for i in 0..runs.len() {
        let count = runs[i].count as usize;
        if left < count {
            return true;
        }
        left -= count;
    }
    false
}
