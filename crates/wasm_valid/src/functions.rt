//! Rules of functions, globals and the start function (Core Specification, section 3.4).

ghost use Rattle.std.specs.Bool.{Decides};
ghost use Rattle.std.specs.Prelude.{◌<◌, ◌≡◌, All, Some, length, option_map};
ghost use Rattle.w4_defs.specs.Lookup.{function_indices};
ghost use Rattle.w4_defs.specs.Module.{nothing_to_nothing};
ghost use Rattle.w4_defs.specs.Validity.{IsConstant, IsStart};

use crate::constant::is_constant;
use crate::rule::{Rule, all};
use w4_defs::{FuncType, ImportEntry, ImportKind};
use wasm_link::signature_of;
use wasm_tree::{Code, FlatGlobal};

/// Whether the type index of each function, imported or own, names a type.
pub fn have_types(code: &Code) -> bool
    ensures { Decides result (All (λ index. index < length code.now.types) (function_indices code.now)) }
{
    let types = IsBelow {
        count: code.types().len(),
    };
    all(&types, code.imports()) && all(&types, code.functions())
}

/// Whether the first value of each global is a single constant of its type.
pub fn have_first_values(code: &Code) -> bool
    ensures { Decides result (All (λ g. IsConstant g.global.value g.first) code.now.globals) }
{
    all(&HasFirstValue, code.globals())
}

/// Whether the start function, where there is one, takes and returns nothing.
pub fn has_right_start(code: &Code) -> bool
    ensures { Decides result (IsStart code.now code.now.start) }
{
    match code.start() {
        Some(func) => is_nothing(signature_of(code, func)),
        None => true,
    }
}

fn is_nothing(signature: Option<&FuncType>) -> bool
    ensures { Decides result (option_map (λ s. s.now) signature.entry ≡ Some nothing_to_nothing) }
{
    match signature {
        Some(signature) => signature.params.is_empty() && signature.results.is_empty(),
        None => false,
    }
}

/// An index below a count.
#[derive(Drop)]
pub struct IsBelow {
    pub count: usize,
}

impl Rule<u32> for IsBelow {
    ghost use Rattle.std.specs.Prelude.{◌<◌};

    ghost keeps_rule = { λ r index. index < r.count };

    fn keeps_rule(&self, index: &u32) -> bool {
        (*index as usize) < self.count
    }
}

impl Rule<ImportEntry> for IsBelow {
    ghost use Rattle.std.specs.Prelude.{◌<◌, IfSome};
    ghost use Rattle.w4_defs.specs.Lookup.{imported_function};

    ghost keeps_rule = { λ r i. IfSome (imported_function i.kind) (λ index. index < r.count) };

    fn keeps_rule(&self, import: &ImportEntry) -> bool {
        match import.kind {
            ImportKind::Func { index } => (index as usize) < self.count,
            _ => true,
        }
    }
}

#[derive(Drop)]
struct HasFirstValue;

impl Rule<FlatGlobal> for HasFirstValue {
    ghost use Rattle.w4_defs.specs.Validity.{IsConstant};

    ghost keeps_rule = { λ _ g. IsConstant g.global.value g.first };

    fn keeps_rule(&self, global: &FlatGlobal) -> bool {
        is_constant(global.global.value, &global.first)
    }
}
