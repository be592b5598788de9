//! Which types a signature has.

ghost use Rattle.std.specs.Prelude.{◌≡◌, replicate};
ghost use Rattle.w4_defs.specs.Imports.{import_type};
ghost use Rattle.w4_defs.specs.ValueTypes.{same_signature, same_types};
ghost use Rattle.w4_defs.specs.declared.value.ValType.TheVariants.{I32};
ghost use Rattle.wasm_link.specs.Judging.{is_other};

use crate::condition::{Condition, any};
use w4_defs::{FuncType, Import, ValType};

/// How many parameters and results, all of them i32.
#[derive(Clone, Copy)]
pub struct Numbers {
    pub params: usize,
    pub results: usize,
}

#[derive(Drop)]
struct IsOther;

impl Condition<ValType> for IsOther {
    ghost is_met = { λ _ kind. is_other kind };

    fn is_met(&self, kind: &ValType) -> bool {
        match *kind {
            ValType::I32 => false,
            ValType::I64 => true,
            ValType::F32 => true,
            ValType::F64 => true,
        }
    }
}

fn are_i32(kinds: &[ValType], count: usize) -> bool
    ensures { result ≡ same_types kinds.now (replicate count I32) }
{
    kinds.len() == count && !any(&IsOther, kinds)
}

/// Whether the signature has that many parameters and results, all of them i32.
pub fn has_numbers(signature: &FuncType, numbers: Numbers) -> bool
    ensures { result ≡ same_signature signature.now
        (record { params = replicate numbers.params I32; results = replicate numbers.results I32 }) }
{
    are_i32(&signature.params, numbers.params) && are_i32(&signature.results, numbers.results)
}

/// The numbers of an import's parameters and results.
pub fn import_numbers(name: Import) -> Numbers
    ensures { import_type name
        ≡ record { params = replicate result.params I32; results = replicate result.results I32 } }
{
    match name {
        Import::Blit => takes(6),
        Import::BlitSub => takes(9),
        Import::Line => takes(4),
        Import::Hline => takes(3),
        Import::Vline => takes(3),
        Import::Oval => takes(4),
        Import::Rect => takes(4),
        Import::Text => takes(3),
        Import::TextUtf8 => takes(4),
        Import::TextUtf16 => takes(4),
        Import::Tone => takes(4),
        Import::Diskr => answers(2),
        Import::Diskw => answers(2),
        Import::Trace => takes(1),
        Import::TraceUtf8 => takes(2),
        Import::TraceUtf16 => takes(2),
        Import::Tracef => takes(2),
    }
}

/// So many parameters and no result.
pub fn takes(params: usize) -> Numbers
    ensures { result ≡ record { params = params; results = 0 } }
{
    Numbers { params, results: 0 }
}

fn answers(params: usize) -> Numbers
    ensures { result ≡ record { params = params; results = 1 } }
{
    Numbers { params, results: 1 }
}
