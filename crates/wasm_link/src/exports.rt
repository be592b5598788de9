//! Whether the exports that the console calls are there, and are functions without parameters and results.

ghost use Rattle.std.specs.Prelude.{◌≡◌, option_map, slice_get};
ghost use Rattle.w4_defs.specs.Lookup.{function_indices, signature_of};
ghost use Rattle.w4_defs.specs.Profile.{is_entry_function, is_entry_name, is_update, is_wrong_entry, takes_nothing};

use crate::condition::Condition;
use crate::imports::type_at;
use crate::signature::{has_numbers, takes};
use w4_defs::{Export, ExportKind, FuncType, ImportKind};
use wasm_tree::Code;

/// An export named `update`.
#[derive(Drop)]
pub struct IsUpdate;

impl Condition<Export> for IsUpdate {
    ghost use Rattle.w4_defs.specs.Profile.{is_update};

    ghost is_met = { λ _ e. is_update e };

    fn is_met(&self, export: &Export) -> bool {
        &export.name[..] == b"update".as_slice()
    }
}

/// An export that has the name of a function that the console calls, and is none that it can call.
#[derive(Drop)]
pub struct IsWrongEntry<'a> {
    pub code: &'a Code,
}

impl<'a> Condition<Export> for IsWrongEntry<'a> {
    ghost use Rattle.w4_defs.specs.Profile.{is_wrong_entry};

    ghost is_met = { λ s e. is_wrong_entry s.code.now e };

    fn is_met(&self, export: &Export) -> bool {
        is_entry_name(&export.name) && !is_entry_function(self.code, export.kind, export.index)
    }
}

fn is_entry_name(name: &[u8]) -> bool
    ensures { result ≡ is_entry_name name.now }
{
    name == b"update".as_slice()
        || name == b"_start".as_slice()
        || name == b"_initialize".as_slice()
        || name == b"start".as_slice()
}

fn is_entry_function(code: &Code, kind: ExportKind, index: u32) -> bool
    ensures { result ≡ is_entry_function code.now kind index }
{
    match kind {
        ExportKind::Func => takes_nothing(signature_of(code, index)),
        _ => false,
    }
}

fn takes_nothing(signature: Option<&FuncType>) -> bool
    ensures { result ≡ takes_nothing (option_map (λ s. s.now) signature.entry) }
{
    match signature {
        Some(signature) => has_numbers(signature, takes(0)),
        None => false,
    }
}

/// The type of a function, which counts imports first; None where there is no such function, or its type
/// index names no type. It takes no memory.
pub fn signature_of(code: &Code, func: u32) -> Option<&FuncType>
    ensures { option_map (λ s. s.now) result ≡ signature_of code.now func }
{
    match type_index(code, func) {
        Some(index) => type_at(code, index),
        None => None,
    }
}

fn type_index(code: &Code, func: u32) -> Option<u32>
    ensures { result ≡ slice_get (function_indices code.now) func }
{
    let imports = code.imports();
    let mut left = func as usize;
    for i in 0..imports.len() {
        let import = &imports[i];
        if let ImportKind::Func { index } = import.kind {
            if left == 0 {
                return Some(index);
            }
            left -= 1;
        }
    }
    function_at(code.functions(), left)
}

fn function_at(items: &[u32], i: usize) -> Option<u32>
    ensures { result ≡ slice_get items.now i }
{
    if i < items.len() {
        Some(items[i])
    } else {
        None
    }
}
