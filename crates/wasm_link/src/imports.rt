//! Whether the imports are the console's, by name and by type.

ghost use Rattle.std.specs.Prelude.{◌≡◌, option_map, slice_get};
ghost use Rattle.w4_defs.specs.Profile.{first_wrong_import, has_type_of, is_known, is_known_entry, is_memory, is_one_or_more, is_right, is_right_function, is_right_memory, unknown_import, wrong_import};

use crate::condition::{Condition, first};
use crate::names::import_named;
use crate::signature::{has_numbers, import_numbers};
use w4_defs::{FuncType, Import, ImportEntry, ImportKind, ProfileRefusal};
use wasm_tree::Code;

/// The first import that isn't right, where it isn't one of the console's by its names.
pub fn unknown_import(code: &Code) -> Option<ProfileRefusal>
    ensures { result ≡ unknown_import code.now }
{
    match first_wrong(code) {
        Some(i) => {
            if is_known_at(code, i) {
                None
            } else {
                Some(ProfileRefusal::UnknownImport(i))
            }
        }
        None => None,
    }
}

/// The first import that isn't right, where its names are known.
pub fn wrong_import(code: &Code) -> Option<ProfileRefusal>
    ensures { result ≡ wrong_import code.now }
{
    match first_wrong(code) {
        Some(i) => {
            if is_known_at(code, i) {
                Some(ProfileRefusal::WrongImport(i))
            } else {
                None
            }
        }
        None => None,
    }
}

fn first_wrong(code: &Code) -> Option<usize>
    ensures { result ≡ first_wrong_import code.now }
{
    first(&IsWrong { code }, code.imports())
}

#[derive(Drop)]
struct IsWrong<'a> {
    code: &'a Code,
}

impl<'a> Condition<ImportEntry> for IsWrong<'a> {
    ghost use Rattle.std.specs.Prelude.{not};
    ghost use Rattle.w4_defs.specs.Profile.{is_right};

    ghost is_met = { λ s i. not (is_right s.code.now i) };

    fn is_met(&self, import: &ImportEntry) -> bool {
        !is_right(self.code, import)
    }
}

fn is_right(code: &Code, import: &ImportEntry) -> bool
    ensures { result ≡ is_right code.now import.now }
{
    if is_memory(import) {
        is_right_memory(import.kind)
    } else {
        is_right_function(
            code,
            import_named(&import.module, &import.name),
            import.kind,
        )
    }
}

fn is_right_memory(kind: ImportKind) -> bool
    ensures { result ≡ is_right_memory kind }
{
    match kind {
        ImportKind::Memory { limits } => limits.least <= 1 && is_one_or_more(limits.greatest),
        _ => false,
    }
}

fn is_one_or_more(greatest: Option<u32>) -> bool
    ensures { result ≡ is_one_or_more greatest }
{
    match greatest {
        Some(greatest) => 1 <= greatest,
        None => true,
    }
}

fn is_right_function(code: &Code, name: Option<Import>, kind: ImportKind) -> bool
    ensures { result ≡ is_right_function code.now name kind }
{
    match name {
        Some(name) => has_type_of(code, name, kind),
        None => false,
    }
}

fn has_type_of(code: &Code, name: Import, kind: ImportKind) -> bool
    ensures { result ≡ is_right_function code.now (Some name) kind }
{
    match kind {
        ImportKind::Func { index } => is_of_import(type_at(code, index), name),
        _ => false,
    }
}

fn is_of_import(signature: Option<&FuncType>, name: Import) -> bool
    ensures { result ≡ has_type_of name (option_map (λ s. s.now) signature.entry) }
{
    match signature {
        Some(signature) => has_numbers(signature, import_numbers(name)),
        None => false,
    }
}

/// The type with this index.
pub fn type_at(code: &Code, index: u32) -> Option<&FuncType>
    ensures { option_map (λ s. s.now) result ≡ slice_get code.now.types index }
{
    code.types().get(index as usize)
}

/// An import with the two names of the memory.
#[derive(Drop)]
pub struct IsMemory;

impl Condition<ImportEntry> for IsMemory {
    ghost use Rattle.w4_defs.specs.Profile.{is_memory};

    ghost is_met = { λ _ i. is_memory i };

    fn is_met(&self, import: &ImportEntry) -> bool {
        is_memory(import)
    }
}

fn is_memory(import: &ImportEntry) -> bool
    ensures { result ≡ is_memory import.now }
{
    &import.module[..] == b"env".as_slice() && &import.name[..] == b"memory".as_slice()
}

fn is_known_at(code: &Code, i: usize) -> bool
    ensures { result ≡ is_known_entry (slice_get code.now.imports i) }
{
    match code.imports().get(i) {
        Some(import) => is_known(import),
        None => false,
    }
}

fn is_known(import: &ImportEntry) -> bool
    ensures { result ≡ is_known import.now }
{
    is_memory(import) || import_named(&import.module, &import.name).is_some()
}
