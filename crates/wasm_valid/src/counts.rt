//! How many functions, tables, memories and globals a module has, imports first.

ghost use Rattle.std.specs.Prelude.{◌+◌, ◌^◌, ◌≡◌, ◌≤◌, length};
ghost use Rattle.wasm_valid.specs.Counting.{AreCounts, CountKinds, FitKinds, counted_with};

use w4_defs::{ImportEntry, ImportKind, Limits};
use wasm_tree::{Code, FlatGlobal};

#[derive(Clone, Copy)]
pub struct Counts {
    pub functions: usize,
    pub tables: usize,
    pub memories: usize,
    pub globals: usize,
}

/// How many there are, imports and own.
pub fn counted(code: &Code) -> Counts
    ensures { AreCounts result code.now }
{
    let imports = code.imports();
    let imported = imported(imports);
    Counts {
        functions: with_functions(imports, imported.functions, code.functions()),
        tables: with_limits(imports, imported.tables, code.tables()),
        memories: with_limits(imports, imported.memories, code.memories()),
        globals: with_globals(imports, imported.globals, code.globals()),
    }
}

fn with_functions(imports: &[ImportEntry], imported: usize, own: &[u32]) -> usize
    requires { imported ≤ length imports.now }
    ensures { result ≡ imported + length own.now }
{
    imported + own.len()
}

fn with_limits(imports: &[ImportEntry], imported: usize, own: &[Limits]) -> usize
    requires { imported ≤ length imports.now }
    ensures { result ≡ imported + length own.now }
{
    imported + own.len()
}

fn with_globals(imports: &[ImportEntry], imported: usize, own: &[FlatGlobal]) -> usize
    requires { imported ≤ length imports.now }
    ensures { result ≡ imported + length own.now }
{
    imported + own.len()
}

/// How many imports of each kind there are.
fn imported(imports: &[ImportEntry]) -> Counts
    ensures operands { CountKinds result imports.now }
    ensures fit { FitKinds result (length imports.now) }
{
    let mut counts = Counts {
        functions: 0,
        tables: 0,
        memories: 0,
        globals: 0,
    };
    for i in 0..imports.len() {
        let import = &imports[i];
        counts = counted_with(counts, import.kind);
    }
    counts
}

/// The counts with one more of this kind.
fn counted_with(counts: Counts, kind: ImportKind) -> Counts
    requires { FitKinds counts (2 ^ 63) }
    ensures { result ≡ counted_with counts kind }
{
    match kind {
        ImportKind::Func { .. } => Counts {
            functions: counts.functions + 1,
            ..counts
        },
        ImportKind::Table { .. } => Counts {
            tables: counts.tables + 1,
            ..counts
        },
        ImportKind::Memory { .. } => Counts {
            memories: counts.memories + 1,
            ..counts
        },
        ImportKind::Global { .. } => Counts {
            globals: counts.globals + 1,
            ..counts
        },
    }
}
