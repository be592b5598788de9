//! Rules of tables and memories (Core Specification, section 3.2).

ghost use Rattle.std.specs.Bool.{Decides};
ghost use Rattle.std.specs.Prelude.{All};
ghost use Rattle.w4_defs.specs.Lookup.{memories_of, tables_of};
ghost use Rattle.w4_defs.specs.Validity.{AreLimits, AreMemoryLimits, IsAtMost};

use crate::rule::{Rule, all};
use w4_defs::{ImportEntry, ImportKind, Limits};
use wasm_tree::Code;

/// Whether all tables have limits in order.
pub fn have_table_limits(code: &Code) -> bool
    ensures { Decides result (All AreLimits (tables_of code.now)) }
{
    all(&TableLimits, code.imports()) && all(&TableLimits, code.tables())
}

/// Whether all memories have limits in order, of 65,536 pages at most.
pub fn have_memory_limits(code: &Code) -> bool
    ensures { Decides result (All AreMemoryLimits (memories_of code.now)) }
{
    all(&MemoryLimits, code.imports()) && all(&MemoryLimits, code.memories())
}

#[derive(Drop)]
struct TableLimits;

impl Rule<ImportEntry> for TableLimits {
    ghost use Rattle.std.specs.Prelude.{IfSome};
    ghost use Rattle.w4_defs.specs.Lookup.{imported_table};
    ghost use Rattle.w4_defs.specs.Validity.{AreLimits};

    ghost keeps_rule = { λ _ i. IfSome (imported_table i.kind) AreLimits };

    fn keeps_rule(&self, import: &ImportEntry) -> bool {
        match import.kind {
            ImportKind::Table { limits } => are_limits(limits),
            _ => true,
        }
    }
}

impl Rule<Limits> for TableLimits {
    ghost use Rattle.w4_defs.specs.Validity.{AreLimits};

    ghost keeps_rule = { λ _ l. AreLimits l };

    fn keeps_rule(&self, limits: &Limits) -> bool {
        are_limits(*limits)
    }
}

#[derive(Drop)]
struct MemoryLimits;

impl Rule<ImportEntry> for MemoryLimits {
    ghost use Rattle.std.specs.Prelude.{IfSome};
    ghost use Rattle.w4_defs.specs.Lookup.{imported_memory};
    ghost use Rattle.w4_defs.specs.Validity.{AreMemoryLimits};

    ghost keeps_rule = { λ _ i. IfSome (imported_memory i.kind) AreMemoryLimits };

    fn keeps_rule(&self, import: &ImportEntry) -> bool {
        match import.kind {
            ImportKind::Memory { limits } => are_memory_limits(limits),
            _ => true,
        }
    }
}

impl Rule<Limits> for MemoryLimits {
    ghost use Rattle.w4_defs.specs.Validity.{AreMemoryLimits};

    ghost keeps_rule = { λ _ l. AreMemoryLimits l };

    fn keeps_rule(&self, limits: &Limits) -> bool {
        are_memory_limits(*limits)
    }
}

fn are_limits(limits: Limits) -> bool
    ensures { Decides result (AreLimits limits) }
{
    match limits.greatest {
        Some(greatest) => limits.least <= greatest,
        None => true,
    }
}

fn are_memory_limits(limits: Limits) -> bool
    ensures { Decides result (AreMemoryLimits limits) }
{
    are_limits(limits) && limits.least <= 65536 && is_at_most_65536(limits.greatest)
}

fn is_at_most_65536(greatest: Option<u32>) -> bool
    ensures { Decides result (IsAtMost 65536 greatest) }
{
    match greatest {
        Some(greatest) => greatest <= 65536,
        None => true,
    }
}
