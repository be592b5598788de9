//! What the sections hold (Core Specification, section 5.5).

ghost use Rattle.std.specs.Prelude.{None, Some, length, nat_lt, option_map, ◌≡◌, ◌^◌};
ghost use Rattle.w4_defs.specs.Lookup.{local_count};
ghost use Rattle.wasm_read.specs.Combine.{whole_at};
ghost use Rattle.wasm_read.specs.ReadPart.{export_kind_at, export_kinds, function_at, import_kind_after, import_kind_at};
ghost use Rattle.wasm_read.specs.ReadType.{name_at};
ghost use Rattle.wasm_read.specs.Reader.{Answers, row_of};

use crate::expression::expression_at;
use crate::item::{Item, vector_at};
use crate::number::index_at;
use crate::refusal::ReadRefusal;
use crate::section::{cut_at, name_at};
use crate::value_type::{global_type_at, limits_at, table_type_at, value_type_at};
use std::alloc::Global;
use std::marker::Model;
use w4_defs::{Export, ExportKind, ImportEntry, ImportKind, Limits, Locals};
use wasm_tree::{FlatBody, FlatElement, FlatGlobal, FlatSegment};

/// The bytes, held.
fn held(alloc: Global, bytes: &[u8]) -> Result<Vec<u8>, ReadRefusal>
    ensures { Answers (λ v. v.items ≡ bytes.now) ⊥ result }
{
    let mut copy = Vec::new(alloc);
    copy.extend_from_slice(bytes)?;
    Ok(copy)
}

fn held_name(alloc: Global, bytes: &[u8]) -> Result<(Vec<u8>, &[u8]), ReadRefusal>
    ensures { Answers (λ x. name_at bytes.now ≡ Some (x.0.items, x.1.now)) (name_at bytes.now ≡ None) result }
{
    let (codes, rest) = name_at(bytes).ok_or(ReadRefusal::Malformed)?;
    Ok((held(alloc, codes)?, rest))
}

/// What an import is, after its code.
fn import_kind_after(code: u8, bytes: &[u8]) -> Option<(ImportKind, &[u8])>
    ensures { option_map (λ x. (x.0, x.1.now)) result ≡ import_kind_after code bytes.now }
{
    match code {
        0 => {
            let (index, rest) = index_at(bytes)?;
            Some((ImportKind::Func { index }, rest))
        }
        1 => {
            let (limits, rest) = table_type_at(bytes)?;
            Some((ImportKind::Table { limits }, rest))
        }
        2 => {
            let (limits, rest) = limits_at(bytes)?;
            Some((ImportKind::Memory { limits }, rest))
        }
        3 => {
            let (global, rest) = global_type_at(bytes)?;
            Some((ImportKind::Global { global }, rest))
        }
        _ => None,
    }
}

fn import_kind_at(bytes: &[u8]) -> Option<(ImportKind, &[u8])>
    ensures { option_map (λ x. (x.0, x.1.now)) result ≡ import_kind_at bytes.now }
{
    let [code, rest @ ..] = bytes else {
        return None;
    };
    import_kind_after(*code, rest)
}

fn export_kind_of(code: u8) -> Option<ExportKind>
    ensures { result ≡ row_of export_kinds code }
{
    match code {
        0 => Some(ExportKind::Func),
        1 => Some(ExportKind::Table),
        2 => Some(ExportKind::Memory),
        3 => Some(ExportKind::Global),
        _ => None,
    }
}

fn export_kind_at(bytes: &[u8]) -> Option<(ExportKind, &[u8])>
    ensures { option_map (λ x. (x.0, x.1.now)) result ≡ export_kind_at bytes.now }
{
    let [code, rest @ ..] = bytes else {
        return None;
    };
    Some((export_kind_of(*code)?, rest))
}

impl Item for ImportEntry {
    ghost use Rattle.wasm_read.specs.ReadPart.{import_at};

    ghost reads = { import_at };

    #[tactic(auto, unfolding(crate::specs::ReadPart::import_at))]
    fn read_item(alloc: Global, bytes: &[u8]) -> Result<(ImportEntry, &[u8]), ReadRefusal> {
        let (module, rest) = held_name(alloc, bytes)?;
        let (name, rest) = held_name(alloc, rest)?;
        let (kind, rest) = import_kind_at(rest).ok_or(ReadRefusal::Malformed)?;
        Ok((ImportEntry { module, name, kind }, rest))
    }
}

impl Item for Limits {
    ghost use Rattle.wasm_read.specs.ReadType.{limits_at};

    ghost reads = { limits_at };

    fn read_item(_alloc: Global, bytes: &[u8]) -> Result<(Limits, &[u8]), ReadRefusal> {
        limits_at(bytes).ok_or(ReadRefusal::Malformed)
    }
}

/// A table of functions, by its limits.
#[derive(Drop)]
pub struct TableType {
    pub limits: Limits,
}

impl Model for TableType {
    ghost use Rattle.w4_defs.specs.declared.value.Limits.{Limits};

    ghost Value = { Limits };

    ghost view = { λ t. t.limits };
}

impl Item for TableType {
    ghost use Rattle.wasm_read.specs.ReadType.{table_type_at};

    ghost reads = { table_type_at };

    fn read_item(_alloc: Global, bytes: &[u8]) -> Result<(TableType, &[u8]), ReadRefusal> {
        let (limits, rest) = table_type_at(bytes).ok_or(ReadRefusal::Malformed)?;
        Ok((TableType { limits }, rest))
    }
}

impl Item for FlatGlobal {
    ghost use Rattle.wasm_read.specs.ReadPart.{global_at};

    ghost reads = { global_at };

    #[tactic(auto, unfolding(crate::specs::ReadPart::global_at))]
    fn read_item(alloc: Global, bytes: &[u8]) -> Result<(FlatGlobal, &[u8]), ReadRefusal> {
        let (global, rest) = global_type_at(bytes).ok_or(ReadRefusal::Malformed)?;
        let (first, rest) = expression_at(alloc, rest)?;
        Ok((FlatGlobal { global, first }, rest))
    }
}

impl Item for Export {
    ghost use Rattle.wasm_read.specs.ReadPart.{export_at};

    ghost reads = { export_at };

    #[tactic(auto, unfolding(crate::specs::ReadPart::export_at))]
    fn read_item(alloc: Global, bytes: &[u8]) -> Result<(Export, &[u8]), ReadRefusal> {
        let (name, rest) = held_name(alloc, bytes)?;
        let (kind, rest) = export_kind_at(rest).ok_or(ReadRefusal::Malformed)?;
        let (index, rest) = index_at(rest).ok_or(ReadRefusal::Malformed)?;
        Ok((Export { name, kind, index }, rest))
    }
}

impl Item for FlatElement {
    ghost use Rattle.wasm_read.specs.ReadPart.{element_at};

    ghost reads = { element_at };

    #[tactic(auto, unfolding(crate::specs::ReadPart::element_at))]
    fn read_item(alloc: Global, bytes: &[u8]) -> Result<(FlatElement, &[u8]), ReadRefusal> {
        let (table, rest) = index_at(bytes).ok_or(ReadRefusal::Malformed)?;
        let (offset, rest) = expression_at(alloc, rest)?;
        let (functions, rest) = vector_at(alloc, rest)?;
        Ok((
            FlatElement {
                table,
                offset,
                functions,
            },
            rest,
        ))
    }
}

impl Item for Locals {
    ghost use Rattle.wasm_read.specs.ReadPart.{run_at};

    ghost reads = { run_at };

    #[tactic(auto, unfolding(crate::specs::ReadPart::run_at))]
    fn read_item(_alloc: Global, bytes: &[u8]) -> Result<(Locals, &[u8]), ReadRefusal> {
        let (count, rest) = index_at(bytes).ok_or(ReadRefusal::Malformed)?;
        let (kind, rest) = value_type_at(rest).ok_or(ReadRefusal::Malformed)?;
        Ok((Locals { count, kind }, rest))
    }
}

/// Whether the runs have fewer than 2^32 locals together.
fn are_countable(runs: &[Locals]) -> bool
    ensures { result ≡ nat_lt (local_count runs.now) (2 ^ 32) }
{
    let mut sum: u32 = 0;
    for run in runs {
        let Some(more) = sum.checked_add(run.count) else {
            return false;
        };
        sum = more;
    }
    true
}

/// A function's code that is all of the bytes.
#[tactic(auto, unfolding(crate::specs::ReadPart::function_at))]
fn function_of(alloc: Global, bytes: &[u8]) -> Result<FlatBody, ReadRefusal>
    ensures { Answers (λ f. whole_at function_at bytes.now ≡ Some f) (whole_at function_at bytes.now ≡ None)
        result }
{
    let (runs, rest) = vector_at(alloc, bytes)?;
    let (list, rest) = expression_at(alloc, rest)?;
    if !are_countable(&runs) {
        return Err(ReadRefusal::Malformed);
    }
    if !rest.is_empty() {
        return Err(ReadRefusal::Malformed);
    }
    Ok(FlatBody { runs, list })
}

impl Item for FlatBody {
    ghost use Rattle.wasm_read.specs.ReadPart.{body_at};

    ghost reads = { body_at };

    #[tactic(auto, unfolding(crate::specs::ReadPart::body_at, crate::specs::Combine::sized_at))]
    fn read_item(alloc: Global, bytes: &[u8]) -> Result<(FlatBody, &[u8]), ReadRefusal> {
        let (contents, rest) = cut_at(bytes).ok_or(ReadRefusal::Malformed)?;
        Ok((function_of(alloc, contents)?, rest))
    }
}

impl Item for FlatSegment {
    ghost use Rattle.wasm_read.specs.ReadPart.{segment_at};

    ghost reads = { segment_at };

    #[tactic(auto, unfolding(crate::specs::ReadPart::segment_at))]
    fn read_item(alloc: Global, bytes: &[u8]) -> Result<(FlatSegment, &[u8]), ReadRefusal> {
        let (memory, rest) = index_at(bytes).ok_or(ReadRefusal::Malformed)?;
        let (offset, rest) = expression_at(alloc, rest)?;
        let (contents, rest) = cut_at(rest).ok_or(ReadRefusal::Malformed)?;
        let bytes = held(alloc, contents)?;
        Ok((
            FlatSegment {
                memory,
                offset,
                bytes,
            },
            rest,
        ))
    }
}
