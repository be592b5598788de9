//! The module that bytes encode (Core Specification, section 5.5).

ghost use Rattle.std.specs.Prelude.{None, Some, length, option_map, ◌≡◌};
ghost use Rattle.w4_defs.specs.BinaryModule.{SpellsModule};
ghost use Rattle.w4_defs.specs.Module.{WasmModule};
ghost use Rattle.wasm_read.specs.ReadModule.{after_these, back_sections, module_from, contents_in, front_sections, middle_sections, module_at, sections_at};
ghost use Rattle.wasm_read.specs.ReadNumber.{unsigned_at};
ghost use Rattle.wasm_read.specs.ReadSection.{alone_at, is_counted, part_at};
ghost use Rattle.wasm_read.specs.Reader.{Answers};
ghost use Rattle.w4_defs.specs.BinaryModule.{preamble};
ghost use Rattle.wasm_read.specs.Unique.{AtMostOneModule};

use crate::item::{Item, vector_at};
use crate::number::index_at;
use crate::part::TableType;
use crate::refusal::ReadRefusal;
use crate::section::{contents_of, in_order};
use std::alloc::Global;
use w4_defs::{Export, FuncType, ImportEntry, Limits};
use wasm_tree::{Bodies, Code, FlatBody, FlatElement, FlatGlobal, FlatSegment};

/// The items of a section, none where it is absent.
fn part_of<T: Item>(alloc: Global, contents: Option<&[u8]>) -> Result<Vec<T>, ReadRefusal>
    ensures { Answers (λ xs. part_at T.reads (option_map (λ c. c.now) contents.entry) ≡ Some xs.items)
        (part_at T.reads (option_map (λ c. c.now) contents.entry) ≡ None) result }
{
    let Some(contents) = contents else {
        return Ok(Vec::new(alloc));
    };
    let (items, rest) = vector_at(alloc, contents)?;
    if rest.is_empty() {
        Ok(items)
    } else {
        Err(ReadRefusal::Malformed)
    }
}

/// The start function, if its section is there.
fn start_of(contents: Option<&[u8]>) -> Result<Option<u32>, ReadRefusal>
    ensures { Answers (λ x. alone_at (unsigned_at 32) (option_map (λ c. c.now) contents.entry) ≡ Some x)
        (alone_at (unsigned_at 32) (option_map (λ c. c.now) contents.entry) ≡ None) result }
{
    let Some(contents) = contents else {
        return Ok(None);
    };
    let (index, rest) = index_at(contents).ok_or(ReadRefusal::Malformed)?;
    if rest.is_empty() {
        Ok(Some(index))
    } else {
        Err(ReadRefusal::Malformed)
    }
}

/// Whether the data count section, if it is there, holds this number.
fn is_counted(contents: Option<&[u8]>, count: usize) -> bool
    ensures { result ≡ is_counted (option_map (λ c. c.now) contents.entry) count }
{
    let Some(contents) = contents else {
        return true;
    };
    let Some((number, rest)) = index_at(contents) else {
        return false;
    };
    if !rest.is_empty() {
        return false;
    }
    number as usize == count
}

fn limits_of(alloc: Global, tables: &[TableType]) -> Result<Vec<Limits>, ReadRefusal>
    ensures { Answers (λ v. v.items ≡ tables.now) ⊥ result }
{
    let mut limits = Vec::new(alloc);
    for table in tables {
        limits.push(table.limits)?;
    }
    Ok(limits)
}

fn bodies_of(alloc: Global, list: Vec<FlatBody>) -> Result<Bodies, ReadRefusal>
    ensures { Answers (λ b. b ≡ list.items) ⊥ result }
{
    let mut bodies = Bodies::new(alloc)?;
    for body in list {
        bodies = bodies.with(body)?;
    }
    Ok(bodies)
}

/// What stands in the sections 1 to 4.
#[derive(Drop)]
struct Front {
    types: Vec<FuncType>,
    imports: Vec<ImportEntry>,
    functions: Vec<u32>,
    tables: Vec<Limits>,
}

#[tactic(auto, unfolding(crate::specs::ReadModule::front_sections))]
fn front_of(alloc: Global, bytes: &[u8]) -> Result<Front, ReadRefusal>
    ensures { Answers (λ x. front_sections (contents_in bytes.now)
        ≡ Some (x.types.items, (x.imports.items, (x.functions.items, x.tables.items))))
        (front_sections (contents_in bytes.now) ≡ None) result }
{
    let types = part_of(alloc, contents_of(bytes, 1))?;
    let imports = part_of(alloc, contents_of(bytes, 2))?;
    let functions = part_of(alloc, contents_of(bytes, 3))?;
    let tables = part_of(alloc, contents_of(bytes, 4))?;
    let tables = limits_of(alloc, &tables)?;
    Ok(Front {
        types,
        imports,
        functions,
        tables,
    })
}

/// What stands in the sections 5 to 8.
#[derive(Drop)]
struct Middle {
    memories: Vec<Limits>,
    globals: Vec<FlatGlobal>,
    exports: Vec<Export>,
    start: Option<u32>,
}

#[tactic(auto, unfolding(crate::specs::ReadModule::middle_sections))]
fn middle_of(alloc: Global, bytes: &[u8]) -> Result<Middle, ReadRefusal>
    ensures { Answers (λ x. middle_sections (contents_in bytes.now)
        ≡ Some (x.memories.items, (x.globals.items, (x.exports.items, x.start))))
        (middle_sections (contents_in bytes.now) ≡ None) result }
{
    let memories = part_of(alloc, contents_of(bytes, 5))?;
    let globals = part_of(alloc, contents_of(bytes, 6))?;
    let exports = part_of(alloc, contents_of(bytes, 7))?;
    let start = start_of(contents_of(bytes, 8))?;
    Ok(Middle {
        memories,
        globals,
        exports,
        start,
    })
}

/// What stands in the sections 9 to 11.
#[derive(Drop)]
struct Back {
    elements: Vec<FlatElement>,
    bodies: Bodies,
    segments: Vec<FlatSegment>,
}

#[tactic(auto, unfolding(crate::specs::ReadModule::back_sections))]
fn back_of(alloc: Global, bytes: &[u8]) -> Result<Back, ReadRefusal>
    ensures { Answers (λ x. back_sections (contents_in bytes.now)
        ≡ Some (x.elements.items, (x.bodies, x.segments.items)))
        (back_sections (contents_in bytes.now) ≡ None) result }
{
    let elements = part_of(alloc, contents_of(bytes, 9))?;
    let bodies = part_of(alloc, contents_of(bytes, 10))?;
    let segments = part_of(alloc, contents_of(bytes, 11))?;
    let bodies = bodies_of(alloc, bodies)?;
    Ok(Back {
        elements,
        bodies,
        segments,
    })
}

/// The module of sections that stand in order.
#[tactic(auto, unfolding(crate::specs::ReadModule::module_from))]
fn collected(alloc: Global, bytes: &[u8]) -> Result<Code, ReadRefusal>
    ensures { Answers (λ c. module_from (contents_in bytes.now) ≡ Some c)
        (module_from (contents_in bytes.now) ≡ None) result }
{
    let front = front_of(alloc, bytes)?;
    let middle = middle_of(alloc, bytes)?;
    let back = back_of(alloc, bytes)?;
    if front.functions.len() != back.bodies.len() {
        return Err(ReadRefusal::Malformed);
    }
    if !is_counted(contents_of(bytes, 12), back.segments.len()) {
        return Err(ReadRefusal::Malformed);
    }
    Ok(Code {
        types: front.types,
        imports: front.imports,
        functions: front.functions,
        tables: front.tables,
        memories: middle.memories,
        globals: middle.globals,
        exports: middle.exports,
        start: middle.start,
        elements: back.elements,
        bodies: back.bodies,
        segments: back.segments,
    })
}

/// The bytes after the preamble.
fn after_preamble(bytes: &[u8]) -> Option<&[u8]>
    ensures { option_map (λ x. x.now) result ≡ after_these preamble bytes.now }
{
    let [0x00, 0x61, 0x73, 0x6d, 0x01, 0x00, 0x00, 0x00, rest @ ..] = bytes else {
        return None;
    };
    Some(rest)
}

#[tactic(auto, unfolding(crate::specs::ReadModule::module_at, crate::specs::ReadModule::sections_at))]
fn module_at(alloc: Global, bytes: &[u8]) -> Result<Code, ReadRefusal>
    ensures { Answers (λ c. module_at bytes.now ≡ Some c) (module_at bytes.now ≡ None) result }
{
    let sections = after_preamble(bytes).ok_or(ReadRefusal::Malformed)?;
    in_order(sections).ok_or(ReadRefusal::Malformed)?;
    collected(alloc, sections)
}

/// The module that the whole of the bytes encodes. It takes memory for what stands in the bytes and never
/// by a count that it has read. Errors: Malformed if and only if the bytes encode no module, OutOfMemory.
pub fn read_module(alloc: Global, bytes: &[u8]) -> Result<Code, ReadRefusal>
    ensures { Answers (λ c. SpellsModule bytes.now c) ((m : WasmModule) → SpellsModule bytes.now m → ⊥)
        result }
{
    module_at(alloc, bytes)
}

/// Given bytes encode at most one module.
pub fn at_most_one()
    ensures { AtMostOneModule }
{}
