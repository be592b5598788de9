//! A module as bytes (Core Specification, section 5.5).

ghost use Rattle.std.specs.Prelude.{IfOk, flat_map, length, ◌+◌, ◌++◌, ◌≡◌, option_map};
ghost use Rattle.w4_defs.specs.BinaryModule.{SpellsModule};
ghost use Rattle.w4_defs.specs.EncodeModule.{first_sections, last_sections, module_bytes, part, section_bytes};
ghost use Rattle.w4_defs.specs.EncodeNumber.{unsigned_bytes};
ghost use Rattle.w4_defs.specs.EncodeType.{table_type_bytes};
ghost use Rattle.wasm_write.specs.Fits.{ModuleFits};

use crate::item::{byte, bytes, section, sized};
use crate::number::unsigned;
use crate::value_type::table_type;
use std::alloc::Global;
use w4_defs::{Limits, Module, OutOfMemory};

/// `\0asm` and the version of the format.
const PREAMBLE: [u8; 8] = [0x00, 0x61, 0x73, 0x6d, 0x01, 0x00, 0x00, 0x00];

fn table_types(out: &mut Vec<u8>, tables: &[Limits]) -> Result<(), OutOfMemory>
    ensures { IfOk result (λ _. out.new.items ≡ out.old.items ++ flat_map table_type_bytes tables.now) }
{
    for limits in tables {
        table_type(out, *limits)?;
    }
    Ok(())
}

/// The section of tables, of which each has its kind before its limits.
fn table_section(alloc: Global, out: &mut Vec<u8>, tables: &[Limits]) -> Result<(), OutOfMemory>
    ensures { IfOk result (λ _.
        out.new.items ≡ out.old.items ++ section_bytes 4 (part table_type_bytes tables.now)) }
{
    if tables.is_empty() {
        return Ok(());
    }
    let mut contents = Vec::new(alloc);
    unsigned(&mut contents, tables.len() as u64)?;
    table_types(&mut contents, tables)?;
    byte(out, 4)?;
    sized(out, &contents)
}

/// The section of the start function, if there is one.
fn start_section(alloc: Global, out: &mut Vec<u8>, start: Option<u32>) -> Result<(), OutOfMemory>
    ensures { IfOk result (λ _.
        out.new.items ≡ out.old.items ++ section_bytes 8 (option_map unsigned_bytes start)) }
{
    let Some(index) = start else {
        return Ok(());
    };
    let mut contents = Vec::new(alloc);
    unsigned(&mut contents, u64::from(index))?;
    byte(out, 8)?;
    sized(out, &contents)
}

/// The sections 1 to 6.
#[tactic(auto, unfolding(w4_defs::specs::EncodeModule::first_sections))]
fn first_sections(alloc: Global, out: &mut Vec<u8>, wasm_module: &Module) -> Result<(), OutOfMemory>
    ensures { IfOk result (λ _. out.new.items ≡ out.old.items ++ first_sections wasm_module.now) }
{
    section(alloc, out, 1, &wasm_module.types)?;
    section(alloc, out, 2, &wasm_module.imports)?;
    section(alloc, out, 3, &wasm_module.functions)?;
    table_section(alloc, out, &wasm_module.tables)?;
    section(alloc, out, 5, &wasm_module.memories)?;
    section(alloc, out, 6, &wasm_module.globals)
}

/// The sections 7 to 11.
#[tactic(auto, unfolding(w4_defs::specs::EncodeModule::last_sections))]
fn last_sections(alloc: Global, out: &mut Vec<u8>, wasm_module: &Module) -> Result<(), OutOfMemory>
    ensures { IfOk result (λ _. out.new.items ≡ out.old.items ++ last_sections wasm_module.now) }
{
    section(alloc, out, 7, &wasm_module.exports)?;
    start_section(alloc, out, wasm_module.start)?;
    section(alloc, out, 9, &wasm_module.elements)?;
    section(alloc, out, 10, &wasm_module.bodies)?;
    section(alloc, out, 11, &wasm_module.segments)
}

/// The bytes of a module, whether or not the format can encode it.
#[tactic(auto, unfolding(w4_defs::specs::EncodeModule::module_bytes))]
fn module_bytes(alloc: Global, wasm_module: &Module) -> Result<Vec<u8>, OutOfMemory>
    ensures { IfOk result (λ v. v.items ≡ module_bytes wasm_module.now) }
{
    let mut out = Vec::new(alloc);
    bytes(&mut out, &PREAMBLE)?;
    first_sections(alloc, &mut out, wasm_module)?;
    last_sections(alloc, &mut out, wasm_module)?;
    Ok(out)
}

/// The bytes that encode a module, every number in its shortest encoding. No data count section is written.
pub fn write_module(alloc: Global, wasm_module: &Module) -> Result<Vec<u8>, OutOfMemory>
    requires { ModuleFits wasm_module.now }
    ensures encodes { IfOk result (λ v. SpellsModule v.items wasm_module.now) }
    ensures shortest { IfOk result (λ v. v.items ≡ module_bytes wasm_module.now) }
{
    module_bytes(alloc, wasm_module)
}
