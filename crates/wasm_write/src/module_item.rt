//! The items of sections (Core Specification, section 5.5).

ghost use Rattle.std.specs.Prelude.{IfOk, ◌++◌, ◌≡◌};
ghost use Rattle.w4_defs.specs.EncodeModule.{export_kind_code, function_bytes, import_kind_bytes};

use crate::expression::expression;
use crate::item::{Encode, byte, sized, vector};
use crate::number::unsigned;
use crate::value_type::{global_type, limits, table_type, value_type_code};
use std::alloc::Global;
use w4_defs::{
    Body, Element, Export, ExportKind, GlobalEntry, ImportEntry, ImportKind, Limits, Locals,
    OutOfMemory, Segment,
};

fn import_kind(out: &mut Vec<u8>, kind: ImportKind) -> Result<(), OutOfMemory>
    ensures { IfOk result (λ _. out.new.items ≡ out.old.items ++ import_kind_bytes kind) }
{
    match kind {
        ImportKind::Func { index } => {
            byte(out, 0x00)?;
            unsigned(out, u64::from(index))
        }
        ImportKind::Table { limits } => {
            byte(out, 0x01)?;
            table_type(out, limits)
        }
        ImportKind::Memory { limits: pages } => {
            byte(out, 0x02)?;
            limits(out, pages)
        }
        ImportKind::Global { global } => {
            byte(out, 0x03)?;
            global_type(out, global)
        }
    }
}

impl Encode for ImportEntry {
    ghost use Rattle.w4_defs.specs.EncodeModule.{imported_bytes};

    ghost bytes = { imported_bytes };

    fn encode(&self, _alloc: Global, out: &mut Vec<u8>) -> Result<(), OutOfMemory> {
        sized(out, &self.module)?;
        sized(out, &self.name)?;
        import_kind(out, self.kind)
    }
}

impl Encode for Limits {
    ghost use Rattle.w4_defs.specs.EncodeType.{limits_bytes};

    ghost bytes = { limits_bytes };

    fn encode(&self, _alloc: Global, out: &mut Vec<u8>) -> Result<(), OutOfMemory> {
        limits(out, *self)
    }
}

impl Encode for GlobalEntry {
    ghost use Rattle.w4_defs.specs.EncodeModule.{global_bytes};

    ghost bytes = { global_bytes };

    fn encode(&self, alloc: Global, out: &mut Vec<u8>) -> Result<(), OutOfMemory> {
        global_type(out, self.global)?;
        expression(alloc, out, &self.first)
    }
}

fn export_kind_code(kind: ExportKind) -> u8
    ensures { result ≡ export_kind_code kind }
{
    match kind {
        ExportKind::Func => 0x00,
        ExportKind::Table => 0x01,
        ExportKind::Memory => 0x02,
        ExportKind::Global => 0x03,
    }
}

impl Encode for Export {
    ghost use Rattle.w4_defs.specs.EncodeModule.{exported_bytes};

    ghost bytes = { exported_bytes };

    fn encode(&self, _alloc: Global, out: &mut Vec<u8>) -> Result<(), OutOfMemory> {
        sized(out, &self.name)?;
        byte(out, export_kind_code(self.kind))?;
        unsigned(out, u64::from(self.index))
    }
}

impl Encode for Element {
    ghost use Rattle.w4_defs.specs.EncodeModule.{element_bytes};

    ghost bytes = { element_bytes };

    fn encode(&self, alloc: Global, out: &mut Vec<u8>) -> Result<(), OutOfMemory> {
        unsigned(out, u64::from(self.table))?;
        expression(alloc, out, &self.offset)?;
        vector(alloc, out, &self.functions)
    }
}

impl Encode for Locals {
    ghost use Rattle.w4_defs.specs.EncodeModule.{locals_bytes};

    ghost bytes = { locals_bytes };

    fn encode(&self, _alloc: Global, out: &mut Vec<u8>) -> Result<(), OutOfMemory> {
        unsigned(out, u64::from(self.count))?;
        byte(out, value_type_code(self.kind))
    }
}

fn function(alloc: Global, out: &mut Vec<u8>, body: &Body) -> Result<(), OutOfMemory>
    ensures { IfOk result (λ _. out.new.items ≡ out.old.items ++ function_bytes body.now) }
{
    vector(alloc, out, &body.runs)?;
    expression(alloc, out, &body.list)
}

impl Encode for Body {
    ghost use Rattle.w4_defs.specs.EncodeModule.{body_bytes};

    ghost bytes = { body_bytes };

    fn encode(&self, alloc: Global, out: &mut Vec<u8>) -> Result<(), OutOfMemory> {
        let mut contents = Vec::new(alloc);
        function(alloc, &mut contents, self)?;
        sized(out, &contents)
    }
}

impl Encode for Segment {
    ghost use Rattle.w4_defs.specs.EncodeModule.{data_segment_bytes};

    ghost bytes = { data_segment_bytes };

    fn encode(&self, alloc: Global, out: &mut Vec<u8>) -> Result<(), OutOfMemory> {
        unsigned(out, u64::from(self.memory))?;
        expression(alloc, out, &self.offset)?;
        sized(out, &self.bytes)
    }
}
