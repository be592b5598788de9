//! Value types, limits and the types that are made of them (Core Specification, section 5.3).

ghost use Rattle.std.specs.Prelude.{IfOk, ◌++◌, ◌≡◌};
ghost use Rattle.w4_defs.specs.EncodeType.{block_type_code, global_type_bytes, limits_bytes, table_type_bytes, value_type_code};

use crate::item::{Encode, byte, vector};
use crate::number::unsigned;
use std::alloc::Global;
use w4_defs::{FuncType, GlobalType, Limits, OutOfMemory, ValType};

pub fn value_type_code(kind: ValType) -> u8
    ensures { result ≡ value_type_code kind }
{
    match kind {
        ValType::I32 => 0x7f,
        ValType::I64 => 0x7e,
        ValType::F32 => 0x7d,
        ValType::F64 => 0x7c,
    }
}

/// The result of a block, if it has one.
pub fn block_type_code(kind: Option<ValType>) -> u8
    ensures { result ≡ block_type_code kind }
{
    match kind {
        None => 0x40,
        Some(kind) => value_type_code(kind),
    }
}

pub fn limits(out: &mut Vec<u8>, limits: Limits) -> Result<(), OutOfMemory>
    ensures { IfOk result (λ _. out.new.items ≡ out.old.items ++ limits_bytes limits) }
{
    match limits.greatest {
        None => {
            byte(out, 0x00)?;
            unsigned(out, u64::from(limits.least))
        }
        Some(greatest) => {
            byte(out, 0x01)?;
            unsigned(out, u64::from(limits.least))?;
            unsigned(out, u64::from(greatest))
        }
    }
}

/// The limits of a table of functions.
pub fn table_type(out: &mut Vec<u8>, entries: Limits) -> Result<(), OutOfMemory>
    ensures { IfOk result (λ _. out.new.items ≡ out.old.items ++ table_type_bytes entries) }
{
    byte(out, 0x70)?;
    limits(out, entries)
}

pub fn global_type(out: &mut Vec<u8>, global: GlobalType) -> Result<(), OutOfMemory>
    ensures { IfOk result (λ _. out.new.items ≡ out.old.items ++ global_type_bytes global) }
{
    byte(out, value_type_code(global.value))?;
    byte(out, u8::from(global.mutable))
}

impl Encode for u32 {
    ghost use Rattle.w4_defs.specs.EncodeNumber.{unsigned_bytes};

    ghost bytes = { unsigned_bytes };

    fn encode(&self, _alloc: Global, out: &mut Vec<u8>) -> Result<(), OutOfMemory> {
        unsigned(out, u64::from(*self))
    }
}

impl Encode for ValType {
    ghost use Rattle.w4_defs.specs.EncodeType.{value_type_bytes};

    ghost bytes = { value_type_bytes };

    fn encode(&self, _alloc: Global, out: &mut Vec<u8>) -> Result<(), OutOfMemory> {
        byte(out, value_type_code(*self))
    }
}

impl Encode for FuncType {
    ghost use Rattle.w4_defs.specs.EncodeType.{func_type_bytes};

    ghost bytes = { func_type_bytes };

    fn encode(&self, alloc: Global, out: &mut Vec<u8>) -> Result<(), OutOfMemory> {
        byte(out, 0x60)?;
        vector(alloc, out, &self.params)?;
        vector(alloc, out, &self.results)
    }
}
