//! Value types, limits and the types that are made of them (Core Specification, section 5.3).

ghost use Rattle.std.specs.Prelude.{None, Some, option_map, ◌≡◌};
ghost use Rattle.wasm_read.specs.ReadNumber.{unsigned_at};
ghost use Rattle.wasm_read.specs.ReadType.{block_type_at, block_type_codes, func_type_at, global_type_at, limits_at, mutability_codes, table_type_at, value_type_at, value_type_codes};
ghost use Rattle.wasm_read.specs.Reader.{Answers, coded_at, row_of};

use crate::item::{Item, vector_at};
use crate::number::index_at;
use crate::refusal::ReadRefusal;
use std::alloc::Global;
use w4_defs::{FuncType, GlobalType, Limits, ValType};

fn value_type_of(code: u8) -> Option<ValType>
    ensures { result ≡ row_of value_type_codes code }
{
    match code {
        0x7f => Some(ValType::I32),
        0x7e => Some(ValType::I64),
        0x7d => Some(ValType::F32),
        0x7c => Some(ValType::F64),
        _ => None,
    }
}

pub fn value_type_at(bytes: &[u8]) -> Option<(ValType, &[u8])>
    ensures { option_map (λ x. (x.0, x.1.now)) result ≡ value_type_at bytes.now }
{
    let [code, rest @ ..] = bytes else {
        return None;
    };
    Some((value_type_of(*code)?, rest))
}

fn block_type_of(code: u8) -> Option<Option<ValType>>
    ensures { result ≡ row_of block_type_codes code }
{
    match code {
        0x40 => Some(None),
        0x7f => Some(Some(ValType::I32)),
        0x7e => Some(Some(ValType::I64)),
        0x7d => Some(Some(ValType::F32)),
        0x7c => Some(Some(ValType::F64)),
        _ => None,
    }
}

/// The result of a block, if it has one.
pub fn block_type_at(bytes: &[u8]) -> Option<(Option<ValType>, &[u8])>
    ensures { option_map (λ x. (x.0, x.1.now)) result ≡ block_type_at bytes.now }
{
    let [code, rest @ ..] = bytes else {
        return None;
    };
    Some((block_type_of(*code)?, rest))
}

fn mutability_at(bytes: &[u8]) -> Option<(bool, &[u8])>
    ensures { option_map (λ x. (x.0, x.1.now)) result ≡ coded_at mutability_codes bytes.now }
{
    match bytes {
        [0, rest @ ..] => Some((false, rest)),
        [1, rest @ ..] => Some((true, rest)),
        _ => None,
    }
}

pub fn global_type_at(bytes: &[u8]) -> Option<(GlobalType, &[u8])>
    ensures { option_map (λ x. (x.0, x.1.now)) result ≡ global_type_at bytes.now }
{
    let (value, rest) = value_type_at(bytes)?;
    let (mutable, rest) = mutability_at(rest)?;
    Some((GlobalType { value, mutable }, rest))
}

pub fn limits_at(bytes: &[u8]) -> Option<(Limits, &[u8])>
    ensures { option_map (λ x. (x.0, x.1.now)) result ≡ limits_at bytes.now }
{
    let [code, rest @ ..] = bytes else {
        return None;
    };
    if *code == 0 {
        let (least, rest) = index_at(rest)?;
        let greatest = None;
        return Some((Limits { least, greatest }, rest));
    }
    if *code == 1 {
        let (least, rest) = index_at(rest)?;
        let (greatest, rest) = index_at(rest)?;
        let greatest = Some(greatest);
        return Some((Limits { least, greatest }, rest));
    }
    None
}

/// The limits of a table of functions.
pub fn table_type_at(bytes: &[u8]) -> Option<(Limits, &[u8])>
    ensures { option_map (λ x. (x.0, x.1.now)) result ≡ table_type_at bytes.now }
{
    let [0x70, rest @ ..] = bytes else {
        return None;
    };
    limits_at(rest)
}

impl Item for u32 {
    ghost use Rattle.wasm_read.specs.ReadNumber.{unsigned_at};

    ghost reads = { unsigned_at 32 };

    fn read_item(_alloc: Global, bytes: &[u8]) -> Result<(u32, &[u8]), ReadRefusal> {
        index_at(bytes).ok_or(ReadRefusal::Malformed)
    }
}

impl Item for ValType {
    ghost use Rattle.wasm_read.specs.ReadType.{value_type_at};

    ghost reads = { value_type_at };

    fn read_item(_alloc: Global, bytes: &[u8]) -> Result<(ValType, &[u8]), ReadRefusal> {
        value_type_at(bytes).ok_or(ReadRefusal::Malformed)
    }
}

impl Item for FuncType {
    ghost use Rattle.wasm_read.specs.ReadType.{func_type_at};

    ghost reads = { func_type_at };

    fn read_item(alloc: Global, bytes: &[u8]) -> Result<(FuncType, &[u8]), ReadRefusal> {
        let [0x60, rest @ ..] = bytes else {
            return Err(ReadRefusal::Malformed);
        };
        let (params, rest) = vector_at(alloc, rest)?;
        let (results, rest) = vector_at(alloc, rest)?;
        let read = FuncType { params, results };
        if read.results.len() > 1 {
            return Err(ReadRefusal::Malformed);
        }
        Ok((read, rest))
    }
}
