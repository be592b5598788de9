//! Instructions that hold no list and have no labels (Core Specification, section 5.4).

ghost use Rattle.std.specs.Prelude.{option_map, ◌≡◌};
ghost use Rattle.w4_defs.specs.Reading.{little_endian_at};
ghost use Rattle.std.specs.Int.{w32, w64};
ghost use Rattle.wasm_read.specs.ReadNumber.{signed_at, unsigned_at};
ghost use Rattle.wasm_read.specs.Combine.{headed_at};
ghost use Rattle.wasm_read.specs.ReadOperation.{always_at, access_at, access_of, constant_at, has_index, indexed_at, indices_at, is_between, is_float_access, is_float_code, numeric_of, operation_after, operation_at, plain_of, prefixed_at, prefixed_of, special_after};

use crate::instruction_table::{
    arith32, arith64, compare32, compare64, control, convert, indexed, load, store,
};
use crate::number::{bits32_at, bits64_at, index_at, long_word_at, word_at};
use w4_defs::{Basic, Op};

fn is_between(low: u8, high: u8, code: u8) -> bool
    ensures { result ≡ is_between low high code }
{
    low <= code && code <= high
}

/// Whether the code alone is a float instruction.
fn is_float_code(code: u8) -> bool
    ensures { result ≡ is_float_code code }
{
    matches!(code, 0x5b..=0x66 | 0x8b..=0xa6 | 0xa8..=0xab | 0xae..=0xbf)
}

/// Whether one index stands after the code.
fn has_index(code: u8) -> bool
    ensures { result ≡ has_index code }
{
    matches!(code, 0x0c | 0x0d | 0x10 | 0x20..=0x24)
}

/// Whether the code is that of a float access.
fn is_float_access(code: u8) -> bool
    ensures { result ≡ is_float_access code }
{
    matches!(code, 0x2a | 0x2b | 0x38 | 0x39)
}

/// The numeric instruction of a code after which nothing stands.
fn numeric_of(code: u8) -> Option<Basic>
    ensures { result ≡ numeric_of code }
{
    if let Some(basic) = compare32(code) {
        return Some(basic);
    }
    if let Some(basic) = compare64(code) {
        return Some(basic);
    }
    if let Some(basic) = arith32(code) {
        return Some(basic);
    }
    if let Some(basic) = arith64(code) {
        return Some(basic);
    }
    convert(code)
}

/// The instruction of a code after which nothing stands.
fn plain_of(code: u8) -> Option<Op>
    ensures { result ≡ plain_of code }
{
    if let Some(op) = control(code) {
        return Some(op);
    }
    Some(Op::Basic(numeric_of(code)?))
}

fn access_of(code: u8, align: u32, offset: u32) -> Option<Basic>
    ensures { result ≡ access_of code align offset }
{
    if is_float_access(code) {
        return Some(Basic::FloatMemory {
            code,
            align,
            offset,
        });
    }
    if let Some(basic) = load(code, align, offset) {
        return Some(basic);
    }
    store(code, align, offset)
}

fn indexed_at(code: u8, bytes: &[u8]) -> Option<(Op, &[u8])>
    ensures { option_map (λ x. (x.0, x.1.now)) result ≡ indexed_at code bytes.now }
{
    let (index, rest) = index_at(bytes)?;
    Some((indexed(code, index)?, rest))
}

fn indices_at(bytes: &[u8]) -> Option<(u32, u32, &[u8])>
    ensures { option_map (λ x. ((x.0, x.1), x.2.now)) result ≡ indices_at bytes.now }
{
    let (first, rest) = index_at(bytes)?;
    let (second, rest) = index_at(rest)?;
    Some((first, second, rest))
}

fn access_at(code: u8, bytes: &[u8]) -> Option<(Op, &[u8])>
    ensures { option_map (λ x. (x.0, x.1.now)) result ≡ access_at code bytes.now }
{
    let (align, offset, rest) = indices_at(bytes)?;
    Some((Op::Basic(access_of(code, align, offset)?), rest))
}

fn constant_at(code: u8, bytes: &[u8]) -> Option<(Op, &[u8])>
    ensures { option_map (λ x. (x.0, x.1.now)) result ≡ constant_at code bytes.now }
{
    if code == 0x41 {
        let (value, rest) = word_at(bytes)?;
        return Some((Op::Basic(Basic::I32Const { value }), rest));
    }
    if code == 0x42 {
        let (value, rest) = long_word_at(bytes)?;
        return Some((Op::Basic(Basic::I64Const { value }), rest));
    }
    if code == 0x43 {
        let (bits, rest) = bits32_at(bytes)?;
        return Some((Op::Basic(Basic::F32Const { bits }), rest));
    }
    let (bits, rest) = bits64_at(bytes)?;
    Some((Op::Basic(Basic::F64Const { bits }), rest))
}

/// The instruction of this number after the prefix fc.
fn prefixed_of(number: u32, bytes: &[u8]) -> Option<(Op, &[u8])>
    ensures { option_map (λ x. (x.0, x.1.now)) result ≡ prefixed_of number bytes.now }
{
    if number <= 7 {
        return Some((Op::Basic(Basic::FloatCut { code: number as u8 }), bytes));
    }
    if number == 10 {
        let [0, 0, rest @ ..] = bytes else {
            return None;
        };
        return Some((Op::Basic(Basic::MemoryCopy), rest));
    }
    if number == 11 {
        return zero_byte(Op::Basic(Basic::MemoryFill), bytes);
    }
    None
}

/// This instruction, where a zero byte stands.
fn zero_byte(op: Op, bytes: &[u8]) -> Option<(Op, &[u8])>
    ensures { option_map (λ x. (x.0, x.1.now)) result ≡ headed_at 0 (always_at op) bytes.now }
{
    let [0, rest @ ..] = bytes else {
        return None;
    };
    Some((op, rest))
}

fn special_after(code: u8, bytes: &[u8]) -> Option<(Op, &[u8])>
    ensures { option_map (λ x. (x.0, x.1.now)) result ≡ special_after code bytes.now }
{
    if code == 0x11 {
        let (signature, table, rest) = indices_at(bytes)?;
        return Some((Op::CallIndirect { signature, table }, rest));
    }
    if code == 0x3f {
        return zero_byte(Op::Basic(Basic::MemorySize), bytes);
    }
    if code == 0x40 {
        return zero_byte(Op::Basic(Basic::MemoryGrow), bytes);
    }
    if code == 0xfc {
        let (number, rest) = index_at(bytes)?;
        return prefixed_of(number, rest);
    }
    Some((plain_of(code)?, bytes))
}

/// An instruction that holds no list and has no labels, and the bytes after it.
#[tactic(auto, unfolding(crate::specs::ReadOperation::operation_at))]
pub fn operation_at(bytes: &[u8]) -> Option<(Op, &[u8])>
    ensures { option_map (λ x. (x.0, x.1.now)) result ≡ operation_at bytes.now }
{
    let [code, rest @ ..] = bytes else {
        return None;
    };
    let code = *code;
    if is_float_code(code) {
        return Some((Op::Basic(Basic::FloatPlain { code }), rest));
    }
    if has_index(code) {
        return indexed_at(code, rest);
    }
    if is_between(0x28, 0x3e, code) {
        return access_at(code, rest);
    }
    if is_between(0x41, 0x44, code) {
        return constant_at(code, rest);
    }
    special_after(code, rest)
}
