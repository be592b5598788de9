//! Expressions (Core Specification, section 5.4.9). The lists that are still to be written stand in a list of
//! their own, the innermost last, so that deeply nested instructions take memory and no stack.

ghost use Rattle.std.specs.Prelude.{IfOk, ◌++◌, ◌∷◌, ◌≡◌};
ghost use Rattle.w4_defs.specs.View.{expression_of};
ghost use Rattle.w4_defs.specs.EncodeInstruction.{expression_bytes};
ghost use Rattle.w4_defs.specs.EncodeNumber.{unsigned_bytes};
ghost use Rattle.wasm_write.specs.EncodingForms.{head_bytes, inner_bytes};
ghost use Rattle.wasm_write.specs.OpenLists.{open_bytes};

use crate::instruction_table::{Encoding, encoding_of};
use crate::item::{byte, bytes, vector};
use crate::number::{signed, unsigned};
use crate::value_type::block_type_code;
use std::alloc::Global;
use w4_defs::{Instr, OutOfMemory};

/// What is still to be written of a list, and the byte that closes it.
#[derive(Clone, Copy, Drop)]
pub struct OpenList<'a> {
    pub rest: &'a [Instr],
    pub close: u8,
}

/// The byte that ends a list, and the one that parts the two lists of an `if`.
const END: u8 = 0x0b;

const ELSE: u8 = 0x05;

/// Appends an opcode and an unsigned number.
fn one_number(out: &mut Vec<u8>, code: u8, first: u32) -> Result<(), OutOfMemory>
    ensures { IfOk result (λ _. out.new.items ≡ out.old.items ++ code ∷ unsigned_bytes first) }
{
    byte(out, code)?;
    unsigned(out, u64::from(first))
}

/// Appends an opcode and two unsigned numbers.
fn two_numbers(out: &mut Vec<u8>, code: u8, first: u32, second: u32) -> Result<(), OutOfMemory>
    ensures { IfOk result (λ _.
        out.new.items ≡ out.old.items ++ code ∷ unsigned_bytes first ++ unsigned_bytes second) }
{
    one_number(out, code, first)?;
    unsigned(out, u64::from(second))
}

/// Appends an opcode and bytes.
fn code_and_bytes(out: &mut Vec<u8>, code: u8, after: &[u8]) -> Result<(), OutOfMemory>
    ensures { IfOk result (λ _. out.new.items ≡ out.old.items ++ code ∷ after.now) }
{
    byte(out, code)?;
    bytes(out, after)
}

/// Appends what stands before the lists inside an instruction.
fn head(alloc: Global, out: &mut Vec<u8>, encoding: Encoding) -> Result<(), OutOfMemory>
    ensures { IfOk result (λ _. out.new.items ≡ out.old.items ++ head_bytes encoding.entry) }
{
    match encoding {
        Encoding::Code(code) => byte(out, code),
        Encoding::One(code, first) => one_number(out, code, first),
        Encoding::Two(code, first, second) => two_numbers(out, code, first, second),
        Encoding::Three(code, first, second, third) => {
            two_numbers(out, code, first, second)?;
            unsigned(out, u64::from(third))
        }
        Encoding::Signed32(code, value) => {
            byte(out, code)?;
            signed(out, 32, u64::from(value))
        }
        Encoding::Signed64(code, value) => {
            byte(out, code)?;
            signed(out, 64, value)
        }
        Encoding::Bits32(code, bits) => code_and_bytes(out, code, &bits.to_le_bytes()),
        Encoding::Bits64(code, bits) => code_and_bytes(out, code, &bits.to_le_bytes()),
        Encoding::Labels(labels, last) => {
            byte(out, 0x0e)?;
            vector(alloc, out, labels)?;
            unsigned(out, u64::from(last))
        }
        Encoding::List(code, result, _) => code_and_bytes(out, code, &[block_type_code(result)]),
        Encoding::Choice(result, _, _) => code_and_bytes(out, 0x04, &[block_type_code(result)]),
    }
}

/// Opens the lists inside an instruction, the first of them innermost.
fn open_inner<'a>(lists: &mut Vec<OpenList<'a>>, encoding: Encoding<'a>) -> Result<(), OutOfMemory>
    ensures { IfOk result (λ _.
        open_bytes lists.new.items ≡ inner_bytes encoding.entry ++ open_bytes lists.old.items) }
{
    match encoding {
        Encoding::List(_, _, rest) => {
            lists.push(OpenList { rest, close: END })?;
            Ok(())
        }
        Encoding::Choice(_, first, second) => {
            lists.push(OpenList {
                rest: second,
                close: END,
            })?;
            lists.push(OpenList {
                rest: first,
                close: ELSE,
            })?;
            Ok(())
        }
        _ => Ok(()),
    }
}

/// Appends a list of instructions and the byte that ends it.
pub fn expression(alloc: Global, out: &mut Vec<u8>, list: &[Instr]) -> Result<(), OutOfMemory>
    ensures { IfOk result (λ _. out.new.items ≡ out.old.items ++ expression_bytes (expression_of list.now)) }
{
    let mut lists = Vec::new(alloc);
    lists.push(OpenList {
        rest: list,
        close: END,
    })?;
    while let Some(OpenList { rest, close }) = lists.pop() {
        let [first, others @ ..] = rest else {
            byte(out, close)?;
            continue;
        };
        lists.push(OpenList {
            rest: others,
            close,
        })?;
        let encoding = encoding_of(first);
        head(alloc, out, encoding)?;
        open_inner(&mut lists, encoding)?;
    }
    Ok(())
}
