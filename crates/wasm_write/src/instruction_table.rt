//! How each instruction is encoded (Core Specification, section 5.4): control, parametric and variable
//! instructions by their codes, and those of numbers and of memory by the rows of the definition's table.

ghost use Rattle.std.specs.Prelude.{◌≡◌, []};
ghost use Rattle.w4_defs.specs.EncodeInstruction.{basic_bytes, shaped_bytes};
ghost use Rattle.wasm_write.specs.EncodingForms.{HasNoConstant, IsEncodedAs, head_bytes, inner_bytes};

use w4_defs::{Basic, Instr, Row, ValType};

/// An opcode, or the prefix of one, what stands after it, and the lists inside the instruction.
#[derive(Clone, Copy, Drop)]
pub enum Encoding<'a> {
    /// The opcode alone.
    Code(u8),
    /// Unsigned numbers after it.
    One(u8, u32),
    Two(u8, u32, u32),
    Three(u8, u32, u32, u32),
    /// A signed number after it, modulo 2^32 or 2^64.
    Signed32(u8, u32),
    Signed64(u8, u64),
    /// Four or eight bytes after it, the lowest first.
    Bits32(u8, u32),
    Bits64(u8, u64),
    /// A br_table: its labels and the default.
    Labels(&'a [u32], u32),
    /// A block type after it, and then one list.
    List(u8, Option<ValType>, &'a [Instr]),
    /// The block type of an `if`, and then two lists, parted by `else`.
    Choice(Option<ValType>, &'a [Instr], &'a [Instr]),
}

/// The encoding of an instruction.
#[tactic(auto, unfolding(w4_defs::specs::View::before, w4_defs::specs::EncodeInstruction::list_bytes))]
pub fn encoding_of(instr: &Instr) -> Encoding
    ensures { IsEncodedAs instr.now result }
{
    match instr {
        Instr::Unreachable => Encoding::Code(0x00),
        Instr::Nop => Encoding::Code(0x01),
        Instr::Block { result, inner } => Encoding::List(0x02, *result, inner),
        Instr::Loop { result, inner } => Encoding::List(0x03, *result, inner),
        Instr::If { result, yes, no } => match no {
            None => Encoding::List(0x04, *result, yes),
            Some(no) => Encoding::Choice(*result, yes, no),
        },
        Instr::Br { label } => Encoding::One(0x0c, *label),
        Instr::BrIf { label } => Encoding::One(0x0d, *label),
        Instr::BrTable { labels, last } => Encoding::Labels(labels, *last),
        Instr::Return => Encoding::Code(0x0f),
        Instr::Call { func } => Encoding::One(0x10, *func),
        Instr::CallIndirect { signature, table } => Encoding::Two(0x11, *signature, *table),
        Instr::Drop => Encoding::Code(0x1a),
        Instr::Select => Encoding::Code(0x1b),
        Instr::LocalGet { index } => Encoding::One(0x20, *index),
        Instr::LocalSet { index } => Encoding::One(0x21, *index),
        Instr::LocalTee { index } => Encoding::One(0x22, *index),
        Instr::GlobalGet { index } => Encoding::One(0x23, *index),
        Instr::GlobalSet { index } => Encoding::One(0x24, *index),
        Instr::Basic(basic) => basic_encoding(*basic),
    }
}

/// The encoding of a numeric or a memory instruction.
fn basic_encoding(basic: Basic) -> Encoding<'static>
    ensures bytes { head_bytes result ≡ basic_bytes basic }
    ensures lists { inner_bytes result ≡ [] }
{
    match basic {
        Basic::I32Const { value } => Encoding::Signed32(0x41, value),
        Basic::I64Const { value } => Encoding::Signed64(0x42, value),
        Basic::F32Const { bits } => Encoding::Bits32(0x43, bits),
        Basic::F64Const { bits } => Encoding::Bits64(0x44, bits),
        Basic::FloatMemory {
            code,
            align,
            offset,
        } => Encoding::Two(code, align, offset),
        Basic::FloatPlain { code } => Encoding::Code(code),
        Basic::FloatCut { code } => Encoding::One(0xfc, u32::from(code)),
        _ => {
            let (code, row) = basic.table_row();
            shaped_encoding(code, row)
        }
    }
}

/// The encoding of an instruction without constants and floats, by its code and its row.
#[tactic(auto, unfolding(w4_defs::specs::EncodeNumber::unsigned_bytes))]
fn shaped_encoding(code: u8, row: Row) -> Encoding<'static>
    requires { HasNoConstant row }
    ensures bytes { head_bytes result ≡ shaped_bytes code row }
    ensures lists { inner_bytes result ≡ [] }
{
    match row {
        Row::Const(_, _) => unreachable!(),
        Row::Load { align, offset, .. } => Encoding::Two(code, align, offset),
        Row::Store { align, offset, .. } => Encoding::Two(code, align, offset),
        Row::MemorySize => Encoding::One(code, 0),
        Row::MemoryGrow => Encoding::One(code, 0),
        Row::MemoryCopy => Encoding::Three(code, 10, 0, 0),
        Row::MemoryFill => Encoding::Two(code, 11, 0),
        _ => Encoding::Code(code),
    }
}
