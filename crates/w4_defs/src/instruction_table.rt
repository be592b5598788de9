//! The table of numeric and memory instructions (Core Specification, sections 2.4.1, 2.4.4 and 5.4, with the
//! integer additions of Core 2.0): the code and the row of each, as `specs/InstructionTable.antt` has them, a
//! function for each part of the standard's table.

ghost use Rattle.std.specs.Prelude.{None, Some, ◌≡◌, ◌≢◌};
ghost use Rattle.w4_defs.specs.InstructionTable.{row, table_row};
ghost use Rattle.w4_defs.specs.TableParts.{IsNumericRow, type_of_operator};
ghost use Rattle.w4_defs.specs.declared.instruction_table.IntegerType.TheVariants as integer;
ghost use Rattle.w4_defs.specs.declared.instruction_table.Row.TheVariants as row_of;

use crate::basic::Basic;
use crate::integer::{Binary, Compare, Unary};
use IntegerType::{I32, I64};
use Signedness::{Signed, Unsigned};

/// An integer type (`inn` in the standard).
#[derive(Clone, Copy, PartialEq, Eq, Debug)]
pub enum IntegerType {
    I32,
    I64,
}

/// How a number of few bits is read as one of more (`sx` in the standard).
#[derive(Clone, Copy, PartialEq, Eq, Debug)]
pub enum Signedness {
    Unsigned,
    Signed,
}

/// The shape of an instruction, with its types, its width and the integer operation that it does.
#[derive(Clone, Copy, PartialEq, Eq, Debug)]
pub enum Row {
    /// `inn.const`: a number below 2^nn.
    Const(IntegerType, u64),
    /// `inn.eqz`, the one test.
    Test(IntegerType),
    /// `inn.relop`.
    Compare(IntegerType, Compare),
    /// `inn.unop`.
    Unary(IntegerType, Unary),
    /// `inn.binop`.
    Binary(IntegerType, Binary),
    /// `i32.wrap_i64`.
    Wrap,
    /// `i64.extend_i32_sx`.
    Extend(Signedness),
    /// `inn.extendN_s`, by N.
    ExtendWithin(IntegerType, u32),
    /// `inn.load` and `inn.loadN_sx`, by N / 8; a load of the whole width is `Unsigned`.
    Load {
        number: IntegerType,
        bytes: u32,
        sign: Signedness,
        align: u32,
        offset: u32,
    },
    /// `inn.store` and `inn.storeN`, by N / 8.
    Store {
        number: IntegerType,
        bytes: u32,
        align: u32,
        offset: u32,
    },
    MemorySize,
    MemoryGrow,
    MemoryCopy,
    MemoryFill,
    /// Any instruction of floats.
    Float,
}

impl Basic {
    /// The code, which is the prefix where it is fc, and the row.
    pub fn table_row(self) -> (u8, Row)
        ensures { result ≡ table_row self }
    {
        match self {
            Basic::I32Load { align, offset } => (0x28, load(I32, 4, Unsigned, align, offset)),
            Basic::I64Load { align, offset } => (0x29, load(I64, 8, Unsigned, align, offset)),
            Basic::I32Load8S { align, offset } => (0x2c, load(I32, 1, Signed, align, offset)),
            Basic::I32Load8U { align, offset } => (0x2d, load(I32, 1, Unsigned, align, offset)),
            Basic::I32Load16S { align, offset } => (0x2e, load(I32, 2, Signed, align, offset)),
            Basic::I32Load16U { align, offset } => (0x2f, load(I32, 2, Unsigned, align, offset)),
            Basic::I64Load8S { align, offset } => (0x30, load(I64, 1, Signed, align, offset)),
            Basic::I64Load8U { align, offset } => (0x31, load(I64, 1, Unsigned, align, offset)),
            Basic::I64Load16S { align, offset } => (0x32, load(I64, 2, Signed, align, offset)),
            Basic::I64Load16U { align, offset } => (0x33, load(I64, 2, Unsigned, align, offset)),
            Basic::I64Load32S { align, offset } => (0x34, load(I64, 4, Signed, align, offset)),
            Basic::I64Load32U { align, offset } => (0x35, load(I64, 4, Unsigned, align, offset)),
            Basic::I32Store { align, offset } => (0x36, store(I32, 4, align, offset)),
            Basic::I64Store { align, offset } => (0x37, store(I64, 8, align, offset)),
            Basic::I32Store8 { align, offset } => (0x3a, store(I32, 1, align, offset)),
            Basic::I32Store16 { align, offset } => (0x3b, store(I32, 2, align, offset)),
            Basic::I64Store8 { align, offset } => (0x3c, store(I64, 1, align, offset)),
            Basic::I64Store16 { align, offset } => (0x3d, store(I64, 2, align, offset)),
            Basic::I64Store32 { align, offset } => (0x3e, store(I64, 4, align, offset)),
            Basic::MemorySize => (0x3f, Row::MemorySize),
            Basic::MemoryGrow => (0x40, Row::MemoryGrow),
            Basic::MemoryCopy => (0xfc, Row::MemoryCopy),
            Basic::MemoryFill => (0xfc, Row::MemoryFill),
            _ => self.numeric_row(),
        }
    }

    /// The row of a numeric instruction, or of any of floats.
    fn numeric_row(self) -> (u8, Row)
        requires { IsNumericRow (row self) }
        ensures { result ≡ table_row self }
    {
        match self {
            Basic::I32Const { value } => (0x41, Row::Const(I32, u64::from(value))),
            Basic::I64Const { value } => (0x42, Row::Const(I64, value)),
            Basic::I32WrapI64 => (0xa7, Row::Wrap),
            Basic::I64ExtendI32S => (0xac, Row::Extend(Signed)),
            Basic::I64ExtendI32U => (0xad, Row::Extend(Unsigned)),
            Basic::I32Extend8S => (0xc0, Row::ExtendWithin(I32, 8)),
            Basic::I32Extend16S => (0xc1, Row::ExtendWithin(I32, 16)),
            Basic::I64Extend8S => (0xc2, Row::ExtendWithin(I64, 8)),
            Basic::I64Extend16S => (0xc3, Row::ExtendWithin(I64, 16)),
            Basic::I64Extend32S => (0xc4, Row::ExtendWithin(I64, 32)),
            Basic::F32Const { .. } => (0x43, Row::Float),
            Basic::F64Const { .. } => (0x44, Row::Float),
            Basic::FloatMemory { code, .. } => (code, Row::Float),
            Basic::FloatPlain { code } => (code, Row::Float),
            Basic::FloatCut { .. } => (0xfc, Row::Float),
            _ => self.operator_row(),
        }
    }

    /// The row of a testop, relop, unop or binop.
    fn operator_row(self) -> (u8, Row)
        requires { type_of_operator (row self) ≢ None }
        ensures { result ≡ table_row self }
    {
        match self {
            Basic::I32Eqz => (0x45, Row::Test(I32)),
            Basic::I32Eq => (0x46, Row::Compare(I32, Compare::Eq)),
            Basic::I32Ne => (0x47, Row::Compare(I32, Compare::Ne)),
            Basic::I32LtS => (0x48, Row::Compare(I32, Compare::LtS)),
            Basic::I32LtU => (0x49, Row::Compare(I32, Compare::LtU)),
            Basic::I32GtS => (0x4a, Row::Compare(I32, Compare::GtS)),
            Basic::I32GtU => (0x4b, Row::Compare(I32, Compare::GtU)),
            Basic::I32LeS => (0x4c, Row::Compare(I32, Compare::LeS)),
            Basic::I32LeU => (0x4d, Row::Compare(I32, Compare::LeU)),
            Basic::I32GeS => (0x4e, Row::Compare(I32, Compare::GeS)),
            Basic::I32GeU => (0x4f, Row::Compare(I32, Compare::GeU)),
            Basic::I32Clz => (0x67, Row::Unary(I32, Unary::Clz)),
            Basic::I32Ctz => (0x68, Row::Unary(I32, Unary::Ctz)),
            Basic::I32Popcnt => (0x69, Row::Unary(I32, Unary::Popcnt)),
            Basic::I32Add => (0x6a, Row::Binary(I32, Binary::Add)),
            Basic::I32Sub => (0x6b, Row::Binary(I32, Binary::Sub)),
            Basic::I32Mul => (0x6c, Row::Binary(I32, Binary::Mul)),
            Basic::I32DivS => (0x6d, Row::Binary(I32, Binary::DivS)),
            Basic::I32DivU => (0x6e, Row::Binary(I32, Binary::DivU)),
            Basic::I32RemS => (0x6f, Row::Binary(I32, Binary::RemS)),
            Basic::I32RemU => (0x70, Row::Binary(I32, Binary::RemU)),
            Basic::I32And => (0x71, Row::Binary(I32, Binary::And)),
            Basic::I32Or => (0x72, Row::Binary(I32, Binary::Or)),
            Basic::I32Xor => (0x73, Row::Binary(I32, Binary::Xor)),
            Basic::I32Shl => (0x74, Row::Binary(I32, Binary::Shl)),
            Basic::I32ShrS => (0x75, Row::Binary(I32, Binary::ShrS)),
            Basic::I32ShrU => (0x76, Row::Binary(I32, Binary::ShrU)),
            Basic::I32Rotl => (0x77, Row::Binary(I32, Binary::Rotl)),
            Basic::I32Rotr => (0x78, Row::Binary(I32, Binary::Rotr)),
            _ => self.i64_operator_row(),
        }
    }

    /// The row of an operator of i64.
    fn i64_operator_row(self) -> (u8, Row)
        requires { type_of_operator (row self) ≡ Some integer.I64 }
        ensures { result ≡ table_row self }
    {
        match self {
            Basic::I64Eqz => (0x50, Row::Test(I64)),
            Basic::I64Eq => (0x51, Row::Compare(I64, Compare::Eq)),
            Basic::I64Ne => (0x52, Row::Compare(I64, Compare::Ne)),
            Basic::I64LtS => (0x53, Row::Compare(I64, Compare::LtS)),
            Basic::I64LtU => (0x54, Row::Compare(I64, Compare::LtU)),
            Basic::I64GtS => (0x55, Row::Compare(I64, Compare::GtS)),
            Basic::I64GtU => (0x56, Row::Compare(I64, Compare::GtU)),
            Basic::I64LeS => (0x57, Row::Compare(I64, Compare::LeS)),
            Basic::I64LeU => (0x58, Row::Compare(I64, Compare::LeU)),
            Basic::I64GeS => (0x59, Row::Compare(I64, Compare::GeS)),
            Basic::I64GeU => (0x5a, Row::Compare(I64, Compare::GeU)),
            Basic::I64Clz => (0x79, Row::Unary(I64, Unary::Clz)),
            Basic::I64Ctz => (0x7a, Row::Unary(I64, Unary::Ctz)),
            Basic::I64Popcnt => (0x7b, Row::Unary(I64, Unary::Popcnt)),
            Basic::I64Add => (0x7c, Row::Binary(I64, Binary::Add)),
            Basic::I64Sub => (0x7d, Row::Binary(I64, Binary::Sub)),
            Basic::I64Mul => (0x7e, Row::Binary(I64, Binary::Mul)),
            Basic::I64DivS => (0x7f, Row::Binary(I64, Binary::DivS)),
            Basic::I64DivU => (0x80, Row::Binary(I64, Binary::DivU)),
            Basic::I64RemS => (0x81, Row::Binary(I64, Binary::RemS)),
            Basic::I64RemU => (0x82, Row::Binary(I64, Binary::RemU)),
            Basic::I64And => (0x83, Row::Binary(I64, Binary::And)),
            Basic::I64Or => (0x84, Row::Binary(I64, Binary::Or)),
            Basic::I64Xor => (0x85, Row::Binary(I64, Binary::Xor)),
            Basic::I64Shl => (0x86, Row::Binary(I64, Binary::Shl)),
            Basic::I64ShrS => (0x87, Row::Binary(I64, Binary::ShrS)),
            Basic::I64ShrU => (0x88, Row::Binary(I64, Binary::ShrU)),
            Basic::I64Rotl => (0x89, Row::Binary(I64, Binary::Rotl)),
            Basic::I64Rotr => (0x8a, Row::Binary(I64, Binary::Rotr)),
            _ => unreachable!(),
        }
    }
}

fn load(number: IntegerType, bytes: u32, sign: Signedness, align: u32, offset: u32) -> Row
    ensures { result ≡ row_of.Load number bytes sign align offset }
{
    Row::Load {
        number,
        bytes,
        sign,
        align,
        offset,
    }
}

fn store(number: IntegerType, bytes: u32, align: u32, offset: u32) -> Row
    ensures { result ≡ row_of.Store number bytes align offset }
{
    Row::Store {
        number,
        bytes,
        align,
        offset,
    }
}
