//! The instruction table (Core Specification, section 5.4), a function for each of its groups: the
//! instruction of a code, with what was read after the code.

ghost use Rattle.std.specs.Prelude.{◌≡◌};
ghost use Rattle.wasm_read.specs.InstructionTable.{arith32, arith64, compare32, compare64, control_rows, conversions, index_rows, loads, rows, stores};
ghost use Rattle.wasm_read.specs.Reader.{row_of};

use w4_defs::{Basic, Op};

/// Control and parametric instructions without anything after the code.
pub fn control(code: u8) -> Option<Op>
    ensures { result ≡ row_of control_rows code }
{
    match code {
        0x00 => Some(Op::Unreachable),
        0x01 => Some(Op::Nop),
        0x0f => Some(Op::Return),
        0x1a => Some(Op::Drop),
        0x1b => Some(Op::Select),
        _ => None,
    }
}

/// Comparisons of i32.
pub fn compare32(code: u8) -> Option<Basic>
    ensures { result ≡ row_of (rows compare32) code }
{
    match code {
        0x45 => Some(Basic::I32Eqz),
        0x46 => Some(Basic::I32Eq),
        0x47 => Some(Basic::I32Ne),
        0x48 => Some(Basic::I32LtS),
        0x49 => Some(Basic::I32LtU),
        0x4a => Some(Basic::I32GtS),
        0x4b => Some(Basic::I32GtU),
        0x4c => Some(Basic::I32LeS),
        0x4d => Some(Basic::I32LeU),
        0x4e => Some(Basic::I32GeS),
        0x4f => Some(Basic::I32GeU),
        _ => None,
    }
}

/// Comparisons of i64.
pub fn compare64(code: u8) -> Option<Basic>
    ensures { result ≡ row_of (rows compare64) code }
{
    match code {
        0x50 => Some(Basic::I64Eqz),
        0x51 => Some(Basic::I64Eq),
        0x52 => Some(Basic::I64Ne),
        0x53 => Some(Basic::I64LtS),
        0x54 => Some(Basic::I64LtU),
        0x55 => Some(Basic::I64GtS),
        0x56 => Some(Basic::I64GtU),
        0x57 => Some(Basic::I64LeS),
        0x58 => Some(Basic::I64LeU),
        0x59 => Some(Basic::I64GeS),
        0x5a => Some(Basic::I64GeU),
        _ => None,
    }
}

/// Arithmetic of i32.
pub fn arith32(code: u8) -> Option<Basic>
    ensures { result ≡ row_of (rows arith32) code }
{
    match code {
        0x67 => Some(Basic::I32Clz),
        0x68 => Some(Basic::I32Ctz),
        0x69 => Some(Basic::I32Popcnt),
        0x6a => Some(Basic::I32Add),
        0x6b => Some(Basic::I32Sub),
        0x6c => Some(Basic::I32Mul),
        0x6d => Some(Basic::I32DivS),
        0x6e => Some(Basic::I32DivU),
        0x6f => Some(Basic::I32RemS),
        0x70 => Some(Basic::I32RemU),
        0x71 => Some(Basic::I32And),
        0x72 => Some(Basic::I32Or),
        0x73 => Some(Basic::I32Xor),
        0x74 => Some(Basic::I32Shl),
        0x75 => Some(Basic::I32ShrS),
        0x76 => Some(Basic::I32ShrU),
        0x77 => Some(Basic::I32Rotl),
        0x78 => Some(Basic::I32Rotr),
        _ => None,
    }
}

/// Arithmetic of i64.
pub fn arith64(code: u8) -> Option<Basic>
    ensures { result ≡ row_of (rows arith64) code }
{
    match code {
        0x79 => Some(Basic::I64Clz),
        0x7a => Some(Basic::I64Ctz),
        0x7b => Some(Basic::I64Popcnt),
        0x7c => Some(Basic::I64Add),
        0x7d => Some(Basic::I64Sub),
        0x7e => Some(Basic::I64Mul),
        0x7f => Some(Basic::I64DivS),
        0x80 => Some(Basic::I64DivU),
        0x81 => Some(Basic::I64RemS),
        0x82 => Some(Basic::I64RemU),
        0x83 => Some(Basic::I64And),
        0x84 => Some(Basic::I64Or),
        0x85 => Some(Basic::I64Xor),
        0x86 => Some(Basic::I64Shl),
        0x87 => Some(Basic::I64ShrS),
        0x88 => Some(Basic::I64ShrU),
        0x89 => Some(Basic::I64Rotl),
        0x8a => Some(Basic::I64Rotr),
        _ => None,
    }
}

/// Conversions between integers, and sign extensions.
pub fn convert(code: u8) -> Option<Basic>
    ensures { result ≡ row_of (rows conversions) code }
{
    match code {
        0xa7 => Some(Basic::I32WrapI64),
        0xac => Some(Basic::I64ExtendI32S),
        0xad => Some(Basic::I64ExtendI32U),
        0xc0 => Some(Basic::I32Extend8S),
        0xc1 => Some(Basic::I32Extend16S),
        0xc2 => Some(Basic::I64Extend8S),
        0xc3 => Some(Basic::I64Extend16S),
        0xc4 => Some(Basic::I64Extend32S),
        _ => None,
    }
}

/// Instructions with one index.
pub fn indexed(code: u8, index: u32) -> Option<Op>
    ensures { result ≡ row_of (index_rows index) code }
{
    match code {
        0x0c => Some(Op::Br { label: index }),
        0x0d => Some(Op::BrIf { label: index }),
        0x10 => Some(Op::Call { func: index }),
        0x20 => Some(Op::LocalGet { index }),
        0x21 => Some(Op::LocalSet { index }),
        0x22 => Some(Op::LocalTee { index }),
        0x23 => Some(Op::GlobalGet { index }),
        0x24 => Some(Op::GlobalSet { index }),
        _ => None,
    }
}

/// Loads, by the exponent of their alignment and their offset.
pub fn load(code: u8, align: u32, offset: u32) -> Option<Basic>
    ensures { result ≡ row_of (rows (loads align offset)) code }
{
    match code {
        0x28 => Some(Basic::I32Load { align, offset }),
        0x29 => Some(Basic::I64Load { align, offset }),
        0x2c => Some(Basic::I32Load8S { align, offset }),
        0x2d => Some(Basic::I32Load8U { align, offset }),
        0x2e => Some(Basic::I32Load16S { align, offset }),
        0x2f => Some(Basic::I32Load16U { align, offset }),
        0x30 => Some(Basic::I64Load8S { align, offset }),
        0x31 => Some(Basic::I64Load8U { align, offset }),
        0x32 => Some(Basic::I64Load16S { align, offset }),
        0x33 => Some(Basic::I64Load16U { align, offset }),
        0x34 => Some(Basic::I64Load32S { align, offset }),
        0x35 => Some(Basic::I64Load32U { align, offset }),
        _ => None,
    }
}

/// Stores, by the exponent of their alignment and their offset.
pub fn store(code: u8, align: u32, offset: u32) -> Option<Basic>
    ensures { result ≡ row_of (rows (stores align offset)) code }
{
    match code {
        0x36 => Some(Basic::I32Store { align, offset }),
        0x37 => Some(Basic::I64Store { align, offset }),
        0x3a => Some(Basic::I32Store8 { align, offset }),
        0x3b => Some(Basic::I32Store16 { align, offset }),
        0x3c => Some(Basic::I64Store8 { align, offset }),
        0x3d => Some(Basic::I64Store16 { align, offset }),
        0x3e => Some(Basic::I64Store32 { align, offset }),
        _ => None,
    }
}
