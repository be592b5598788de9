//! Lists of instructions as they are written, of which no clause says that they are had: one instruction of
//! each form, with the bytes of the standard.

use std::alloc::Global;
use std::test::Fail;
use w4_defs::{Basic, Instr, OutOfMemory, ValType};
use wasm_write::expression::expression;

/// Instructions that hold lists.
fn holding_lists(alloc: Global) -> Result<Vec<Instr>, OutOfMemory> {
    let either = Instr::If {
        result: Some(ValType::I64),
        yes: vec![in alloc; Instr::Nop]?,
        no: Some(vec![in alloc; Instr::Drop]?),
    };
    let only = Instr::If {
        result: None,
        yes: vec![in alloc; Instr::Return]?,
        no: None,
    };
    let again = Instr::Loop {
        result: None,
        inner: vec![in alloc; either, only]?,
    };
    Ok(vec![in alloc;
        Instr::Block {
            result: Some(ValType::I32),
            inner: vec![in alloc; again]?,
        },
    ]?)
}

#[test]
fn instructions_may_hold_lists(rt: HostRuntime) -> Result<(), Fail> {
    let list = holding_lists(rt.alloc())?;
    let mut bytes = Vec::new(rt.alloc());
    expression(rt.alloc(), &mut bytes, &list)?;
    let wanted = b"\x02\x7f\x03\x40\x04\x7e\x01\x05\x1a\x0b\x04\x40\x0f\x0b\x0b\x0b\x0b";
    assert_eq!(rt; bytes.as_slice(), wanted.as_slice());
    Ok(())
}

#[test]
fn instructions_have_their_numbers(rt: HostRuntime) -> Result<(), Fail> {
    let labels = vec![in rt.alloc(); 0, 128]?;
    let list = [
        Instr::BrTable { labels, last: 2 },
        Instr::CallIndirect {
            signature: 3,
            table: 0,
        },
        Instr::LocalTee { index: u32::MAX },
        Instr::Basic(Basic::I32Const { value: u32::MAX }),
        Instr::Basic(Basic::I64Const { value: 1 << 63 }),
        Instr::Basic(Basic::F32Const { bits: 0x3f80_0000 }),
        Instr::Basic(Basic::F64Const { bits: 1 << 63 }),
        Instr::Basic(Basic::I64Load32U {
            align: 1,
            offset: 130,
        }),
        Instr::Basic(Basic::MemoryCopy),
        Instr::Basic(Basic::FloatCut { code: 7 }),
    ];
    let mut bytes = Vec::new(rt.alloc());
    expression(rt.alloc(), &mut bytes, &list)?;
    let wanted = b"\x0e\x02\x00\x80\x01\x02\x11\x03\x00\x22\xff\xff\xff\xff\x0f\x41\x7f\
        \x42\x80\x80\x80\x80\x80\x80\x80\x80\x80\x7f\x43\x00\x00\x80\x3f\x44\x00\x00\x00\x00\x00\x00\x00\x80\
        \x35\x01\x82\x01\xfc\x0a\x00\x00\xfc\x07\x0b";
    assert_eq!(rt; bytes.as_slice(), wanted.as_slice());
    Ok(())
}
