//! Modules as they are written, of which no clause says that they are had: one with a section of each kind,
//! with the bytes of the standard, and deeply nested blocks.
#![tactic(auto, unfolding(w4_defs::specs::View::before))]

ghost use Rattle.std.specs.Prelude.{IfOk, codes, ◌≡◌};
ghost use Rattle.w4_defs.specs.View.{expression_of};
ghost use Rattle.w4_unit_tests.specs.WriteModules.{all_sections, constant_list};

use std::alloc::Global;
use std::test::Fail;
use w4_defs::{
    Basic, Body, Element, Export, ExportKind, FuncType, GlobalEntry, GlobalType, ImportEntry,
    ImportKind, Instr, Limits, Locals, Module, Segment, ValType,
};
use wasm_write::item::section;
use wasm_write::write_module;

/// Drops the blocks from the outermost on: the drop of a nested list takes stack.
fn take_apart(bodies: &mut Vec<Body>) {
    let Some(mut body) = bodies.pop() else {
        return;
    };
    for _ in 0..100_000 {
        if let Some(Instr::Block { inner, .. }) = body.list.pop() {
            body.list = inner;
        }
    }
}

#[test]
fn blocks_may_be_nested_deeply(rt: HostRuntime) -> Result<(), Fail> {
    let mut list = Vec::new(rt.alloc());
    for _ in 0..100_000 {
        let inner = list;
        list = Vec::new(rt.alloc());
        list.push(Instr::Block {
            result: None,
            inner,
        })?;
    }
    let runs = Vec::new(rt.alloc());
    let mut bodies = vec![in rt.alloc(); Body { runs, list }]?;
    let mut code = Vec::new(rt.alloc());
    section(rt.alloc(), &mut code, 10, bodies.as_slice())?;
    let mut expected = Vec::from_slice(rt.alloc(), b"\x0a\xe6\xa7\x12\x01\xe2\xa7\x12\0")?;
    for _ in 0..100_000 {
        expected.extend_from_slice(b"\x02\x40")?;
    }
    for _ in 0..100_001 {
        expected.push(0x0b)?;
    }
    assert_eq!(rt; code.as_slice(), expected.as_slice());
    take_apart(&mut bodies);
    Ok(())
}

fn import(alloc: Global, name: &[u8], kind: ImportKind) -> Result<ImportEntry, Fail>
    ensures { IfOk result (λ i. i ≡ record { module_name = codes "m"; name = name.now; kind = kind }) }
{
    let module = Vec::from_slice(alloc, b"m")?;
    let name = Vec::from_slice(alloc, name)?;
    Ok(ImportEntry { module, name, kind })
}

fn export(alloc: Global, name: &[u8], kind: ExportKind) -> Result<Export, Fail>
    ensures { IfOk result (λ e. e ≡ record { name = name.now; kind = kind; index = 0 }) }
{
    Ok(Export {
        name: Vec::from_slice(alloc, name)?,
        kind,
        index: 0,
    })
}

const fn sizes(least: u32, greatest: Option<u32>) -> Limits
    ensures { result ≡ record { least = least; greatest = greatest } }
{
    Limits { least, greatest }
}

fn constant(alloc: Global, value: u32) -> Result<Vec<Instr>, Fail>
    ensures { IfOk result (λ list. expression_of list.items ≡ constant_list value) }
{
    Ok(vec![in alloc; Instr::Basic(Basic::I32Const { value })]?)
}

fn types(alloc: Global) -> Result<Vec<FuncType>, Fail>
    ensures { IfOk result (λ v. v.items ≡ all_sections.types) }
{
    let some = FuncType {
        params: Vec::from_slice(alloc, &[ValType::I32, ValType::I64])?,
        results: Vec::from_slice(alloc, &[ValType::F64])?,
    };
    let none = FuncType {
        params: Vec::new(alloc),
        results: Vec::new(alloc),
    };
    Ok(vec![in alloc; some, none]?)
}

fn imports(alloc: Global) -> Result<Vec<ImportEntry>, Fail>
    ensures { IfOk result (λ v. v.items ≡ all_sections.imports) }
{
    let limits = sizes(1, None);
    let pages = ImportKind::Memory {
        limits: sizes(1, Some(2)),
    };
    let global = GlobalType {
        value: ValType::I64,
        mutable: false,
    };
    Ok(vec![in alloc;
        import(alloc, b"f", ImportKind::Func { index: 1 })?,
        import(alloc, b"t", ImportKind::Table { limits })?,
        import(alloc, b"\xc3\xa9", pages)?,
        import(alloc, b"g", ImportKind::Global { global })?,
    ]?)
}

fn globals(alloc: Global) -> Result<Vec<GlobalEntry>, Fail>
    ensures { IfOk result (λ v. v.items ≡ all_sections.globals) }
{
    let global = GlobalType {
        value: ValType::I32,
        mutable: true,
    };
    let first = constant(alloc, 42)?;
    Ok(vec![in alloc; GlobalEntry { global, first }]?)
}

fn exports(alloc: Global) -> Result<Vec<Export>, Fail>
    ensures { IfOk result (λ v. v.items ≡ all_sections.exports) }
{
    Ok(vec![in alloc;
        export(alloc, b"f", ExportKind::Func)?,
        export(alloc, b"t", ExportKind::Table)?,
        export(alloc, b"m", ExportKind::Memory)?,
        export(alloc, b"g", ExportKind::Global)?,
    ]?)
}

fn elements(alloc: Global) -> Result<Vec<Element>, Fail>
    ensures { IfOk result (λ v. v.items ≡ all_sections.elements) }
{
    let element = Element {
        table: 0,
        offset: constant(alloc, 0)?,
        functions: Vec::from_slice(alloc, &[0, 1])?,
    };
    Ok(vec![in alloc; element]?)
}

fn bodies(alloc: Global) -> Result<Vec<Body>, Fail>
    ensures { IfOk result (λ v. v.items ≡ all_sections.bodies) }
{
    let words = Locals {
        count: 2,
        kind: ValType::I32,
    };
    let double = Locals {
        count: 1,
        kind: ValType::F64,
    };
    let runs = Vec::from_slice(alloc, &[words, double])?;
    let list = Vec::new(alloc);
    Ok(vec![in alloc; Body { runs, list }]?)
}

fn segments(alloc: Global) -> Result<Vec<Segment>, Fail>
    ensures { IfOk result (λ v. v.items ≡ all_sections.segments) }
{
    let segment = Segment {
        memory: 0,
        offset: constant(alloc, 8)?,
        bytes: Vec::from_slice(alloc, b"abc")?,
    };
    Ok(vec![in alloc; segment]?)
}

/// A module with all sections.
fn module_of_all_sections(alloc: Global) -> Result<Module, Fail>
    ensures { IfOk result (λ m. m ≡ all_sections) }
{
    Ok(Module {
        types: types(alloc)?,
        imports: imports(alloc)?,
        functions: Vec::from_slice(alloc, &[1])?,
        tables: Vec::from_slice(alloc, &[sizes(0, Some(128))])?,
        memories: Vec::from_slice(alloc, &[sizes(1, None)])?,
        globals: globals(alloc)?,
        exports: exports(alloc)?,
        start: Some(1),
        elements: elements(alloc)?,
        bodies: bodies(alloc)?,
        segments: segments(alloc)?,
    })
}

/// The bytes of that module.
fn bytes_of_all_sections(alloc: Global) -> Result<Vec<u8>, Fail> {
    let module = module_of_all_sections(alloc)?;
    let bytes = write_module(alloc, &module).map_err(|_| "no memory")?;
    Ok(bytes)
}

#[test]
fn sections_stand_in_the_order_of_the_standard(rt: HostRuntime) -> Result<(), Fail> {
    let bytes = bytes_of_all_sections(rt.alloc())?;
    let expected = b"\0asm\x01\0\0\0\
        \x01\x0a\x02\x60\x02\x7f\x7e\x01\x7c\x60\0\0\
        \x02\x1f\x04\x01m\x01f\0\x01\x01m\x01t\x01\x70\0\x01\
        \x01m\x02\xc3\xa9\x02\x01\x01\x02\x01m\x01g\x03\x7e\0\
        \x03\x02\x01\x01\
        \x04\x06\x01\x70\x01\0\x80\x01\
        \x05\x03\x01\0\x01\
        \x06\x06\x01\x7f\x01\x41\x2a\x0b\
        \x07\x11\x04\x01f\0\0\x01t\x01\0\x01m\x02\0\x01g\x03\0\
        \x08\x01\x01\
        \x09\x08\x01\0\x41\0\x0b\x02\0\x01\
        \x0a\x08\x01\x06\x02\x02\x7f\x01\x7c\x0b\
        \x0b\x09\x01\0\x41\x08\x0b\x03abc";
    assert_eq!(rt; bytes.as_slice(), expected.as_slice());
    Ok(())
}
