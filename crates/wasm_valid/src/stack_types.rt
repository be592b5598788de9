//! What memory and numeric instructions take and what they give (Core Specification, sections 3.3.1 and
//! 3.3.4), by the rows of their table.

ghost use Rattle.std.specs.Prelude.{◌^◌, ◌≡◌, ◌∷◌, Some, [], nat_le, true};
ghost use Rattle.w4_defs.specs.InstructionTable.{value_type_of};
ghost use Rattle.w4_defs.specs.OperandTypes.{load_type, basic_type, row_type, store_type};
ghost use Rattle.w4_defs.specs.ValueTypes.{result_types};
ghost use Rattle.w4_defs.specs.declared.value.ValType.TheVariants.{I32};
ghost use Rattle.wasm_valid.specs.StackTypes.{shown};

use w4_defs::{Basic, IntegerType, Row, ValType};

/// The types of the operands that are taken, and of those that are given, from the bottom to the top.
#[derive(Clone, Copy)]
pub struct StackType<'a> {
    pub takes: &'a [ValType],
    pub gives: &'a [ValType],
}

/// The types of a block's result.
pub fn result_types(kind: Option<ValType>) -> &'static [ValType]
    ensures { result.now ≡ result_types kind }
{
    match kind {
        Some(kind) => one(kind),
        None => &[],
    }
}

/// One type as a list.
pub fn one(kind: ValType) -> &'static [ValType]
    ensures { result.now ≡ kind ∷ [] }
{
    match kind {
        ValType::I32 => &[ValType::I32],
        ValType::I64 => &[ValType::I64],
        ValType::F32 => &[ValType::F32],
        ValType::F64 => &[ValType::F64],
    }
}

/// The value type of an integer type.
fn value_type(number: IntegerType) -> ValType
    ensures { result ≡ value_type_of number }
{
    match number {
        IntegerType::I32 => ValType::I32,
        IntegerType::I64 => ValType::I64,
    }
}

fn gives(number: IntegerType) -> StackType<'static>
    ensures { shown (Some result) ≡ Some ([], value_type_of number ∷ []) }
{
    StackType {
        takes: &[],
        gives: one(value_type(number)),
    }
}

fn converts(from: IntegerType, to: IntegerType) -> StackType<'static>
    ensures { shown (Some result) ≡ Some (value_type_of from ∷ [], value_type_of to ∷ []) }
{
    StackType {
        takes: one(value_type(from)),
        gives: one(value_type(to)),
    }
}

fn joins(number: IntegerType, to: IntegerType) -> StackType<'static>
    ensures { shown (Some result)
        ≡ Some (value_type_of number ∷ value_type_of number ∷ [], value_type_of to ∷ []) }
{
    let takes: &[ValType] = match number {
        IntegerType::I32 => &[ValType::I32, ValType::I32],
        IntegerType::I64 => &[ValType::I64, ValType::I64],
    };
    StackType {
        takes,
        gives: one(value_type(to)),
    }
}

fn stores(number: IntegerType) -> StackType<'static>
    ensures { shown (Some result) ≡ Some (I32 ∷ value_type_of number ∷ [], []) }
{
    let takes: &[ValType] = match number {
        IntegerType::I32 => &[ValType::I32, ValType::I32],
        IntegerType::I64 => &[ValType::I32, ValType::I64],
    };
    StackType { takes, gives: &[] }
}

fn fills() -> StackType<'static>
    ensures { shown (Some result) ≡ Some (I32 ∷ I32 ∷ I32 ∷ [], []) }
{
    StackType {
        takes: &[ValType::I32, ValType::I32, ValType::I32],
        gives: &[],
    }
}

/// Whether an alignment, by its exponent, is at most that many bytes.
fn is_aligned(align: u32, bytes: u32) -> bool
    ensures { result ≡ nat_le (2 ^ align) bytes }
{
    match 2u32.checked_pow(align) {
        Some(aligned) => aligned <= bytes,
        None => false,
    }
}

fn load(align: u32, bytes: u32, number: IntegerType) -> Option<StackType<'static>>
    ensures { shown result ≡ load_type true align bytes (value_type_of number) }
{
    if is_aligned(align, bytes) {
        Some(converts(IntegerType::I32, number))
    } else {
        None
    }
}

fn store(align: u32, bytes: u32, number: IntegerType) -> Option<StackType<'static>>
    ensures { shown result ≡ store_type true align bytes (value_type_of number) }
{
    if is_aligned(align, bytes) {
        Some(stores(number))
    } else {
        None
    }
}

/// What the instructions of a row take and give, where there is a memory.
fn row_stack_type(row: Row) -> Option<StackType<'static>>
    ensures { shown result ≡ row_type true row }
{
    match row {
        Row::Const(number, _) => Some(gives(number)),
        Row::Test(number) => Some(converts(number, IntegerType::I32)),
        Row::Compare(number, _) => Some(joins(number, IntegerType::I32)),
        Row::Unary(number, _) => Some(converts(number, number)),
        Row::Binary(number, _) => Some(joins(number, number)),
        Row::Wrap => Some(converts(IntegerType::I64, IntegerType::I32)),
        Row::Extend(_) => Some(converts(IntegerType::I32, IntegerType::I64)),
        Row::ExtendWithin(number, _) => Some(converts(number, number)),
        Row::Load {
            number,
            bytes,
            align,
            ..
        } => load(align, bytes, number),
        Row::Store {
            number,
            bytes,
            align,
            ..
        } => store(align, bytes, number),
        Row::MemorySize => Some(gives(IntegerType::I32)),
        Row::MemoryGrow => Some(converts(IntegerType::I32, IntegerType::I32)),
        Row::MemoryCopy => Some(fills()),
        Row::MemoryFill => Some(fills()),
        Row::Float => None,
    }
}

/// The types of a memory or numeric instruction, where there is a memory.
pub fn table_stack_type(basic: Basic) -> Option<StackType<'static>>
    ensures { shown result ≡ basic_type true basic }
{
    let (_, row) = basic.table_row();
    row_stack_type(row)
}
