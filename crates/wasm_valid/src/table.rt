//! The table as the element segments fill it.

ghost use Rattle.std.specs.Prelude.{◌+◌, ◌≡◌, ◌≤◌, IfOk, None, length};
ghost use Rattle.w4_defs.specs.Program.{empty_table, put_functions, table_of};
ghost use Rattle.w4_defs.specs.Profile.{profile_refusal};
ghost use Rattle.w4_defs.specs.Validity.{KeepsModuleRules};

use crate::constant::first_number32;
use std::alloc::Global;
use w4_defs::{Limits, OutOfMemory};
use wasm_tree::Code;

/// The table, filled by its element segments in order. Each stays within it.
pub fn filled_table(alloc: Global, code: &Code) -> Result<Vec<Option<u32>>, OutOfMemory>
    requires profile { profile_refusal code.now ≡ None }
    requires rules { KeepsModuleRules code.now }
    ensures { IfOk result (λ table. table.items ≡ table_of code.now) }
{
    let mut table = empty_table(alloc, code.tables())?;
    for i in 0..code.element_count() {
        let offset = first_number32(code.element_offset(i)) as usize;
        put_functions(&mut table, offset, code.element_functions(i));
    }
    Ok(table)
}

/// As many empty elements as the first table has at least.
fn empty_table(alloc: Global, tables: &[Limits]) -> Result<Vec<Option<u32>>, OutOfMemory>
    ensures { IfOk result (λ table. table.items ≡ empty_table tables.now) }
{
    match tables.get(0) {
        Some(limits) => Ok(vec![in alloc; None; limits.least as usize]?),
        None => Ok(Vec::new(alloc)),
    }
}

/// Puts these functions into the table from a position on.
fn put_functions(table: &mut [Option<u32>], offset: usize, functions: &[u32])
    requires { offset + length functions.now ≤ length table.old }
    ensures { table.new ≡ put_functions table.old offset functions.now }
{
    for i in 0..functions.len() {
        table[offset + i] = Some(functions[i]);
    }
}
