//! What each function index names, imports first.

ghost use Rattle.std.specs.List.{count_by};
ghost use Rattle.std.specs.Prelude.{◌+◌, ◌++◌, ◌<◌, ◌≡◌, ◌≤◌, ◌∷◌, IfOk, IfSome, Some, [], length, slice_get, take, true};
ghost use Rattle.w4_defs.specs.Lookup.{local_count};
ghost use Rattle.w4_defs.specs.Module.{Signature};
ghost use Rattle.w4_defs.specs.Program.{callees, imported_callees};
ghost use Rattle.wasm_valid.specs.Calls.{AreCalls, AreImportCalls, IsCallAt, IsTypeAt, result_count};
ghost use Rattle.wasm_valid.specs.Instructions.{is_instruction};
ghost use Rattle.wasm_valid.specs.Ready.{IsReady};
ghost use Rattle.w4_defs.specs.Profile.{is_right};

use crate::call::Call;
use crate::signature::number_of_type;
use std::alloc::Global;
use w4_defs::{FuncType, ImportEntry, ImportKind, Locals, Op, OutOfMemory};
use wasm_link::import_named;
use wasm_tree::Code;

/// What each function index names.
pub fn calls(alloc: Global, code: &Code) -> Result<Vec<Call>, OutOfMemory>
    requires { IsReady code.now }
    ensures { IfOk result (λ calls. AreCalls code.now (callees code.now) calls.items) }
{
    let mut calls = import_calls(alloc, code)?;
    for func in 0..code.functions().len() {
        calls.push(own_call(code, func))?;
    }
    Ok(calls)
}

/// The calls of the imported functions.
fn import_calls(alloc: Global, code: &Code) -> Result<Vec<Call>, OutOfMemory>
    requires { IsReady code.now }
    ensures { IfOk result (λ calls.
        AreCalls code.now (imported_callees code.now.types code.now.imports) calls.items) }
{
    let imports = code.imports();
    let mut calls = Vec::new(alloc);
    for i in 0..imports.len() {
        calls = with_import(calls, code, i)?;
    }
    Ok(calls)
}

/// The calls with that of one more import, where this is a function.
fn with_import(calls: Vec<Call>, code: &Code, i: usize) -> Result<Vec<Call>, OutOfMemory>
    requires ready { IsReady code.now }
    requires within { i < length code.now.imports }
    ensures { IfOk result (λ new.
        AreImportCalls code.now i calls.items → AreImportCalls code.now (i + 1) new.items) }
{
    let mut calls = calls;
    let import = &code.imports()[i];
    let ImportKind::Func { index } = import.kind else {
        return Ok(calls);
    };
    calls.push(import_call(code, import, index))?;
    Ok(calls)
}

/// The call of an imported function.
fn import_call(code: &Code, import: &ImportEntry, index: u32) -> Call
    requires ready { IsReady code.now }
    requires kind { import.now.kind ≡ ImportKind.Func index }
    requires right { is_right code.now import.now ≡ true }
    ensures { AreCalls code.now (imported_callees code.now.types (import.now ∷ [])) (result ∷ []) }
{
    let signature = &code.types()[index as usize];
    let Some(name) = import_named(&import.module, &import.name) else {
        unreachable!();
    };
    Call::Import {
        type_number: number_of_type(code.types(), signature),
        name,
        params: signature.params.len(),
        answers: !signature.results.is_empty(),
    }
}

/// The call of an own function.
fn own_call(code: &Code, func: usize) -> Call
    requires ready { IsReady code.now }
    requires within { func < length code.now.bodies }
    ensures { IsCallAt code.now func result }
{
    code.results_are_few();
    let signature = own_type(code, func);
    let params = signature.params.len();
    let zeros = local_count(code.runs(func));
    let instructions = instruction_count(code.body(func));
    Call::Own {
        type_number: number_of_type(code.types(), signature),
        start: code.body_start(func),
        params,
        zeros,
        answers: !signature.results.is_empty(),
        reserve: params + zeros + instructions,
    }
}

fn own_type(code: &Code, func: usize) -> &FuncType
    requires ready { IsReady code.now }
    requires within { func < length code.now.bodies }
    ensures { IsTypeAt code.now func result.now }
{
    let functions = code.functions();
    &code.types()[functions[func] as usize]
}

/// How many locals the runs have together.
fn local_count(runs: &[Locals]) -> usize
    requires { local_count runs.now ≤ 1024 }
    ensures { result ≡ local_count runs.now }
{
    let mut count = 0;
    for i in 0..runs.len() {
        count += runs[i].count as usize;
    }
    count
}

/// How many of the marks are instructions.
fn instruction_count(ops: &[Op]) -> usize
    ensures { result ≡ count_by is_instruction ops.now }
{
    ops.iter().filter(|op| is_instruction(**op)).count()
}

fn is_instruction(op: Op) -> bool
    ensures { result ≡ is_instruction op }
{
    match op {
        Op::Else => false,
        Op::End => false,
        _ => true,
    }
}
