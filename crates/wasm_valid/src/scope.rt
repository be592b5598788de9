//! What the operations of a body name: locals, globals, functions, types and tables.

ghost use Rattle.std.specs.Prelude.{◌++◌, ◌≡◌, ◌∷◌, IfOk, None, [], length, nat_lt, option_map, replicate, slice_get};
ghost use Rattle.w4_defs.specs.Lookup.{function_indices, global_types, local_types, memories_of, signature_of, tables_of};
ghost use Rattle.w4_defs.specs.OperandTypes.{basic_type};
ghost use Rattle.w4_defs.specs.Profile.{profile_refusal};
ghost use Rattle.wasm_valid.specs.StackTypes.{shown};

use crate::stack_types::{StackType, table_stack_type};
use std::alloc::Global;
use std::marker::Model;
use w4_defs::{Basic, FuncType, GlobalType, ImportKind, Locals, OutOfMemory, ValType};
use wasm_tree::Code;

/// The module and the types of the parameters, of the further locals and of the results. A clause sees the
/// context of the body.
#[derive(Drop)]
pub struct Scope<'a> {
    code: &'a Code,
    functions: &'a [u32],
    params: &'a [ValType],
    locals: Vec<ValType>,
    results: &'a [ValType],
}

impl<'a> Model for Scope<'a> {
    ghost use Rattle.w4_defs.specs.Typing.{Context};

    ghost Value = { Context };

    ghost use Rattle.std.specs.Coded.{codes};
    ghost use Rattle.w4_defs.specs.TreeCode.{tree_code};

    ghost coded = { Prim.hlevel (codes, tree_code) };

    ghost use Rattle.std.specs.Prelude.{◌≡◌, ◌++◌, ◌∷◌, [], None};
    ghost use Rattle.w4_defs.specs.Lookup.{function_indices};
    ghost use Rattle.w4_defs.specs.Profile.{profile_refusal};

    ghost view = { λ s. record {
      within = s.code.now;
      locals = s.params.now ++ s.locals.items;
      labels = s.results.now ∷ [];
      results = s.results.now;
    } };

    ghost invariant = { λ s. (profile_refusal s.code.now ≡ None)
        × (s.functions.now ≡ function_indices s.code.now) };
}

impl<'a> Scope<'a> {
    /// What a body with this type and these runs of locals stands in.
    pub fn new(
        alloc: Global,
        code: &'a Code,
        functions: &'a [u32],
        signature: &'a FuncType,
        runs: &[Locals],
    ) -> Result<Scope<'a>, OutOfMemory>
        requires profile { profile_refusal code.now ≡ None }
        requires functions { functions.now ≡ function_indices code.now }
        ensures { IfOk result (λ s. s ≡ record {
          within = code.now;
          locals = signature.now.params ++ local_types runs.now;
          labels = signature.now.results ∷ [];
          results = signature.now.results;
        }) }
    {
        let locals = local_types(alloc, runs)?;
        Ok(Scope {
            code,
            functions,
            params: &signature.params,
            locals,
            results: &signature.results,
        })
    }

    /// The types of the results.
    pub fn results(&self) -> &'a [ValType]
        ensures { result.now ≡ self.now.results }
    {
        self.results
    }

    /// The type of a local; the parameters come first.
    pub fn local(&self, index: u32) -> Option<ValType>
        ensures { result ≡ slice_get self.now.locals index }
    {
        let index = index as usize;
        if index < self.params.len() {
            Some(self.params[index])
        } else {
            self.locals.get(index - self.params.len()).copied()
        }
    }

    /// The type of a global. No module within the profile imports one.
    pub fn global(&self, index: u32) -> Option<GlobalType>
        ensures { result ≡ slice_get (global_types self.now.within) index }
    {
        let index = index as usize;
        if index < self.code.global_count() {
            Some(self.code.global_type(index))
        } else {
            None
        }
    }

    /// Whether there is such a table. No module within the profile imports one.
    pub fn has_table(&self, table: u32) -> bool
        ensures { result ≡ nat_lt table (length (tables_of self.now.within)) }
    {
        (table as usize) < self.code.tables().len()
    }

    /// The types of a memory or numeric instruction. Each module within the profile imports a memory.
    pub fn table_stack_type(&self, basic: Basic) -> Option<StackType<'static>>
        ensures { shown result ≡ basic_type (nat_lt 0 (length (memories_of self.now.within))) basic }
    {
        let _code = self.code;
        table_stack_type(basic)
    }

    /// A function type.
    pub fn signature(&self, index: u32) -> Option<&'a FuncType>
        ensures { option_map (λ s. s.now) result ≡ slice_get self.now.within.types index }
    {
        type_at(self.code, index)
    }

    /// The type of a function, which counts imports first.
    pub fn function(&self, func: u32) -> Option<&'a FuncType>
        ensures { option_map (λ s. s.now) result ≡ signature_of self.now.within func }
    {
        match self.functions.get(func as usize) {
            Some(index) => type_at(self.code, *index),
            None => None,
        }
    }
}

/// The types of the locals that the runs name, one by one; at most 1,024 within the profile.
fn local_types(alloc: Global, runs: &[Locals]) -> Result<Vec<ValType>, OutOfMemory>
    ensures { IfOk result (λ operands. operands.items ≡ local_types runs.now) }
{
    let mut operands = Vec::new(alloc);
    for i in 0..runs.len() {
        append(&mut operands, runs[i])?;
    }
    Ok(operands)
}

fn append(operands: &mut Vec<ValType>, run: Locals) -> Result<(), OutOfMemory>
    ensures { IfOk result (λ _. operands.new.items ≡ operands.old.items ++ replicate run.count run.kind) }
{
    for _ in 0..run.count {
        operands.push(run.kind)?;
    }
    Ok(())
}

/// A function type, where the index names one.
pub fn type_at(code: &Code, index: u32) -> Option<&FuncType>
    ensures { option_map (λ s. s.now) result ≡ slice_get code.now.types index }
{
    code.types().get(index as usize)
}

/// The type index of each function, imports first.
pub fn function_indices(alloc: Global, code: &Code) -> Result<Vec<u32>, OutOfMemory>
    ensures { IfOk result (λ indices. indices.items ≡ function_indices code.now) }
{
    let mut indices = Vec::new(alloc);
    let imports = code.imports();
    for i in 0..imports.len() {
        let import = &imports[i];
        if let ImportKind::Func { index } = import.kind {
            indices.push(index)?;
        }
    }
    indices.extend_from_slice(code.functions())?;
    Ok(indices)
}
