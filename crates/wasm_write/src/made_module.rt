//! The module of a made cart (project rule), around its functions.

ghost use Rattle.std.specs.Prelude.{IfOk, codes, replicate, [], ℕ, ◌++◌, ◌∷◌, ◌≡◌};
ghost use Rattle.w4_defs.specs.Generator.{made_imports, made_module, made_types, small_functions};

use std::alloc::Global;
use w4_defs::{
    Body, Export, ExportKind, FuncType, ImportEntry, ImportKind, Limits, Module, OutOfMemory,
    ValType,
};

/// How many functions stand before `update`.
pub const SMALL_FUNCTIONS: u32 = 64;

fn func_type(
    alloc: Global,
    params: &[ValType],
    results: &[ValType],
) -> Result<FuncType, OutOfMemory>
    ensures { IfOk result (λ s. s ≡ record { params = params.now; results = results.now }) }
{
    let params = Vec::from_slice(alloc, params)?;
    let results = Vec::from_slice(alloc, results)?;
    Ok(FuncType { params, results })
}

fn types(alloc: Global) -> Result<Vec<FuncType>, OutOfMemory>
    ensures { IfOk result (λ ss. ss.items ≡ made_types) }
{
    let word = ValType::I32;
    let mut types = Vec::new(alloc);
    types.push(func_type(alloc, &[], &[])?)?;
    types.push(func_type(alloc, &[word, word], &[word])?)?;
    types.push(func_type(alloc, &[word, word, word, word], &[])?)?;
    Ok(types)
}

fn import(alloc: Global, name: &[u8], kind: ImportKind) -> Result<ImportEntry, OutOfMemory>
    ensures { IfOk result (λ i. i ≡ record { module_name = codes "env"; name = name.now; kind = kind }) }
{
    let module = Vec::from_slice(alloc, b"env")?;
    let name = Vec::from_slice(alloc, name)?;
    Ok(ImportEntry { module, name, kind })
}

fn imports(alloc: Global) -> Result<Vec<ImportEntry>, OutOfMemory>
    ensures { IfOk result (λ is. is.items ≡ made_imports) }
{
    let limits = Limits {
        least: 1,
        greatest: Some(1),
    };
    let mut imports = Vec::new(alloc);
    imports.push(import(alloc, b"rect", ImportKind::Func { index: 2 })?)?;
    imports.push(import(alloc, b"memory", ImportKind::Memory { limits })?)?;
    Ok(imports)
}

/// The type of each own function: the small ones, and `update`.
fn functions(alloc: Global) -> Result<Vec<u32>, OutOfMemory>
    ensures { IfOk result (λ is. is.items ≡ replicate small_functions 1 ++ 0 ∷ []) }
{
    let mut functions = vec![in alloc; 1; SMALL_FUNCTIONS as usize]?;
    functions.push(0)?;
    Ok(functions)
}

fn exports(alloc: Global) -> Result<Vec<Export>, OutOfMemory>
    ensures { (number : ℕ) → IfOk result (λ es. es.items ≡ (made_module number).exports) }
{
    let name = Vec::from_slice(alloc, b"update")?;
    let mut exports = Vec::new(alloc);
    exports.push(Export {
        name,
        kind: ExportKind::Func,
        index: SMALL_FUNCTIONS + 1,
    })?;
    Ok(exports)
}

/// The module of a made cart, around these bodies.
pub fn module_around(alloc: Global, bodies: Vec<Body>) -> Result<Module, OutOfMemory>
    ensures { (number : ℕ) → bodies.items ≡ (made_module number).bodies
        → IfOk result (λ m. m ≡ made_module number) }
{
    let types = types(alloc)?;
    let imports = imports(alloc)?;
    let functions = functions(alloc)?;
    let exports = exports(alloc)?;
    Ok(Module {
        types,
        imports,
        functions,
        tables: Vec::new(alloc),
        memories: Vec::new(alloc),
        globals: Vec::new(alloc),
        exports,
        start: None,
        elements: Vec::new(alloc),
        bodies,
        segments: Vec::new(alloc),
    })
}
