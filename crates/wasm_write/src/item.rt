//! Values that are encoded, vectors of them, and bytes behind their size (Core Specification, section 5.1).

ghost use Rattle.std.specs.Prelude.{IfOk, flat_map, ◌++◌, ◌∷◌, ◌≡◌, []};
ghost use Rattle.w4_defs.specs.EncodeModule.{part, section_bytes};
ghost use Rattle.w4_defs.specs.EncodeType.{sized_bytes, vector_bytes};

use crate::number::unsigned;
use std::alloc::Global;
use w4_defs::OutOfMemory;

/// A value that is encoded on its own.
pub trait Encode: Drop {
    ghost use Rattle.std.specs.Prelude.{IfOk, List, ℕ, ◌++◌, ◌≡◌};

    ghost bytes: { Self → List ℕ };

    /// Appends the value's bytes.
    fn encode(&self, alloc: Global, out: &mut Vec<u8>) -> Result<(), OutOfMemory>
        ensures { IfOk result (λ _. out.new.items ≡ out.old.items ++ bytes self.now) };
}

/// Appends one byte.
pub fn byte(out: &mut Vec<u8>, byte: u8) -> Result<(), OutOfMemory>
    ensures { IfOk result (λ _. out.new.items ≡ out.old.items ++ byte ∷ []) }
{
    out.push(byte)?;
    Ok(())
}

/// Appends bytes as they are.
pub fn bytes(out: &mut Vec<u8>, bytes: &[u8]) -> Result<(), OutOfMemory>
    ensures { IfOk result (λ _. out.new.items ≡ out.old.items ++ bytes.now) }
{
    out.extend_from_slice(bytes)?;
    Ok(())
}

/// Appends a size and the bytes.
pub fn sized(out: &mut Vec<u8>, bytes: &[u8]) -> Result<(), OutOfMemory>
    ensures { IfOk result (λ _. out.new.items ≡ out.old.items ++ sized_bytes bytes.now) }
{
    unsigned(out, bytes.len() as u64)?;
    out.extend_from_slice(bytes)?;
    Ok(())
}

fn items<T: Encode>(alloc: Global, out: &mut Vec<u8>, items: &[T]) -> Result<(), OutOfMemory>
    ensures { IfOk result (λ _. out.new.items ≡ out.old.items ++ flat_map T.bytes items.now) }
{
    for item in items {
        item.encode(alloc, out)?;
    }
    Ok(())
}

/// Appends a count and the items.
pub fn vector<T: Encode>(alloc: Global, out: &mut Vec<u8>, xs: &[T]) -> Result<(), OutOfMemory>
    ensures { IfOk result (λ _. out.new.items ≡ out.old.items ++ vector_bytes T.bytes xs.now) }
{
    unsigned(out, xs.len() as u64)?;
    items(alloc, out, xs)
}

/// Appends a section of these items, if there are any.
pub fn section<T: Encode>(
    alloc: Global,
    out: &mut Vec<u8>,
    id: u8,
    xs: &[T],
) -> Result<(), OutOfMemory>
    ensures { IfOk result (λ _. out.new.items ≡ out.old.items ++ section_bytes id (part T.bytes xs.now)) }
{
    if xs.is_empty() {
        return Ok(());
    }
    let mut contents = Vec::new(alloc);
    vector(alloc, &mut contents, xs)?;
    byte(out, id)?;
    sized(out, &contents)
}
