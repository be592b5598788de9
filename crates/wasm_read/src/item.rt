//! Vectors of items, and values of whole texts (Core Specification, section 5.1).

ghost use Rattle.std.specs.Prelude.{List, None, Option, Some, ℕ, ◌≡◌};
ghost use Rattle.wasm_read.specs.Combine.{items_at, vector_at};
ghost use Rattle.wasm_read.specs.Reader.{Answers};

use crate::number::index_at;
use crate::refusal::ReadRefusal;
use std::alloc::Global;

/// A value that is read from the front of bytes.
pub trait Item: Drop {
    ghost reads: { List ℕ → Option (Self × List ℕ) };

    /// The value and the bytes after it.
    fn read_item(alloc: Global, bytes: &[u8]) -> Result<(Self, &[u8]), ReadRefusal>
        ensures { Answers (λ x. reads bytes.now ≡ Some (x.0, x.1.now)) (reads bytes.now ≡ None) result };
}

/// A count and that many items. Memory is taken for items that are there, not by the count.
#[tactic(auto, unfolding(crate::specs::Combine::vector_at))]
pub fn vector_at<T: Item>(alloc: Global, bytes: &[u8]) -> Result<(Vec<T>, &[u8]), ReadRefusal>
    ensures { Answers (λ x. vector_at T.reads bytes.now ≡ Some (x.0.items, x.1.now))
        (vector_at T.reads bytes.now ≡ None) result }
{
    let (count, rest) = index_at(bytes).ok_or(ReadRefusal::Malformed)?;
    items_at(alloc, count, rest)
}

fn items_at<T: Item>(
    alloc: Global,
    count: u32,
    bytes: &[u8],
) -> Result<(Vec<T>, &[u8]), ReadRefusal>
    ensures { Answers (λ x. items_at T.reads count bytes.now ≡ Some (x.0.items, x.1.now))
        (items_at T.reads count bytes.now ≡ None) result }
{
    let mut items = Vec::new(alloc);
    let mut rest = bytes;
    for _ in 0..count {
        let (item, after) = T::read_item(alloc, rest)?;
        items.push(item)?;
        rest = after;
    }
    Ok((items, rest))
}
