//! Sections as they stand, their order and their contents (Core Specification, section 5.5).

ghost use Rattle.std.specs.Prelude.{None, Some, length, option_map, ◌<◌, ◌≡◌};
ghost use Rattle.std.specs.Str.{is_utf8};
ghost use Rattle.w4_defs.specs.BinarySection.{rank};
ghost use Rattle.wasm_read.specs.Combine.{sized_bytes_at};
ghost use Rattle.wasm_read.specs.ReadSection.{contents_at, ordered_at, rank_after, section_at};
ghost use Rattle.wasm_read.specs.ReadType.{name_at};

use crate::number::index_at;
use std::str;

/// A size and exactly that many bytes; those, and the bytes after them.
#[tactic(auto, unfolding(crate::specs::Combine::sized_bytes_at))]
pub fn cut_at(bytes: &[u8]) -> Option<(&[u8], &[u8])>
    ensures { option_map (λ x. (x.0.now, x.1.now)) result ≡ sized_bytes_at bytes.now }
{
    let (size, rest) = index_at(bytes)?;
    let size = size as usize;
    if rest.len() < size {
        return None;
    }
    Some((&rest[..size], &rest[size..]))
}

fn is_text(bytes: &[u8]) -> bool
    ensures { result ≡ is_utf8 bytes.now }
{
    str::from_utf8(bytes).is_ok()
}

/// A name, as the bytes of its text, and the bytes after it.
#[tactic(auto, unfolding(crate::specs::Combine::sized_at))]
pub fn name_at(bytes: &[u8]) -> Option<(&[u8], &[u8])>
    ensures { option_map (λ x. (x.0.now, x.1.now)) result ≡ name_at bytes.now }
{
    let (codes, rest) = cut_at(bytes)?;
    if is_text(codes) {
        Some((codes, rest))
    } else {
        None
    }
}

/// A section's id and contents, and the bytes after it.
#[tactic(auto, unfolding(crate::specs::ReadSection::section_at))]
fn section_at(bytes: &[u8]) -> Option<(u8, &[u8], &[u8])>
    ensures { option_map (λ x. ((x.0, x.1.now), x.2.now)) result ≡ section_at bytes.now }
{
    let [id, rest @ ..] = bytes else {
        return None;
    };
    let (contents, rest) = cut_at(rest)?;
    Some((*id, contents, rest))
}

/// The position of an id in the order 1 to 9, 12, 10, 11.
fn rank(id: u8) -> u8
    requires { id < 255 }
    ensures { result ≡ rank id }
{
    match id {
        12 => 10,
        0..=9 => id,
        _ => id + 1,
    }
}

/// The rank of the last section but custom ones, after one more section; None where it may not stand here.
#[tactic(auto, unfolding(crate::specs::ReadSection::rank_after))]
fn rank_after(last: u8, id: u8, contents: &[u8]) -> Option<u8>
    ensures { result ≡ rank_after last (id, contents.now) }
{
    if id == 0 {
        name_at(contents)?;
        return Some(last);
    }
    if id > 12 {
        return None;
    }
    let rank = rank(id);
    if last < rank { Some(rank) } else { None }
}

/// The rank of the last section, where the bytes are sections in order up to their end.
pub fn in_order(bytes: &[u8]) -> Option<u8>
    ensures { result ≡ ordered_at (length bytes.now) 0 bytes.now }
{
    let mut last = 0;
    let mut rest = bytes;
    for _ in 0..bytes.len() {
        if rest.is_empty() {
            return Some(last);
        }
        let (id, contents, after) = section_at(rest)?;
        last = rank_after(last, id, contents)?;
        rest = after;
    }
    if rest.is_empty() { Some(last) } else { None }
}

/// The contents of the first section with this id.
pub fn contents_of(bytes: &[u8], id: u8) -> Option<&[u8]>
    ensures { option_map (λ x. x.now) result ≡ contents_at (length bytes.now) id bytes.now }
{
    let mut rest = bytes;
    for _ in 0..bytes.len() {
        let (found, contents, after) = section_at(rest)?;
        if found == id {
            return Some(contents);
        }
        rest = after;
    }
    None
}
