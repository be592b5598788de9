//! Expressions (Core Specification, section 5.4), without recursion: the marks up to the `end` that closes
//! them, and then their positions.

ghost use Rattle.std.specs.Prelude.{List, None, Some, option_map, length, ℕ, ◌++◌, ◌<◌, ◌≡◌, ◌∷◌, []};
ghost use Rattle.wasm_read.specs.ReadExpression.{bracket_after, bracket_at, depth_after, marks_at, mark_at, expression_at, flattening_at, table_at, unlabelled_at};
ghost use Rattle.wasm_read.specs.ReadType.{block_type_at};
ghost use Rattle.wasm_read.specs.Reader.{Answers};
ghost use Rattle.wasm_tree.specs.Expressions.{IsFlat};

use crate::brackets::matched;
use crate::item::vector_at;
use crate::number::index_at;
use crate::operation::operation_at;
use crate::refusal::ReadRefusal;
use crate::value_type::block_type_at;
use std::alloc::Global;
use w4_defs::Op;
use wasm_tree::{FlatExpression, Marks};

/// What opens, parts or ends a list, after its code; its positions are 0.
fn bracket_after(code: u8, bytes: &[u8]) -> Option<(Op, &[u8])>
    ensures { option_map (λ x. (x.0, x.1.now)) result ≡ bracket_after code bytes.now }
{
    match code {
        0x02 => {
            let (result, rest) = block_type_at(bytes)?;
            Some((Op::Block { result, end: 0 }, rest))
        }
        0x03 => {
            let (result, rest) = block_type_at(bytes)?;
            Some((Op::Loop { result, end: 0 }, rest))
        }
        0x04 => {
            let (result, rest) = block_type_at(bytes)?;
            Some((
                Op::If {
                    result,
                    other: None,
                    end: 0,
                },
                rest,
            ))
        }
        0x05 => Some((Op::Else, bytes)),
        0x0b => Some((Op::End, bytes)),
        _ => None,
    }
}

fn bracket_at(bytes: &[u8]) -> Option<(Op, &[u8])>
    ensures { option_map (λ x. (x.0, x.1.now)) result ≡ bracket_at bytes.now }
{
    let [code, rest @ ..] = bytes else {
        return None;
    };
    bracket_after(*code, rest)
}

/// A mark without labels.
#[tactic(auto, unfolding(crate::specs::ReadExpression::unlabelled_at))]
fn unlabelled_at(bytes: &[u8]) -> Option<(Op, &[u8])>
    ensures { option_map (λ x. (x.0, x.1.now)) result ≡ unlabelled_at bytes.now }
{
    if let Some(read) = operation_at(bytes) {
        return Some(read);
    }
    bracket_at(bytes)
}

/// The labels of a br_table, the default last.
#[tactic(auto, unfolding(crate::specs::ReadExpression::table_at))]
fn table_at(alloc: Global, bytes: &[u8]) -> Result<(Vec<u32>, &[u8]), ReadRefusal>
    ensures { Answers (λ x. table_at bytes.now ≡ Some (x.0.items, x.1.now)) (table_at bytes.now ≡ None)
        result }
{
    let [0x0e, rest @ ..] = bytes else {
        return Err(ReadRefusal::Malformed);
    };
    let (mut labels, rest) = vector_at::<u32>(alloc, rest)?;
    let (last, rest) = index_at(rest).ok_or(ReadRefusal::Malformed)?;
    labels.push(last)?;
    Ok((labels, rest))
}

/// The marks with one more, this mark's operation, and the bytes after it.
#[tactic(auto, unfolding(crate::specs::ReadExpression::mark_at))]
fn mark_at(alloc: Global, marks: Marks, bytes: &[u8]) -> Result<(Marks, Op, &[u8]), ReadRefusal>
    ensures { Answers (λ x. (labels : List ℕ) × (mark_at bytes.now ≡ Some ((x.1, labels), x.2.now))
        × (x.0 ≡ marks ++ (x.1, labels) ∷ [])) (mark_at bytes.now ≡ None) result }
{
    if let Some((op, rest)) = unlabelled_at(bytes) {
        return Ok((marks.with(op, &[])?, op, rest));
    }
    let (labels, rest) = table_at(alloc, bytes)?;
    Ok((marks.with(Op::BrTable, &labels)?, Op::BrTable, rest))
}

/// How many lists are open after a mark.
fn depth_after(op: Op, depth: usize) -> usize
    requires { depth < usize.MAX }
    ensures { result ≡ depth_after op depth }
{
    match op {
        Op::Block { .. } | Op::Loop { .. } | Op::If { .. } => depth + 1,
        Op::End => depth.saturating_sub(1),
        _ => depth,
    }
}

/// The marks of one list of instructions with its closing `end`, and the bytes after them.
fn marks_at(alloc: Global, bytes: &[u8]) -> Result<(Marks, &[u8]), ReadRefusal>
    ensures { Answers (λ x. marks_at (length bytes.now) 1 bytes.now ≡ Some (x.0, x.1.now))
        (marks_at (length bytes.now) 1 bytes.now ≡ None) result }
{
    let mut marks = Marks::new(alloc)?;
    let mut rest = bytes;
    let mut depth = 1;
    for _ in 0..bytes.len() {
        let (more, op, after) = mark_at(alloc, marks, rest)?;
        marks = more;
        rest = after;
        depth = depth_after(op, depth);
        if depth == 0 {
            return Ok((marks, rest));
        }
    }
    Err(ReadRefusal::Malformed)
}

/// An expression, and the bytes after it.
#[tactic(auto, unfolding(crate::specs::ReadExpression::expression_at))]
pub fn expression_at(alloc: Global, bytes: &[u8]) -> Result<(FlatExpression, &[u8]), ReadRefusal>
    ensures { Answers (λ x. expression_at bytes.now ≡ Some (x.0, x.1.now)) (expression_at bytes.now ≡ None)
        result }
{
    let (marks, rest) = marks_at(alloc, bytes)?;
    let marks = matched(alloc, marks)?;
    Ok((FlatExpression::new(marks), rest))
}
