//! The positions of the matching else and end of a flattening (Core Specification, section 5.4): found from
//! the last mark to the first, so that each is final when it is written.

ghost use Rattle.std.specs.Prelude.{None, Some, reverse, ◌≡◌};
ghost use Rattle.wasm_read.specs.ReadExpression.{ended_by, mark_with_positions, is_one_end, matched, parted_by};
ghost use Rattle.wasm_read.specs.Reader.{Answers};

use crate::refusal::ReadRefusal;
use std::alloc::Global;
use w4_defs::Op;
use wasm_tree::Marks;

/// A closing mark that isn't matched yet, by its position.
#[derive(Clone, Copy, PartialEq, Eq, Debug)]
pub enum Close {
    /// An `end`.
    Ends(usize),
    /// An `else`, which parts the two lists of an `if`.
    Parts(usize),
}

/// The position of the `end` that stands next, where another list is still to be closed after it.
fn ended_by(closes: &mut Vec<Close>) -> Result<usize, ReadRefusal>
    ensures { Answers (λ position. ended_by (reverse closes.old.items)
        ≡ Some (position, reverse closes.new.items))
        (ended_by (reverse closes.old.items) ≡ None) result }
{
    let Some(Close::Ends(position)) = closes.pop() else {
        return Err(ReadRefusal::Malformed);
    };
    if closes.is_empty() {
        return Err(ReadRefusal::Malformed);
    }
    Ok(position)
}

/// The mark with its positions; `closes` has the closing marks after it that aren't matched, the next one
/// last.
fn placed(closes: &mut Vec<Close>, at: usize, op: Op) -> Result<Op, ReadRefusal>
    ensures { Answers (λ p. mark_with_positions at op (reverse closes.old.items)
        ≡ Some (p, reverse closes.new.items)) (mark_with_positions at op (reverse closes.old.items) ≡ None)
        result }
{
    match op {
        Op::End => {
            closes.push(Close::Ends(at))?;
            Ok(op)
        }
        Op::Else => {
            closes.push(Close::Parts(at))?;
            Ok(op)
        }
        Op::Block { result, .. } => Ok(Op::Block {
            result,
            end: ended_by(closes)?,
        }),
        Op::Loop { result, .. } => Ok(Op::Loop {
            result,
            end: ended_by(closes)?,
        }),
        Op::If { result, .. } => {
            let other = parted_by(closes);
            Ok(Op::If {
                result,
                other,
                end: ended_by(closes)?,
            })
        }
        _ => {
            if closes.is_empty() {
                return Err(ReadRefusal::Malformed);
            }
            Ok(op)
        }
    }
}

/// The position of the `else` that stands next, if one does; it is then matched.
fn parted_by(closes: &mut Vec<Close>) -> Option<usize>
    ensures { parted_by (reverse closes.old.items) ≡ (result, reverse closes.new.items) }
{
    let last = *closes.last()?;
    let Close::Parts(position) = last else {
        return None;
    };
    closes.pop();
    Some(position)
}

fn is_one_end(closes: &[Close]) -> bool
    ensures { result ≡ is_one_end closes.now }
{
    matches!(closes, [Close::Ends(_)])
}

/// The marks with all their positions, where they are the flattening of one list of instructions.
pub fn matched(alloc: Global, mut marks: Marks) -> Result<Marks, ReadRefusal>
    ensures { Answers (λ ms. matched marks ≡ Some ms) (matched marks ≡ None) result }
{
    let mut closes = Vec::new(alloc);
    for at in (0..marks.len()).rev() {
        let op = placed(&mut closes, at, marks.op(at))?;
        marks.set_op(at, op);
    }
    if is_one_end(&closes) {
        Ok(marks)
    } else {
        Err(ReadRefusal::Malformed)
    }
}
