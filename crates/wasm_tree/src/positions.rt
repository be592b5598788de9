//! The positions of the matching else and end, moved along.

ghost use Rattle.std.specs.Prelude.{◌+◌, ◌-◌, ◌≡◌, IfOk, IfSome, option_map};
ghost use Rattle.wasm_tree.specs.Shifting.{FlatteningIsShifted, op_after, op_within};

use w4_defs::{Op, OutOfMemory};

/// Marks that stand after others are those of their own flattening, with all positions moved along.
pub fn flattening_is_shifted()
    ensures { FlatteningIsShifted }
{}

/// A mark of all bodies as it stands in its own function, whose first mark is at `start`.
pub fn op_within(op: Op, start: usize) -> Op
    ensures { result ≡ op_within start op }
{
    match op {
        Op::Block { result, end } => Op::Block {
            result,
            end: end.saturating_sub(start),
        },
        Op::Loop { result, end } => Op::Loop {
            result,
            end: end.saturating_sub(start),
        },
        Op::If { result, other, end } => Op::If {
            result,
            other: position_within(other, start),
            end: end.saturating_sub(start),
        },
        op => op,
    }
}

fn position_within(position: Option<usize>, start: usize) -> Option<usize>
    ensures { result ≡ option_map (λ p. p - start) position }
{
    match position {
        Some(position) => Some(position.saturating_sub(start)),
        None => None,
    }
}

/// A mark as it stands after `start` others.
pub fn op_after(op: Op, start: usize) -> Result<Op, OutOfMemory>
    ensures { IfOk result (λ r. r ≡ op_after start op) }
{
    match op_counted_after(op, start) {
        Some(op) => Ok(op),
        None => Err(OutOfMemory),
    }
}

/// None where a position would pass the greatest number, more than any memory holds.
fn op_counted_after(op: Op, start: usize) -> Option<Op>
    ensures { IfSome result (λ r. r ≡ op_after start op) }
{
    Some(match op {
        Op::Block { result, end } => Op::Block {
            result,
            end: end.checked_add(start)?,
        },
        Op::Loop { result, end } => Op::Loop {
            result,
            end: end.checked_add(start)?,
        },
        Op::If { result, other, end } => Op::If {
            result,
            other: position_after(other, start)?,
            end: end.checked_add(start)?,
        },
        op => op,
    })
}

fn position_after(position: Option<usize>, start: usize) -> Option<Option<usize>>
    ensures { IfSome result (λ r. r ≡ option_map (λ p. p + start) position) }
{
    match position {
        Some(position) => Some(Some(position.checked_add(start)?)),
        None => Some(None),
    }
}
