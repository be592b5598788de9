//! Files of orders: one order in each line that isn't skipped.

ghost use Rattle.std.specs.Prelude.{◌≡◌, IfErr, IfOk, List, Ok, Option, ℕ};
ghost use Rattle.w4_defs.specs.OrderFile.{file_of};
ghost use Rattle.w4_script.specs.Words.{words_left};
ghost use Rattle.w4_script.specs.Refusal.{Refuses};

use crate::reading::Lines;
use crate::refusal::ScriptRefusal;
use crate::words::Words;
use std::alloc::Global;

/// The greatest length of a script, a log or a query, in bytes: 1 MiB.
pub const MOST_BYTES: usize = 1_048_576;

/// A kind of order, which is read from the words of a line.
pub trait LineOrder: Sized + Drop {
    ghost order_of: { List (List ℕ) → Option Self };

    /// The order that a line's words are, or None if the line is bad.
    fn of_words(words: Words<'_>) -> Option<Self>
        ensures { result ≡ order_of (words_left words.entry) };
}

/// The orders of a file.
pub fn read_orders<O: LineOrder>(alloc: Global, bytes: &[u8]) -> Result<Vec<O>, ScriptRefusal>
    ensures orders { IfOk result (λ orders. file_of O.order_of bytes.now ≡ Ok orders.items) }
    ensures refused { IfErr result (λ refusal. Refuses refusal (file_of O.order_of bytes.now)) }
{
    if bytes.len() > MOST_BYTES {
        return Err(ScriptRefusal::TooLong);
    }
    let mut orders = Vec::new(alloc);
    for line in Lines::of(bytes) {
        match O::of_words(line.words) {
            Some(order) => orders.push(order)?,
            None => return Err(ScriptRefusal::BadLine(line.number)),
        }
    }
    Ok(orders)
}
