//! Edit scripts.

ghost use Rattle.std.specs.Prelude.{◌≡◌, IfErr, IfOk, Ok};
ghost use Rattle.w4_defs.specs.Script.{script_of};
ghost use Rattle.w4_script.specs.Refusal.{Refuses};

use crate::order::order_of;
use crate::order_file::{LineOrder, read_orders};
use crate::refusal::ScriptRefusal;
use crate::words::Words;
use std::alloc::Global;
use w4_defs::Order;

impl LineOrder for Order {
    ghost use Rattle.w4_defs.specs.Script.{order_of as order_of_words};

    ghost order_of = { order_of_words };

    fn of_words(words: Words<'_>) -> Option<Order> {
        order_of(words)
    }
}

/// The orders of an edit script, one in each line that isn't skipped.
#[tactic(auto, unfolding(w4_defs::specs::Script::script_of))]
pub fn read_script(alloc: Global, bytes: &[u8]) -> Result<Vec<Order>, ScriptRefusal>
    ensures orders { IfOk result (λ orders. script_of bytes.now ≡ Ok orders.items) }
    ensures refused { IfErr result (λ refusal. Refuses refusal (script_of bytes.now)) }
{
    read_orders(alloc, bytes)
}
