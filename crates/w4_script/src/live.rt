//! Lines of a live session: what each asks for.

ghost use Rattle.std.specs.Prelude.{◌≡◌, IfSome};
ghost use Rattle.w4_defs.specs.Live.{asked_of, live_order_of, own_rows};
ghost use Rattle.w4_defs.specs.OrderFile.{order_by, order_named};
ghost use Rattle.w4_script.specs.Words.{words_left};
ghost use Rattle.w4_script.specs.Live.{IsAsked, IsLiveOrder, asked_view};

use crate::order::order_of;
use crate::order_words::{no_word, one_number, range};
use crate::query::ask_of;
use crate::words::{Words, is_skipped, words_of};
use w4_defs::LiveOrder;

/// The greatest length of a line of a live session, in bytes, the byte 10 that ends it not counted, a byte 13
/// before that counted.
pub const MOST_LINE_BYTES: usize = 1_024;

/// What a line of a live session asks for.
#[derive(Clone, Copy, PartialEq, Eq, Debug)]
pub enum Asked {
    /// The line has no words, or its first begins with `#`.
    Nothing,
    /// The line is too long, or its words are no order.
    NoOrder,
    /// The order that the line is.
    Order(LiveOrder),
}

/// The order of this name that a session alone has, with the words after it.
#[tactic(auto, unfolding(w4_defs::specs::Live::own_rows))]
fn own_order_named(name: &[u8], words: Words<'_>) -> Option<LiveOrder>
    ensures order { result ≡ order_named own_rows name.now (words_left words.entry) }
    ensures fit { IfSome result IsLiveOrder }
{
    if name == b"page".as_slice() {
        one_number(words).map(|p| LiveOrder::PageAt { p })
    } else if name == b"globals".as_slice() {
        one_number(words).map(|p| LiveOrder::GlobalsAt { p })
    } else if name == b"inputs".as_slice() {
        range(words).map(|(a, b)| LiveOrder::Inputs { a, b })
    } else if name == b"units".as_slice() {
        range(words).map(|(a, b)| LiveOrder::Units { a, b })
    } else if name == b"save".as_slice() {
        no_word(LiveOrder::Save, words)
    } else {
        None
    }
}

/// The order that a line's words are among those that a session alone has.
fn own_order_of(mut words: Words<'_>) -> Option<LiveOrder>
    ensures order { result ≡ order_by own_rows (words_left words.entry) }
    ensures fit { IfSome result IsLiveOrder }
{
    let name = words.next()?;
    own_order_named(name, words)
}

/// The order that a line's words are: one of a script, a request of a query, or one that a session alone has.
fn live_order_of(words: Words<'_>) -> Option<LiveOrder>
    ensures order { result ≡ live_order_of (words_left words.entry) }
    ensures fit { IfSome result IsLiveOrder }
{
    if let Some(order) = order_of(words) {
        return Some(LiveOrder::Script { order });
    }
    if let Some(ask) = ask_of(words) {
        return Some(LiveOrder::Query { ask });
    }
    own_order_of(words)
}

/// What a line asks for, which comes without the byte 10 that ends it: one byte 13 at its end is dropped, and
/// words are parted by spaces. It is an order of a script, a request of a query, `page P`, `globals P`,
/// `inputs A B` or `units A B`, A at most B, or `save`. Takes no memory.
pub fn read_live_line(line: &[u8]) -> Asked
    ensures asked { asked_view result ≡ asked_of line.now }
    ensures fit { IsAsked result }
{
    if line.len() > MOST_LINE_BYTES {
        return Asked::NoOrder;
    }
    let words = words_of(line);
    if is_skipped(words) {
        return Asked::Nothing;
    }
    match live_order_of(words) {
        Some(order) => Asked::Order(order),
        None => Asked::NoOrder,
    }
}
