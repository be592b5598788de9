//! The orders of an edit script, each read from a line's words.

ghost use Rattle.std.specs.Prelude.{◌≡◌};
ghost use Rattle.w4_defs.specs.OrderFile.{order_named};
ghost use Rattle.w4_defs.specs.Script.{order_of, script_rows};
ghost use Rattle.w4_script.specs.Words.{words_left};

use crate::frame::frame;
use crate::order_words::{no_word, one_number, range};
use crate::script_words::{film, number_between};
use crate::words::Words;
use w4_defs::Order;

/// The order of this name, with the words after it.
#[tactic(auto, unfolding(w4_defs::specs::Script::script_rows))]
fn order_named(name: &[u8], words: Words<'_>) -> Option<Order>
    ensures { result ≡ order_named script_rows name.now (words_left words.entry) }
{
    if name == b"set".as_slice() {
        frame(words).map(|(k, input)| Order::Set { k, input })
    } else if name == b"insert".as_slice() {
        frame(words).map(|(k, input)| Order::Insert { k, input })
    } else if name == b"delete".as_slice() {
        one_number(words).map(|k| Order::Delete { k })
    } else if name == b"undo".as_slice() {
        no_word(Order::Undo, words)
    } else if name == b"redo".as_slice() {
        no_word(Order::Redo, words)
    } else if name == b"keep".as_slice() {
        one_number(words).map(|p| Order::Keep { p })
    } else if name == b"keep-every".as_slice() {
        number_between(words, 1, u32::MAX).map(|every| Order::KeepEvery { every })
    } else if name == b"drop".as_slice() {
        one_number(words).map(|p| Order::DropKept { p })
    } else if name == b"settle".as_slice() {
        number_between(words, 1, 16).map(|workers| Order::Settle { workers })
    } else if name == b"show".as_slice() {
        one_number(words).map(|p| Order::Show { p })
    } else if name == b"film".as_slice() {
        film(words)
    } else if name == b"tones".as_slice() {
        range(words).map(|(a, b)| Order::Tones { a, b })
    } else if name == b"traces".as_slice() {
        range(words).map(|(a, b)| Order::Traces { a, b })
    } else if name == b"disk".as_slice() {
        one_number(words).map(|p| Order::DiskAt { p })
    } else if name == b"state".as_slice() {
        one_number(words).map(|p| Order::StateAt { p })
    } else {
        None
    }
}

/// The order that a line's words are, or None if the line is bad.
pub fn order_of(mut words: Words<'_>) -> Option<Order>
    ensures { result ≡ order_of (words_left words.entry) }
{
    let name = words.next()?;
    order_named(name, words)
}
