//! Queries of memory.

ghost use Rattle.std.specs.Prelude.{◌≡◌, IfErr, IfOk, IfSome, Ok};
ghost use Rattle.std.specs.List.{All};
ghost use Rattle.w4_defs.specs.OrderFile.{order_named};
ghost use Rattle.w4_defs.specs.RamQuery.{ask_of, decimal_width, is_words, keeping, query_line_of, query_of, query_rows, start_words, test_words, watch_words};
ghost use Rattle.w4_script.specs.Words.{words_left};
ghost use Rattle.w4_script.specs.Refusal.{Refuses};
ghost use Rattle.w4_script.specs.Query.{IsQueryLine, IsRequest};

use crate::number::number_of;
use crate::order::order_of;
use crate::order_file::{LineOrder, read_orders};
use crate::order_words::{no_word, one_number};
use crate::refusal::ScriptRefusal;
use crate::words::Words;
use std::alloc::Global;
use w4_defs::Order;
use w4_defs::inspect::{Ask, QueryLine, Test};

/// A width: 1, 2 or 4.
fn width_of(word: &[u8]) -> Option<u32>
    ensures { result ≡ decimal_width word.now }
{
    let width = number_of(word)?;
    if width == 1 || width == 2 || width == 4 {
        Some(width)
    } else {
        None
    }
}

/// An address, a width and two places, the first at most the second.
fn watch_of_words(mut words: Words<'_>) -> Option<Ask>
    ensures { result ≡ watch_words (words_left words.entry) }
{
    let place = words.next()?;
    let size = words.next()?;
    let first = words.next()?;
    let last = words.next()?;
    if words.next().is_some() {
        return None;
    }
    let address = number_of(place)?;
    let width = width_of(size)?;
    let a = number_of(first)?;
    let b = number_of(last)?;
    if a <= b {
        Some(Ask::Watch {
            address,
            width,
            a,
            b,
        })
    } else {
        None
    }
}

/// A width and a place.
fn start_of_words(mut words: Words<'_>) -> Option<Ask>
    ensures { result ≡ start_words (words_left words.entry) }
{
    let size = words.next()?;
    let place = words.next()?;
    if words.next().is_some() {
        return None;
    }
    let width = width_of(size)?;
    let p = number_of(place)?;
    Some(Ask::Start { width, p })
}

/// A place and the number that the value is there.
fn is_of_words(mut words: Words<'_>) -> Option<Ask>
    ensures { result ≡ is_words (words_left words.entry) }
{
    let place = words.next()?;
    let number = words.next()?;
    if words.next().is_some() {
        return None;
    }
    let p = number_of(place)?;
    let value = number_of(number)?;
    Some(Ask::Narrow {
        p,
        test: Test::Is { value },
    })
}

/// A place, at which this test is to hold.
fn narrowing(words: Words<'_>, test: Test) -> Option<Ask>
    ensures { result ≡ test_words test (words_left words.entry) }
{
    let p = one_number(words)?;
    Some(Ask::Narrow { p, test })
}

/// The request of this name, with the words after it.
#[tactic(auto, unfolding(w4_defs::specs::RamQuery::query_rows))]
fn ask_named(name: &[u8], words: Words<'_>) -> Option<Ask>
    ensures { result ≡ order_named query_rows name.now (words_left words.entry) }
{
    if name == b"watch".as_slice() {
        watch_of_words(words)
    } else if name == b"start".as_slice() {
        start_of_words(words)
    } else if name == b"is".as_slice() {
        is_of_words(words)
    } else if name == b"same".as_slice() {
        narrowing(words, Test::Same)
    } else if name == b"changed".as_slice() {
        narrowing(words, Test::Changed)
    } else if name == b"more".as_slice() {
        narrowing(words, Test::More)
    } else if name == b"less".as_slice() {
        narrowing(words, Test::Less)
    } else if name == b"list".as_slice() {
        no_word(Ask::List, words)
    } else {
        None
    }
}

/// The request that a line's words are, or None if the line is bad.
pub fn ask_of(mut words: Words<'_>) -> Option<Ask>
    ensures request { result ≡ ask_of (words_left words.entry) }
    ensures fit { IfSome result IsRequest }
{
    let name = words.next()?;
    ask_named(name, words)
}

/// The line that an order of a script is, where it keeps places.
fn keeping(order: Order) -> Option<QueryLine>
    ensures { result ≡ keeping order }
{
    match order {
        Order::Keep { p } => Some(QueryLine::Keep { p }),
        Order::KeepEvery { every } => Some(QueryLine::KeepEvery { every }),
        _ => None,
    }
}

/// The line of a query that these words are: a request, or an order of a script that keeps places.
fn query_line_of(words: Words<'_>) -> Option<QueryLine>
    ensures { result ≡ query_line_of (words_left words.entry) }
{
    if let Some(ask) = ask_of(words) {
        return Some(QueryLine::Ask { ask });
    }
    keeping(order_of(words)?)
}

impl LineOrder for QueryLine {
    ghost use Rattle.w4_defs.specs.RamQuery.{query_line_of};

    ghost order_of = { query_line_of };

    fn of_words(words: Words<'_>) -> Option<QueryLine> {
        query_line_of(words)
    }
}

/// The lines of a query, those that aren't skipped. Lines are as in a script, and say
/// `watch ADDRESS WIDTH A B`, A at most B, `start WIDTH P`, `is P VALUE`, `same P`, `changed P`, `more P`,
/// `less P` or `list`, WIDTH being 1, 2 or 4, or, as in a script, `keep P` or `keep-every E`. Errors as for a
/// script: TooLong, BadLine, OutOfMemory.
#[tactic(auto, unfolding(w4_defs::specs::RamQuery::query_of))]
pub fn read_query(alloc: Global, bytes: &[u8]) -> Result<Vec<QueryLine>, ScriptRefusal>
    ensures lines { IfOk result (λ lines. query_of bytes.now ≡ Ok lines.items) }
    ensures fit { IfOk result (λ lines. All IsQueryLine lines.items) }
    ensures refused { IfErr result (λ refusal. Refuses refusal (query_of bytes.now)) }
{
    read_orders(alloc, bytes)
}
