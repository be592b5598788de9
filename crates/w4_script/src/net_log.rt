//! Logs of netplay.

ghost use Rattle.std.specs.Prelude.{◌≡◌, IfErr, IfOk, Ok, option_map};
ghost use Rattle.w4_defs.specs.NetLog.{log_rows, net_log_of, net_order_of, packet_words};
ghost use Rattle.w4_defs.specs.OrderFile.{order_named};
ghost use Rattle.w4_defs.specs.declared.netplay.NetOrder.TheVariants.{Pad};
ghost use Rattle.w4_script.specs.Words.{words_left};
ghost use Rattle.w4_script.specs.Refusal.{Refuses};

use crate::number::{decimal_byte, number_of};
use crate::order_file::{LineOrder, read_orders};
use crate::order_words::{no_word, one_number};
use crate::refusal::ScriptRefusal;
use crate::words::Words;
use std::alloc::Global;
use w4_defs::netplay::{NetOrder, Packet};

/// The packet of the three words that are left.
fn packet(mut words: Words<'_>) -> Option<Packet>
    ensures { option_map (λ packet. Pad packet) result ≡ packet_words (words_left words.entry) }
{
    let who = words.next()?;
    let when = words.next()?;
    let pressed = words.next()?;
    if words.next().is_some() {
        return None;
    }
    Some(Packet {
        player: decimal_byte(who)?,
        frame: number_of(when)?,
        pad: decimal_byte(pressed)?,
    })
}

/// The order of this name, with the words after it.
#[tactic(auto, unfolding(w4_defs::specs::NetLog::log_rows))]
fn order_named(name: &[u8], words: Words<'_>) -> Option<NetOrder>
    ensures { result ≡ order_named log_rows name.now (words_left words.entry) }
{
    if name == b"pad".as_slice() {
        packet(words).map(|packet| NetOrder::Pad { packet })
    } else if name == b"next".as_slice() {
        no_word(NetOrder::Next, words)
    } else if name == b"keep".as_slice() {
        one_number(words).map(|p| NetOrder::Keep { p })
    } else if name == b"show".as_slice() {
        one_number(words).map(|p| NetOrder::Show { p })
    } else if name == b"state".as_slice() {
        one_number(words).map(|p| NetOrder::StateAt { p })
    } else {
        None
    }
}

/// The order that a line's words are, or None if the line is bad.
fn order_of(mut words: Words<'_>) -> Option<NetOrder>
    ensures { result ≡ net_order_of (words_left words.entry) }
{
    let name = words.next()?;
    order_named(name, words)
}

impl LineOrder for NetOrder {
    ghost use Rattle.w4_defs.specs.NetLog.{net_order_of};

    ghost order_of = { net_order_of };

    fn of_words(words: Words<'_>) -> Option<NetOrder> {
        order_of(words)
    }
}

/// The orders of a log, one in each line that isn't skipped: `pad PLAYER FRAME BYTE`, `next`, `keep P`,
/// `show P` or `state P`. Errors: TooLong if there are more than 1,048,576 bytes; BadLine with the number of
/// the first bad line, counted from 1, skipped lines too; OutOfMemory.
#[tactic(auto, unfolding(w4_defs::specs::NetLog::net_log_of))]
pub fn read_log(alloc: Global, bytes: &[u8]) -> Result<Vec<NetOrder>, ScriptRefusal>
    ensures orders { IfOk result (λ orders. net_log_of bytes.now ≡ Ok orders.items) }
    ensures refused { IfErr result (λ refusal. Refuses refusal (net_log_of bytes.now)) }
{
    read_orders(alloc, bytes)
}
