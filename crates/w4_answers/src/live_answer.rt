//! The answer of one line of a live session.

ghost use Rattle.std.specs.Prelude.{◌≡◌, ◌++◌, false};
ghost use Rattle.w4_defs.specs.Live.{LiveSession, Opened, answer_end, recording_left, refused_save};
ghost use Rattle.w4_defs.specs.Meaning.{RunsHaveMeaning};
ghost use Rattle.w4_defs.specs.World.{LeavesWriting};
ghost use Rattle.w4_editor.specs.Editor.{current_recording};
ghost use Rattle.w4_script.specs.Live.{IsAsked, asked_view};
ghost use Rattle.w4_answers.specs.Writing.{Written};
ghost use Rattle.w4_answers.specs.LiveAnswer.{
  AnswersSave,
  GivesPieces,
  asked_answer,
  asks_save,
  AnswersLine,
  LeavesServing,
  Sits,
};

use crate::desk::Desk;
use crate::own_answer::answer_own;
use crate::ram_answers::answer_line;
use crate::saving::save_recording;
use crate::script_answers::answer;
use crate::shape::{Framed, Shape};
use crate::writing::write_bytes;
use std::alloc::Global;
use std::sync::ledger::Ledger;
use std::thread::Threads;
use w4_defs::{LiveOrder, Refusal};
use w4_house::House;
use w4_inspect::Search;
use w4_script::{Asked, read_live_line};
use w4_segments::{Gate, Resources};

/// Answers a line: in pieces, and then the end.
pub fn answer_live_line<L: Ledger, R: Threads + Sync, H: House, G: Gate + Sync>(
    resources: &Resources<'_, R, G>,
    house: &mut H,
    desk: &mut Desk<L>,
    search: &mut Option<Search>,
    line: &[u8],
    out: &str,
) -> Result<(), Refusal>
    ensures answers { (o : Opened) (s : LiveSession) → RunsHaveMeaning o.cart → o.out ≡ out.now
        → Sits o s desk.old.counted.editor search.old
        → AnswersLine (H.world house.old) (H.world house.new) result o s line.now
        desk.new.counted.editor search.new }
    ensures rest { LeavesServing (H.world house.old) (H.world house.new) }
{
    let asked = read_live_line(line);
    if is_save(&asked) {
        return answer_save(resources.alloc, house, desk, out);
    }
    answer_pieces(resources, house, desk, search, &asked)?;
    write_bytes(resources.alloc, house, b"0\n")
}

/// Whether a line asks for OUT to be saved.
fn is_save(asked: &Asked) -> bool
    ensures { result ≡ asks_save (asked_view asked.now) }
{
    match *asked {
        Asked::Nothing => false,
        Asked::NoOrder => false,
        Asked::Order(LiveOrder::Save) => true,
        Asked::Order(_) => false,
    }
}

/// Writes the pieces of an answer to anything but `save`.
fn answer_pieces<L: Ledger, R: Threads + Sync, H: House, G: Gate + Sync>(
    resources: &Resources<'_, R, G>,
    house: &mut H,
    desk: &mut Desk<L>,
    search: &mut Option<Search>,
    asked: &Asked,
) -> Result<(), Refusal>
    requires asked { IsAsked asked.now }
    requires other { asks_save (asked_view asked.now) ≡ false }
    ensures gives { (o : Opened) (s : LiveSession) → Sits o s desk.old.counted.editor search.old
        → GivesPieces (H.world house.old) (H.world house.new) result o s
        (asked_answer o s (asked_view asked.now)) desk.new.counted.editor search.new }
    ensures rest { LeavesWriting (H.world house.old) (H.world house.new) }
{
    let alloc = resources.alloc;
    match *asked {
        Asked::Nothing => Ok(()),
        Asked::NoOrder => Framed::write(alloc, house, b"refused no order\n"),
        Asked::Order(live) => match live {
            LiveOrder::Script { order } => {
                answer::<Framed, L, R, H, G>(resources, house, desk, &order)
            }
            LiveOrder::Query { ask } => {
                answer_line::<Framed, L, H>(alloc, house, &mut desk.counted, search, &ask)
            }
            _ => answer_own::<Framed, L, H>(alloc, house, desk, &live),
        },
    }
}

/// Saves the recording, and answers with how that ended.
fn answer_save<L: Ledger, H: House>(
    alloc: Global,
    house: &mut H,
    desk: &Desk<L>,
    out: &str,
) -> Result<(), Refusal>
    ensures saves { (o : Opened) (s : LiveSession) → o.out ≡ out.now
        → current_recording desk.now.counted.editor ≡ recording_left o s
        → AnswersSave (H.world house.old) (H.world house.new) result o s }
    ensures rest { LeavesServing (H.world house.old) (H.world house.new) }
{
    match save_recording(alloc, house, desk, out) {
        Ok(()) => write_bytes(alloc, house, b"0\n"),
        Err(why) => match why {
            Refusal::WriteFault => refuse_save(alloc, house),
            _ => Err(why),
        },
    }
}

/// Answers that OUT couldn't be written.
fn refuse_save<H: House>(alloc: Global, house: &mut H) -> Result<(), Refusal>
    ensures out { Written (H.world house.old) (H.world house.new) result (refused_save ++ answer_end) }
    ensures rest { LeavesWriting (H.world house.old) (H.world house.new) }
{
    Framed::write(alloc, house, b"refused cannot write\n")?;
    write_bytes(alloc, house, b"0\n")
}
