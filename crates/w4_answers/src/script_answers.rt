//! The orders of a script, one after another.

ghost use Rattle.std.specs.Prelude.{OnOk};
ghost use Rattle.w4_editor.specs.Editor.{editing_setup, place_session};
ghost use Rattle.w4_defs.specs.World.{LeavesWriting};
ghost use Rattle.w4_defs.specs.ScriptAnswers.{answers};
ghost use Rattle.w4_answers.specs.ScriptAnswers.{AnswersWithin, GivesAnswer, GivesAnswers, answer_by};

use crate::change_answer::{answer_changed, change};
use crate::desk::Desk;
use crate::film_answer::{answer_film, settle_by_workers};
use crate::range_answer::answer_range;
use crate::shape::{Plain, Shape};
use crate::state_answer::answer_state;
use std::sync::ledger::Ledger;
use std::thread::Threads;
use w4_defs::{Order, PlaceText, Refusal};
use w4_house::House;
use w4_segments::{Gate, Resources};

/// Answers all orders, one after another, up to the first write that fails.
pub fn answer_all<L: Ledger, R: Threads + Sync, H: House, G: Gate + Sync>(
    resources: &Resources<'_, R, G>,
    house: &mut H,
    desk: &mut Desk<L>,
    orders: &[Order],
) -> Result<(), Refusal>
    ensures answered { GivesAnswers (H.world house.old) (H.world house.new) result
        desk.old.counted.editor desk.new.counted.editor
        (answers (editing_setup desk.old.counted.editor) desk.old.counted.editor.disk
        (place_session desk.old.counted.editor) orders.now) }
    ensures rest { LeavesWriting (H.world house.old) (H.world house.new) }
{
    for order in orders {
        answer::<Plain, L, R, H, G>(resources, house, desk, order)?;
    }
    Ok(())
}

/// Answers one order. It runs the frames that showing the first place that is asked for needs, and at most
/// one for each place; `settle` leaves all kept places up to date.
pub(crate) fn answer<S: Shape, L: Ledger, R: Threads + Sync, H: House, G: Gate + Sync>(
    resources: &Resources<'_, R, G>,
    house: &mut H,
    desk: &mut Desk<L>,
    order: &Order,
) -> Result<(), Refusal>
    ensures answered { GivesAnswer (H.world house.old) (H.world house.new) result
        desk.old.counted.editor desk.new.counted.editor (answer_by S.form desk.old.counted.editor order.now) }
    ensures rest { LeavesWriting (H.world house.old) (H.world house.new) }
    ensures frames_run { OnOk result (AnswersWithin order.now desk.old.counted.steps desk.new.counted.steps
        desk.old.counted.editor desk.new.counted.editor) }
{
    let alloc = resources.alloc;
    match *order {
        Order::Show { p } => { answer_range::<S, L, H>(alloc, house, desk, PlaceText::Image, p, p) }
        Order::Film { a, b, workers } => {
            answer_film::<S, R, H, G>(resources, house, &mut desk.counted.editor, a, b, workers)
        }
        Order::Settle { workers } => {
            settle_by_workers(resources, &mut desk.counted.editor, workers)?;
            Ok(())
        }
        Order::Tones { a, b } => {
            answer_range::<S, L, H>(alloc, house, desk, PlaceText::Schedule, a, b)
        }
        Order::Traces { a, b } => {
            answer_range::<S, L, H>(alloc, house, desk, PlaceText::Traces, a, b)
        }
        Order::DiskAt { p } => {
            answer_range::<S, L, H>(alloc, house, desk, PlaceText::DiskBytes, p, p)
        }
        Order::StateAt { p } => answer_state::<S, L, H>(alloc, house, &mut desk.counted, p),
        _ => {
            let changed = change(alloc, &mut desk.counted, order);
            answer_changed::<S, H>(alloc, house, changed)
        }
    }
}
