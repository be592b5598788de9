//! The answer of `units` in a live session: what the frames of a range took of their budgets.

ghost use Rattle.std.specs.Prelude.{◌≡◌, ◌+◌, ◌-◌, ◌<◌, ◌≤◌, OnOk, length};
ghost use Rattle.std.specs.Option.{ForSome};
ghost use Rattle.w4_defs.specs.PlaceTexts.{place_texts};
ghost use Rattle.w4_defs.specs.ScriptAnswers.{if_place};
ghost use Rattle.w4_defs.specs.World.{LeavesWriting};
ghost use Rattle.w4_editor.specs.Editor.{current_recording, place_session};
ghost use Rattle.w4_answers.specs.Desk.{IsMade, RunsOn, StepsOn, OnlyShows};
ghost use Rattle.w4_answers.specs.Writing.{Written};
ghost use Rattle.w4_answers.specs.UnitsAnswer.{units_by};

use crate::desk::Desk;
use crate::shape::Shape;
use std::alloc::Global;
use std::sync::ledger::Ledger;
use w4_console::units_line;
use w4_defs::Refusal;
use w4_editor::places::last_place;
use w4_house::House;

/// The lines of the frames from `a` to before `b`, or that there is no place `b`.
pub fn answer_units<S: Shape, L: Ledger, H: House>(
    alloc: Global,
    house: &mut H,
    desk: &mut Desk<L>,
    a: u32,
    b: u32,
) -> Result<(), Refusal>
    ensures out { ForSome (if_place S.form (place_session desk.old.counted.editor) b
        (place_texts (units_by S.form desk.old.counted.editor) a (b - a)))
        (λ text. Written (H.world house.old) (H.world house.new) result text) }
    ensures shows { OnOk result (OnlyShows desk.old.counted.editor desk.new.counted.editor) }
    ensures recording { current_recording desk.new.counted.editor
        ≡ current_recording desk.old.counted.editor }
    ensures rest { LeavesWriting (H.world house.old) (H.world house.new) }
    ensures frames_run { OnOk result (RunsOn a (b - a) desk.old.counted.steps desk.new.counted.steps
        desk.old.counted.editor desk.new.counted.editor) }
{
    if b as usize > last_place(&desk.counted.editor) {
        return S::write(alloc, house, b"refused no frame\n");
    }
    write_all_units::<S, L, H>(alloc, house, desk, a, b)
}

/// Writes the lines one after another, so that memory doesn't grow with their number.
fn write_all_units<S: Shape, L: Ledger, H: House>(
    alloc: Global,
    house: &mut H,
    desk: &mut Desk<L>,
    a: u32,
    b: u32,
) -> Result<(), Refusal>
    requires place { b ≤ length desk.old.counted.editor.session.current.inputs }
    ensures out { ForSome (place_texts (units_by S.form desk.old.counted.editor) a (b - a))
        (λ text. Written (H.world house.old) (H.world house.new) result text) }
    ensures shows { OnOk result (OnlyShows desk.old.counted.editor desk.new.counted.editor) }
    ensures recording { current_recording desk.new.counted.editor
        ≡ current_recording desk.old.counted.editor }
    ensures rest { LeavesWriting (H.world house.old) (H.world house.new) }
    ensures frames_run { OnOk result (RunsOn a (b - a) desk.old.counted.steps desk.new.counted.steps
        desk.old.counted.editor desk.new.counted.editor) }
{
    let end = b as usize;
    for k in a as usize..end {
        write_units::<S, L, H>(alloc, house, desk, k)?;
    }
    Ok(())
}

/// Writes the line of the frame from place `k` on.
fn write_units<S: Shape, L: Ledger, H: House>(
    alloc: Global,
    house: &mut H,
    desk: &mut Desk<L>,
    k: usize,
) -> Result<(), Refusal>
    requires place { k < length desk.old.counted.editor.session.current.inputs }
    ensures out { ForSome (units_by S.form desk.old.counted.editor k)
        (λ text. Written (H.world house.old) (H.world house.new) result text) }
    ensures shows { OnOk result (OnlyShows desk.old.counted.editor desk.new.counted.editor) }
    ensures recording { current_recording desk.new.counted.editor
        ≡ current_recording desk.old.counted.editor }
    ensures rest { LeavesWriting (H.world house.old) (H.world house.new) }
    ensures made { OnOk result (IsMade 1 (k + 1) desk.old.counted.steps desk.new.counted.steps
        desk.old.counted.editor desk.new.counted.editor) }
    ensures steps { OnOk result (StepsOn (k + 1) desk.old.counted.steps desk.new.counted.steps
        desk.old.counted.editor desk.new.counted.editor) }
{
    let taken = desk.frame_taken(alloc, k)?;
    let mut line = Vec::new(alloc);
    units_line(alloc, k, taken, &mut line)?;
    S::write(alloc, house, line.as_slice())
}
