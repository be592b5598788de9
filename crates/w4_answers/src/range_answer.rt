//! The answers of orders that ask for texts of a range of places.

ghost use Rattle.std.specs.Prelude.{◌≡◌, ◌+◌, ◌-◌, ◌≤◌, OnOk, length};
ghost use Rattle.std.specs.Option.{ForSome};
ghost use Rattle.w4_defs.specs.World.{LeavesWriting};
ghost use Rattle.w4_defs.specs.ScriptAnswers.{if_place, range_text};
ghost use Rattle.w4_defs.specs.Answers.{answer_text};
ghost use Rattle.w4_answers.specs.Desk.{IsMade, RunsOn, StepsOn, OnlyShows, text_by};
ghost use Rattle.w4_answers.specs.RangeAnswer.{lead_of};
ghost use Rattle.w4_answers.specs.RecordText.{text_of_place};
ghost use Rattle.w4_answers.specs.Writing.{Written};
ghost use Rattle.w4_answers.specs.ScriptAnswers.{GivesAnswer};
ghost use Rattle.w4_editor.specs.Editor.{place_session, current_recording, editing_setup};
ghost use Rattle.w4_defs.specs.PlaceTexts.{place_texts};
ghost use Rattle.w4_defs.specs.declared.place_text.PlaceText.TheVariants.{DiskBytes};

use crate::desk::Desk;
use crate::record_text::RecordText;
use crate::refusal::refuse;
use crate::shape::Shape;
use std::alloc::Global;
use std::sync::ledger::Ledger;
use w4_defs::{EditRefusal, PlaceText, Refusal};
use w4_editor::places::last_place;
use w4_house::House;

/// The answer of an order that asks for a text of each place from one to another. It runs the frames that
/// showing the first needs, and at most one for each place.
pub fn answer_range<S: Shape, L: Ledger, H: House>(
    alloc: Global,
    house: &mut H,
    desk: &mut Desk<L>,
    wanted: PlaceText,
    a: u32,
    b: u32,
) -> Result<(), Refusal>
    ensures answered { GivesAnswer (H.world house.old) (H.world house.new) result
        desk.old.counted.editor desk.new.counted.editor
        (answer_text (place_session desk.old.counted.editor) (if_place S.form
        (place_session desk.old.counted.editor) b (range_text S.form (editing_setup desk.old.counted.editor)
        desk.old.counted.editor.disk (place_session desk.old.counted.editor) wanted a b))) }
    ensures rest { LeavesWriting (H.world house.old) (H.world house.new) }
    ensures frames_run { OnOk result (RunsOn (a - lead_of wanted) (b + 1 - a)
        desk.old.counted.steps desk.new.counted.steps desk.old.counted.editor desk.new.counted.editor) }
{
    if b as usize > last_place(&desk.counted.editor) {
        return refuse::<S, H>(alloc, house, EditRefusal::NoFrame);
    }
    write_all::<S, L, H>(alloc, house, desk, wanted, a, b)
}

/// Writes the texts of the places `a` to `b`, one after another, so that memory doesn't grow with them.
fn write_all<S: Shape, L: Ledger, H: House>(
    alloc: Global,
    house: &mut H,
    desk: &mut Desk<L>,
    wanted: PlaceText,
    a: u32,
    b: u32,
) -> Result<(), Refusal>
    requires place { b ≤ length desk.old.counted.editor.session.current.inputs }
    ensures out { ForSome (place_texts (text_by S.form desk.old.counted.editor wanted) a (b + 1 - a))
        (λ text. Written (H.world house.old) (H.world house.new) result text) }
    ensures shows { OnOk result (OnlyShows desk.old.counted.editor desk.new.counted.editor) }
    ensures recording { current_recording desk.new.counted.editor
        ≡ current_recording desk.old.counted.editor }
    ensures rest { LeavesWriting (H.world house.old) (H.world house.new) }
    ensures frames_run { OnOk result (RunsOn (a - lead_of wanted) (b + 1 - a)
        desk.old.counted.steps desk.new.counted.steps desk.old.counted.editor desk.new.counted.editor) }
{
    let end = b as usize + 1;
    for place in a as usize..end {
        write_one::<S, L, H>(alloc, house, desk, wanted, place)?;
    }
    Ok(())
}

/// Writes the text of a place.
fn write_one<S: Shape, L: Ledger, H: House>(
    alloc: Global,
    house: &mut H,
    desk: &mut Desk<L>,
    wanted: PlaceText,
    place: usize,
) -> Result<(), Refusal>
    requires place { place ≤ length desk.old.counted.editor.session.current.inputs }
    ensures out { ForSome (text_by S.form desk.old.counted.editor wanted place)
        (λ text. Written (H.world house.old) (H.world house.new) result text) }
    ensures shows { OnOk result (OnlyShows desk.old.counted.editor desk.new.counted.editor) }
    ensures recording { current_recording desk.new.counted.editor
        ≡ current_recording desk.old.counted.editor }
    ensures rest { LeavesWriting (H.world house.old) (H.world house.new) }
    ensures made { OnOk result (IsMade (lead_of wanted) place desk.old.counted.steps desk.new.counted.steps
        desk.old.counted.editor desk.new.counted.editor) }
    ensures steps { OnOk result (StepsOn place desk.old.counted.steps desk.new.counted.steps
        desk.old.counted.editor desk.new.counted.editor) }
{
    match wanted {
        PlaceText::Image => {
            desk.make_image(alloc, place)?;
            S::write(alloc, house, desk.made_image())
        }
        PlaceText::Schedule => {
            write_record::<S, L, H>(alloc, house, desk, RecordText::Schedule, place)
        }
        PlaceText::Traces => {
            write_record::<S, L, H>(alloc, house, desk, RecordText::Traces, place)
        }
        PlaceText::DiskBytes => write_disk::<S, L, H>(alloc, house, desk, place),
    }
}

/// Writes a text of the frame that leads to a place.
fn write_record<S: Shape, L: Ledger, H: House>(
    alloc: Global,
    house: &mut H,
    desk: &mut Desk<L>,
    wanted: RecordText,
    place: usize,
) -> Result<(), Refusal>
    requires place { place ≤ length desk.old.counted.editor.session.current.inputs }
    ensures out { ForSome (text_by S.form desk.old.counted.editor (text_of_place wanted) place)
        (λ text. Written (H.world house.old) (H.world house.new) result text) }
    ensures shows { OnOk result (OnlyShows desk.old.counted.editor desk.new.counted.editor) }
    ensures recording { current_recording desk.new.counted.editor
        ≡ current_recording desk.old.counted.editor }
    ensures rest { LeavesWriting (H.world house.old) (H.world house.new) }
    ensures made { OnOk result (IsMade 1 place desk.old.counted.steps desk.new.counted.steps
        desk.old.counted.editor desk.new.counted.editor) }
    ensures steps { OnOk result (StepsOn place desk.old.counted.steps desk.new.counted.steps
        desk.old.counted.editor desk.new.counted.editor) }
{
    let text = desk.frame_text(alloc, wanted, place)?;
    S::write(alloc, house, text.as_slice())
}

/// Writes the bytes of the disk at a place.
fn write_disk<S: Shape, L: Ledger, H: House>(
    alloc: Global,
    house: &mut H,
    desk: &mut Desk<L>,
    place: usize,
) -> Result<(), Refusal>
    requires place { place ≤ length desk.old.counted.editor.session.current.inputs }
    ensures out { ForSome (text_by S.form desk.old.counted.editor DiskBytes place)
        (λ text. Written (H.world house.old) (H.world house.new) result text) }
    ensures shows { OnOk result (OnlyShows desk.old.counted.editor desk.new.counted.editor) }
    ensures recording { current_recording desk.new.counted.editor
        ≡ current_recording desk.old.counted.editor }
    ensures rest { LeavesWriting (H.world house.old) (H.world house.new) }
    ensures made { OnOk result (IsMade 0 place desk.old.counted.steps desk.new.counted.steps
        desk.old.counted.editor desk.new.counted.editor) }
    ensures steps { OnOk result (StepsOn place desk.old.counted.steps desk.new.counted.steps
        desk.old.counted.editor desk.new.counted.editor) }
{
    desk.go_on(alloc, place)?;
    S::write(alloc, house, desk.counted.editor.state().disk.bytes())
}
