//! The answer of `state`.

ghost use Rattle.std.specs.Prelude.{◌≡◌, ◌≤◌, IfOk, OnOk, Some, length};
ghost use Rattle.w4_defs.specs.Run.{run_state};
ghost use Rattle.w4_defs.specs.State.{State};
ghost use Rattle.w4_editor.specs.Editor.{current_recording, editing_setup, place_session};
ghost use Rattle.w4_defs.specs.World.{LeavesWriting};
ghost use Rattle.w4_defs.specs.ScriptAnswers.{if_place, state_answer};
ghost use Rattle.w4_defs.specs.Answers.{answer_text};
ghost use Rattle.w4_answers.specs.Desk.{RunsOn, OnlyShows};
ghost use Rattle.w4_answers.specs.ScriptAnswers.{GivesAnswer};

use crate::counted_editor::CountedEditor;
use crate::refusal::refuse;
use crate::shape::Shape;
use crate::state_line::{Facts, state_line};
use std::alloc::Global;
use std::sync::ledger::Ledger;
use w4_defs::{EditRefusal, OutOfMemory, Refusal};
use w4_editor::places::last_place;
use w4_house::House;

/// The line of the state at a place with the kept places, or that there is no such place.
pub fn answer_state<S: Shape, L: Ledger, H: House>(
    alloc: Global,
    house: &mut H,
    counted: &mut CountedEditor<L>,
    p: u32,
) -> Result<(), Refusal>
    ensures answered { GivesAnswer (H.world house.old) (H.world house.new) result
        counted.old.editor counted.new.editor
        (answer_text (place_session counted.old.editor) (if_place S.form (place_session counted.old.editor) p
        (state_answer S.form (editing_setup counted.old.editor) counted.old.editor.disk
        (place_session counted.old.editor) p))) }
    ensures rest { LeavesWriting (H.world house.old) (H.world house.new) }
    ensures frames_run { OnOk result (RunsOn p 0 counted.old.steps counted.new.steps
        counted.old.editor counted.new.editor) }
{
    let place = p as usize;
    let count = last_place(&counted.editor);
    if place > count {
        return refuse::<S, H>(alloc, house, EditRefusal::NoFrame);
    }
    let facts = facts(alloc, counted, place)?;
    let text = state_line(alloc, &counted.editor, place, count, facts)?;
    S::write(alloc, house, text.as_slice())
}

/// Whether the cart still runs at a place, and how long its disk is there.
fn facts<L: Ledger>(
    alloc: Global,
    counted: &mut CountedEditor<L>,
    place: usize,
) -> Result<Facts, OutOfMemory>
    requires place { place ≤ length counted.old.editor.session.current.inputs }
    ensures facts { IfOk result (λ facts. (state : State)
        × (run_state (editing_setup counted.old.editor) counted.old.editor.disk
        counted.old.editor.session.current.inputs place ≡ Some state)
        × (state.halt ≡ facts.halt) × (length state.disk ≡ facts.disk_len)) }
    ensures shows { OnOk result (OnlyShows counted.old.editor counted.new.editor) }
    ensures recording { current_recording counted.new.editor ≡ current_recording counted.old.editor }
    ensures frames_run { OnOk result (RunsOn place 0 counted.old.steps counted.new.steps
        counted.old.editor counted.new.editor) }
{
    counted.editor.go_to(alloc, place, &mut counted.steps)?;
    let state = counted.editor.state();
    Ok(Facts {
        halt: state.halt,
        disk_len: state.disk.bytes().len(),
    })
}
