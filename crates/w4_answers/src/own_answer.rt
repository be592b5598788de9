//! The answers of the orders that a live session alone has: a page, globals, inputs, and units.

ghost use Rattle.std.specs.Prelude.{◌≡◌, ◌++◌, ◌≤◌, IfOk, OnOk, Some, codes, flat_map, length, option_map, slice_range};
ghost use Rattle.std.specs.Option.{ForSome};
ghost use Rattle.w4_defs.specs.FrameTexts.{spaced};
ghost use Rattle.w4_defs.specs.InputsText.{input_lines};
ghost use Rattle.w4_defs.specs.Live.{LiveSession, globals_text, live_answer, val_number};
ghost use Rattle.w4_defs.specs.Run.{run_state};
ghost use Rattle.w4_defs.specs.ScriptAnswers.{if_place, no_frame};
ghost use Rattle.w4_defs.specs.State.{State};
ghost use Rattle.w4_defs.specs.World.{LeavesWriting};
ghost use Rattle.w4_editor.specs.Editor.{current_recording, editing_setup, place_session};
ghost use Rattle.w4_answers.specs.OwnAnswer.{OwnWithin, IsOwn, part_of};
ghost use Rattle.w4_answers.specs.Desk.{RunsOn, OnlyShows};
ghost use Rattle.w4_answers.specs.Writing.{Written};

use crate::counted_editor::CountedEditor;
use crate::desk::Desk;
use crate::inputs_text::add_input_lines;
use crate::shape::Shape;
use crate::units_answer::answer_units;
use std::alloc::Global;
use std::sync::ledger::Ledger;
use w4_defs::live::LiveOrder;
use w4_defs::{OutOfMemory, Refusal, Val};
use w4_devices::text_parts::{add_number, add_words};
use w4_editor::Editor;
use w4_editor::places::last_place;
use w4_house::House;
use w4_map::State;

/// The answer of an order that a live session alone has.
pub fn answer_own<S: Shape, L: Ledger, H: House>(
    alloc: Global,
    house: &mut H,
    desk: &mut Desk<L>,
    order: &LiveOrder,
) -> Result<(), Refusal>
    requires { IsOwn order.now }
    ensures out { (s : LiveSession) → place_session desk.old.counted.editor ≡ s.session
        → ForSome (live_answer S.form (editing_setup desk.old.counted.editor) desk.old.counted.editor.disk s
        order.now).out
        (λ out. Written (H.world house.old) (H.world house.new) result out) }
    ensures session { (s : LiveSession) → (live_answer S.form (editing_setup desk.old.counted.editor)
        desk.old.counted.editor.disk s order.now).session ≡ s }
    ensures shows { OnOk result (OnlyShows desk.old.counted.editor desk.new.counted.editor) }
    ensures recording { current_recording desk.new.counted.editor
        ≡ current_recording desk.old.counted.editor }
    ensures rest { LeavesWriting (H.world house.old) (H.world house.new) }
    ensures frames_run { OnOk result (OwnWithin order.now desk.old.counted.steps desk.new.counted.steps
        desk.old.counted.editor desk.new.counted.editor) }
{
    match order {
        LiveOrder::PageAt { p } => {
            answer_part::<S, L, H>(alloc, house, &mut desk.counted, StatePart::Page, *p)
        }
        LiveOrder::GlobalsAt { p } => {
            answer_part::<S, L, H>(alloc, house, &mut desk.counted, StatePart::Globals, *p)
        }
        LiveOrder::Inputs { a, b } => {
            answer_inputs::<S, H>(alloc, house, &desk.counted.editor, *a, *b)
        }
        LiveOrder::Units { a, b } => answer_units::<S, L, H>(alloc, house, desk, *a, *b),
        LiveOrder::Script { .. } | LiveOrder::Query { .. } | LiveOrder::Save => unreachable!(),
    }
}

/// Writes that there is no such place.
fn refuse_place<S: Shape, H: House>(alloc: Global, house: &mut H) -> Result<(), Refusal>
    ensures out { Written (H.world house.old) (H.world house.new) result (S.form no_frame) }
    ensures rest { LeavesWriting (H.world house.old) (H.world house.new) }
{
    S::write(alloc, house, b"refused no frame\n")
}

/// The part of a state that an answer writes.
#[derive(Clone, Copy)]
pub enum StatePart {
    /// The bytes of the page.
    Page,
    /// The line of the globals.
    Globals,
}

/// A part of the state at a place, or that there is no such place.
fn answer_part<S: Shape, L: Ledger, H: House>(
    alloc: Global,
    house: &mut H,
    counted: &mut CountedEditor<L>,
    part: StatePart,
    p: u32,
) -> Result<(), Refusal>
    ensures out { ForSome (if_place S.form (place_session counted.old.editor) p
        (option_map (λ (state : State). S.form (part_of part state))
        (run_state (editing_setup counted.old.editor) counted.old.editor.disk
        counted.old.editor.session.current.inputs p)))
        (λ out. Written (H.world house.old) (H.world house.new) result out) }
    ensures shows { OnOk result (OnlyShows counted.old.editor counted.new.editor) }
    ensures recording { current_recording counted.new.editor ≡ current_recording counted.old.editor }
    ensures rest { LeavesWriting (H.world house.old) (H.world house.new) }
    ensures frames_run { OnOk result (RunsOn p 0 counted.old.steps counted.new.steps
        counted.old.editor counted.new.editor) }
{
    let place = p as usize;
    if place > last_place(&counted.editor) {
        return refuse_place::<S, H>(alloc, house);
    }
    counted.editor.go_to(alloc, place, &mut counted.steps)?;
    write_part::<S, H>(alloc, house, counted.editor.state(), part)
}

/// Writes a part of a state.
fn write_part<S: Shape, H: House>(
    alloc: Global,
    house: &mut H,
    state: &State,
    part: StatePart,
) -> Result<(), Refusal>
    ensures out { Written (H.world house.old) (H.world house.new) result (S.form (part_of part state.now)) }
    ensures rest { LeavesWriting (H.world house.old) (H.world house.new) }
{
    match part {
        StatePart::Page => S::write(alloc, house, state.page.bytes().as_slice()),
        StatePart::Globals => {
            let line = globals_text(alloc, state.globals.as_slice())?;
            S::write(alloc, house, line.as_slice())
        }
    }
}

/// The line of a state's globals.
fn globals_text(alloc: Global, globals: &[Val]) -> Result<Vec<u8>, OutOfMemory>
    ensures { IfOk result (λ text. text.items ≡ globals_text globals.now) }
{
    let mut text = Vec::new(alloc);
    add_words(&mut text, b"globals")?;
    add_globals(&mut text, globals)?;
    add_words(&mut text, b"\n")?;
    Ok(text)
}

/// Adds globals, each after a space.
fn add_globals(text: &mut Vec<u8>, globals: &[Val]) -> Result<(), OutOfMemory>
    ensures { OnOk result (text.new.items
        ≡ text.old.items ++ flat_map (λ value. spaced (val_number value)) globals.now) }
{
    for value in globals {
        add_number(text, val_number(*value))?;
    }
    Ok(())
}

/// A value without a sign.
fn val_number(value: Val) -> u64
    ensures { result ≡ val_number value }
{
    match value {
        Val::I32(number) => u64::from(number),
        Val::I64(number) => number,
    }
}

/// The inputs from `a` to before `b`, as orders that set them, or that there is no place `b`.
fn answer_inputs<S: Shape, H: House>(
    alloc: Global,
    house: &mut H,
    editor: &Editor,
    a: u32,
    b: u32,
) -> Result<(), Refusal>
    ensures out { ForSome (if_place S.form (place_session editor.now) b (Some (S.form
        (input_lines (codes "set") a (slice_range editor.now.session.current.inputs a b)))))
        (λ out. Written (H.world house.old) (H.world house.new) result out) }
    ensures rest { LeavesWriting (H.world house.old) (H.world house.new) }
{
    if b as usize > last_place(editor) {
        return refuse_place::<S, H>(alloc, house);
    }
    let text = inputs_text(alloc, editor, a, b)?;
    S::write(alloc, house, text.as_slice())
}

/// The lines of inputs.
fn inputs_text(alloc: Global, editor: &Editor, a: u32, b: u32) -> Result<Vec<u8>, OutOfMemory>
    requires place { b ≤ length editor.now.session.current.inputs }
    ensures { IfOk result (λ text. text.items
        ≡ input_lines (codes "set") a (slice_range editor.now.session.current.inputs a b)) }
{
    let mut text = Vec::new(alloc);
    if a < b {
        let inputs = editor.recording().frames.as_slice();
        add_input_lines(
            &mut text,
            b"set",
            a as usize,
            &inputs[a as usize..b as usize],
        )?;
    }
    Ok(text)
}
