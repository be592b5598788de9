//! Orders that change inputs, history or kept places.

ghost use Rattle.std.specs.Prelude.{◌≡◌, ◌≢◌, ℕ, IfErr, List, OnErr, OnOk, Result};
ghost use Rattle.w4_defs.specs.declared.editing.EditRefusal.{EditRefusal as DeclaredRefusal};
ghost use Rattle.w4_defs.specs.declared.editing.EditRefusal.TheVariants.{OutOfMemory as NoMemory};
ghost use Rattle.w4_defs.specs.declared.order.Order.{Order as DeclaredOrder};
ghost use Rattle.w4_defs.specs.World.{LeavesWriting};
ghost use Rattle.w4_defs.specs.ScriptAnswers.{answer_change};
ghost use Rattle.w4_defs.specs.Session.{Session, keep, keep_every, places_alone};
ghost use Rattle.w4_answers.specs.ChangeAnswer.{ChangesWithin, changed};
ghost use Rattle.w4_answers.specs.ScriptAnswers.{GivesAnswer};
ghost use Rattle.w4_editor.specs.Playing.{AreKeptInTurn, IsKeptAt};
ghost use Rattle.w4_editor.specs.Editor.{Editing, current_recording, IsChanged, place_session};

use crate::counted_editor::CountedEditor;
use crate::refusal::refuse;
use crate::shape::Shape;
use std::alloc::Global;
use std::sync::ledger::Ledger;
use w4_defs::editing_laws::places_decide;
use w4_defs::{EditRefusal, Order, Refusal};
use w4_editor::keep_every::keep_every;
use w4_house::House;

/// Carries out an order on the session. One that only asks changes nothing.
pub fn change<L: Ledger>(
    alloc: Global,
    counted: &mut CountedEditor<L>,
    order: &Order,
) -> Result<(), EditRefusal>
    ensures changed { IsChanged result counted.old.editor counted.new.editor
        (changed order.now (place_session counted.old.editor)) }
    ensures recording { OnErr result
        (current_recording counted.new.editor ≡ current_recording counted.old.editor) }
    ensures frames_run { OnOk result (ChangesWithin order.now counted.old.steps counted.new.steps
        counted.old.editor counted.new.editor) }
    ensures idle { IfErr result (λ refusal. refusal ≢ NoMemory → counted.new.steps ≡ counted.old.steps) }
{
    places_decide();
    match *order {
        Order::Set { k, input } => counted.editor.set(alloc, k as usize, input),
        Order::Insert { k, input } => counted.editor.insert(alloc, k as usize, input),
        Order::Delete { k } => counted.editor.delete(alloc, k as usize),
        Order::Undo => counted.editor.undo(alloc),
        Order::Redo => counted.editor.redo(alloc),
        Order::Keep { p } => keep_place(alloc, counted, p as usize),
        Order::KeepEvery { every } => keep_multiples(alloc, counted, every),
        Order::DropKept { p } => counted.editor.drop_kept(p as usize),
        _ => Ok(()),
    }
}

/// What an order that changes the session is answered: nothing, or the line that refuses it.
pub fn answer_changed<S: Shape, H: House>(
    alloc: Global,
    house: &mut H,
    ended: Result<(), EditRefusal>,
) -> Result<(), Refusal>
    ensures answered { (e left : Editing) (wanted : Result (Session ℕ) DeclaredRefusal)
        → IsChanged ended e left wanted
        → OnErr ended (current_recording left ≡ current_recording e)
        → GivesAnswer (H.world house.old) (H.world house.new) result e left
        (answer_change S.form (place_session e) wanted) }
    ensures rest { LeavesWriting (H.world house.old) (H.world house.new) }
    ensures frames_run { (order : DeclaredOrder) (ticks_before ticks_after : ℕ) (e left : Editing)
        → OnOk ended (ChangesWithin order ticks_before ticks_after e left)
        → IfErr ended (λ refusal. refusal ≢ NoMemory → ticks_after ≡ ticks_before)
        → OnOk result (ChangesWithin order ticks_before ticks_after e left) }
{
    match ended {
        Ok(()) => Ok(()),
        Err(refusal) => refuse::<S, H>(alloc, house, refusal),
    }
}

/// Keeps a place.
fn keep_place<L: Ledger>(
    alloc: Global,
    counted: &mut CountedEditor<L>,
    place: usize,
) -> Result<(), EditRefusal>
    ensures changed { IsChanged result counted.old.editor counted.new.editor
        (keep places_alone place (place_session counted.old.editor)) }
    ensures recording { OnErr result
        (current_recording counted.new.editor ≡ current_recording counted.old.editor) }
    ensures frames_run { OnOk result ((copied : ℕ) × IsKeptAt place counted.old.steps counted.new.steps copied
        counted.old.editor counted.new.editor) }
    ensures idle { IfErr result (λ refusal. refusal ≢ NoMemory → counted.new.steps ≡ counted.old.steps) }
{
    places_decide();
    match counted.editor.keep(alloc, place, &mut counted.steps) {
        Ok(_copied) => Ok(()),
        Err(refusal) => Err(refusal),
    }
}

/// Keeps each multiple of a number.
fn keep_multiples<L: Ledger>(
    alloc: Global,
    counted: &mut CountedEditor<L>,
    every: u32,
) -> Result<(), EditRefusal>
    ensures changed { IsChanged result counted.old.editor counted.new.editor
        (keep_every every (place_session counted.old.editor)) }
    ensures recording { OnErr result
        (current_recording counted.new.editor ≡ current_recording counted.old.editor) }
    ensures frames_run { OnOk result ((places : List ℕ) × (copied : ℕ)
        × AreKeptInTurn places counted.old.steps counted.new.steps copied
        counted.old.editor counted.new.editor) }
    ensures idle { IfErr result (λ refusal. refusal ≢ NoMemory → counted.new.steps ≡ counted.old.steps) }
{
    match keep_every(alloc, &mut counted.editor, every, &mut counted.steps) {
        Ok(_copied) => Ok(()),
        Err(refusal) => Err(refusal),
    }
}
