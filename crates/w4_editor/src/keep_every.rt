//! Keeping each multiple of a number, once it is known that there is room for all of them.

ghost use Rattle.std.specs.Prelude.{◌≡◌, ◌≢◌, ℕ, ◌%◌, ◌≤◌, ◌==◌, IfErr, IfOk, List, OnErr, OnOk, length, nat_le};
ghost use Rattle.w4_defs.specs.declared.editing.EditRefusal.TheVariants.{OutOfMemory as NoMemory};
ghost use Rattle.w4_defs.specs.Session.{keep_every, with_list};
ghost use Rattle.w4_editor.specs.Editor.{current_recording, IsChanged, KeepsRest, place_session};
ghost use Rattle.w4_editor.specs.KeepEvery.{all_to_keep, is_fresh_multiple, with_multiple};
ghost use Rattle.w4_editor.specs.Playing.{AreKeptInTurn};

use crate::editor::Editor;
use crate::memory_refusal::only_memory;
use crate::places::{is_kept, last_place};
use crate::showing::MOST_KEPT;
use std::alloc::Global;
use std::sync::ledger::Ledger;
use w4_defs::editing_laws::places_decide;
use w4_defs::{EditRefusal, OutOfMemory, Steps};

/// Keeps each multiple of a number that isn't kept, in rising order, and says how many chunks were copied in
/// all. Errors: FullSnapshots, before any frame is run, if more than 1,024 places would be; OutOfMemory.
pub fn keep_every<L: Ledger>(
    alloc: Global,
    editor: &mut Editor,
    every: u32,
    steps: &mut Steps<L>,
) -> Result<u64, EditRefusal>
    ensures changed { IsChanged result editor.old editor.new
        (keep_every every (place_session editor.old)) }
    ensures copied { IfOk result (λ copied. (places : List ℕ)
        × AreKeptInTurn places steps.old steps.new copied editor.old editor.new) }
    ensures recording { OnErr result
        (current_recording editor.new ≡ current_recording editor.old) }
    ensures idle { IfErr result (λ refusal. refusal ≢ NoMemory → steps.new ≡ steps.old) }
{
    if !has_room(editor, every) {
        return Err(EditRefusal::FullSnapshots);
    }
    Ok(keep_all(alloc, editor, every, steps)?)
}

/// Whether at most 1,024 places would be kept.
fn has_room(editor: &Editor, every: u32) -> bool
    ensures { result ≡ nat_le (length (all_to_keep every (place_session editor.now))) 1024 }
{
    let last = last_place(editor);
    let mut count = editor.kept_count();
    for place in 0..last + 1 {
        if count > MOST_KEPT {
            return false;
        }
        count += usize::from(is_wanted(editor, every, place));
    }
    count <= MOST_KEPT
}

/// Keeps each multiple that isn't kept yet, and says how many chunks were copied in all.
fn keep_all<L: Ledger>(
    alloc: Global,
    editor: &mut Editor,
    every: u32,
    steps: &mut Steps<L>,
) -> Result<u64, OutOfMemory>
    requires room { length (all_to_keep every (place_session editor.old)) ≤ 1024 }
    ensures kept { OnOk result (place_session editor.new
        ≡ with_list (place_session editor.old) (all_to_keep every (place_session editor.old))) }
    ensures rest { OnOk result (KeepsRest editor.old editor.new) }
    ensures copied { IfOk result (λ copied. (places : List ℕ)
        × AreKeptInTurn places steps.old steps.new copied editor.old editor.new) }
    ensures recording { OnErr result
        (current_recording editor.new ≡ current_recording editor.old) }
{
    let last = last_place(editor);
    let mut copied = 0;
    for place in 0..last + 1 {
        copied += u64::from(keep_wanted(alloc, editor, every, place, steps)?);
    }
    Ok(copied)
}

/// Keeps a place if it is a multiple that isn't kept yet, and says how many chunks were copied.
fn keep_wanted<L: Ledger>(
    alloc: Global,
    editor: &mut Editor,
    every: u32,
    place: usize,
    steps: &mut Steps<L>,
) -> Result<u32, OutOfMemory>
    requires place { place ≤ length (place_session editor.old).current.inputs }
    requires room { length (with_multiple every place (place_session editor.old).current.kept) ≤ 1024 }
    ensures kept { OnOk result (place_session editor.new ≡ with_list (place_session editor.old)
        (with_multiple every place (place_session editor.old).current.kept)) }
    ensures rest { OnOk result (KeepsRest editor.old editor.new) }
    ensures copied { IfOk result (λ copied. (places : List ℕ)
        × AreKeptInTurn places steps.old steps.new copied editor.old editor.new) }
    ensures recording { OnErr result
        (current_recording editor.new ≡ current_recording editor.old) }
{
    places_decide();
    if !is_wanted(editor, every, place) {
        return Ok(0);
    }
    match editor.keep(alloc, place, steps) {
        Ok(copied) => Ok(copied),
        Err(refusal) => Err(only_memory(refusal)),
    }
}

/// Whether a place is a multiple that isn't kept yet.
fn is_wanted(editor: &Editor, every: u32, place: usize) -> bool
    ensures { result ≡ is_fresh_multiple every place (place_session editor.now).current.kept }
{
    is_multiple(place, every) && !is_kept(editor, place)
}

/// Whether a place is a multiple of a number; 0 has the multiple 0 alone.
fn is_multiple(place: usize, every: u32) -> bool
    ensures { result ≡ (place % every == 0) }
{
    if every == 0 {
        return place == 0;
    }
    place % every as usize == 0
}
