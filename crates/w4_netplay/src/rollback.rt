//! Rolling back: an editor's inputs are brought up to those that are predicted, by one edit of each run of
//! inputs that aren't the predicted ones. A kept place loses its link only where such an input stands before
//! it.

ghost use Rattle.std.specs.Prelude.{◌≡◌, ◌+◌, ◌-◌, ◌≤◌, ◌↔◌, [], IsTrue, OnErr, OnOk, Some, false, length, pos};
ghost use Rattle.std.specs.List.{slice_get};
ghost use Rattle.w4_netplay.specs.Pads.{known_in};
ghost use Rattle.w4_netplay.specs.Rollback.{IsPartlyRolled, IsRolledTo, IsWritten};

use crate::pads::Pads;
use std::alloc::Global;
use w4_defs::{Input, OutOfMemory};
use w4_editor::{Editor, only_memory};
use w4_record::Recording;

/// Brings the inputs of an editor up to those that are predicted for that many frames. Takes memory only
/// where an input isn't the predicted one. Errors: OutOfMemory, and then some of the inputs may be newer.
pub fn roll_back(
    alloc: Global,
    editor: &mut Editor,
    pads: &Pads,
    frames: usize,
) -> Result<(), OutOfMemory>
    requires few { frames ≤ 36000 }
    requires inputs { length editor.old.session.current.inputs ≤ frames }
    ensures ok { OnOk result (IsRolledTo (known_in pads.now) frames editor.old editor.new) }
    ensures err { OnErr result (IsPartlyRolled (known_in pads.now) frames editor.old editor.new) }
{
    let mut latest = [0; 4];
    let mut run = Vec::new(alloc);
    for frame in 0..frames {
        let predicted = pads.predict(frame, latest);
        let input = input_of(predicted);
        if has_input(editor.recording(), frame, &input) {
            write_run(alloc, editor, frame, &mut run)?;
        } else {
            run.push(input)?;
        }
        latest = predicted;
    }
    write_run(alloc, editor, frames, &mut run)
}

/// The input of these pads, and of nothing else.
fn input_of(pads: [u8; 4]) -> Input
    ensures { result
        ≡ record { pads = pads; mouse_x = pos 0; mouse_y = pos 0; buttons = 0; reset = false } }
{
    Input {
        pads,
        mouse_x: 0,
        mouse_y: 0,
        buttons: 0,
        reset: false,
    }
}

/// Whether an input is input `k`.
fn has_input(recording: &Recording, k: usize, input: &Input) -> bool
    ensures { IsTrue result ↔ (slice_get recording.now.frames k ≡ Some input.now) }
{
    match recording.frames.get(k) {
        Some(there) => *there == *input,
        None => false,
    }
}

/// Makes a run the inputs before place `end`, by one edit, and empties it. An empty run is no edit.
fn write_run(
    alloc: Global,
    editor: &mut Editor,
    end: usize,
    run: &mut Vec<Input>,
) -> Result<(), OutOfMemory>
    requires start { length run.old.items ≤ end }
    requires there { end ≤ length editor.old.session.current.inputs + length run.old.items }
    requires few { end ≤ 36000 }
    ensures ok { OnOk result (IsWritten (end - length run.old.items) run.old.items editor.old editor.new) }
    ensures empty { OnOk result (run.new.items ≡ []) }
    ensures err { OnErr result (editor.new ≡ editor.old) }
{
    if run.is_empty() {
        return Ok(());
    }
    match editor.overwrite(alloc, end - run.len(), run.as_slice()) {
        Ok(()) => {
            run.clear();
            Ok(())
        }
        Err(refusal) => Err(only_memory(refusal)),
    }
}
