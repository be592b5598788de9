//! Commands that make a recording of another, or of none: `blank`, `rebind`, and its text, `inputs`.

ghost use Rattle.std.specs.Prelude.{[], ◌∷◌, ◌++◌, ◌≤◌, ◌≡◌, IfOk, codes, length};
ghost use Rattle.w4_defs.specs.Causes.{LeavesErr};
ghost use Rattle.w4_defs.specs.Output.{blank_output, blank_recording};
ghost use Rattle.w4_defs.specs.Recording.{encoding};
ghost use Rattle.w4_defs.specs.RecordingOutputs.{
  any_recording_in,
  blank_disk_output,
  disk_in,
  disk_of,
  inputs_output,
  rebind_output,
  rebound,
};
ghost use Rattle.w4_defs.specs.InputsText.{disk_remark, input_lines, input_words, inputs_text};
ghost use Rattle.w4_defs.specs.FrameTexts.{line_end, numbered};
ghost use Rattle.w4_defs.specs.World.{LeavesReading, LeavesWriting};
ghost use Rattle.w4_commands.specs.Commands.{EndsDone, MakesOf};
ghost use Rattle.w4_commands.specs.Load.{ResultsIn, StepGives, GivesValue, cart_view};
ghost use Rattle.w4_answers.specs.Writing.{Written};

use crate::budget::Budget;
use crate::load::{judge_any, read_file};
use std::alloc::Global;
use w4_answers::inputs_text::{add_budget, add_disk, add_input_line};
use w4_answers::writing::write_bytes;
use w4_cart::CartFile;
use w4_defs::{Input, OutOfMemory, RecordingKind, Refusal};
use w4_house::House;
use w4_record::{MOST_DISK_BYTES, Recording, write_recording};

/// `blank CART BUDGET`: the recording of this cart with this budget, no disk and no frames.
pub fn run_blank<H: House>(
    alloc: Global,
    house: &mut H,
    file: &CartFile,
    budget: Budget,
) -> Result<(), Refusal>
    ensures ends { EndsDone (H.world house.old) (H.world house.new) result
        (MakesOf (λ files. blank_output budget.units (cart_view file.now))) }
    ensures err { LeavesErr (H.world house.old) (H.world house.new) }
{
    write_blank(alloc, house, &file.digest, budget, Vec::new(alloc))
}

/// Writes the recording without frames.
fn write_blank<H: House>(
    alloc: Global,
    house: &mut H,
    digest: &[u8; 32],
    budget: Budget,
    disk: Vec<u8>,
) -> Result<(), Refusal>
    requires disk { length disk.items ≤ 1024 }
    ensures out { Written (H.world house.old) (H.world house.new) result
        (encoding 2 (blank_recording digest.now budget.units disk.items)) }
    ensures rest { LeavesWriting (H.world house.old) (H.world house.new) }
{
    let recording = Recording::new(*digest, budget.units, disk, Vec::new(alloc));
    let bytes = write_recording(alloc, &recording)?;
    write_bytes(alloc, house, bytes.as_slice())
}

/// `blank CART BUDGET DISK`: the recording of this cart with this budget and the file's bytes as its disk.
#[tactic(auto, unfolding(w4_defs::specs::RecordingOutputs::blank_disk_output))]
pub fn run_blank_disk<H: House>(
    alloc: Global,
    house: &mut H,
    file: &CartFile,
    budget: Budget,
    disk: &str,
) -> Result<(), Refusal>
    ensures ends { EndsDone (H.world house.old) (H.world house.new) result
        (ResultsIn (λ files. blank_disk_output budget.units disk.now (cart_view file.now) files)) }
    ensures err { LeavesErr (H.world house.old) (H.world house.new) }
{
    let bytes = load_disk(alloc, house, disk)?;
    write_blank(alloc, house, &file.digest, budget, bytes)
}

/// The disk, if the bytes are no more than it holds.
fn judge_disk(bytes: Vec<u8>) -> Result<Vec<u8>, Refusal>
    ensures gives { GivesValue (λ disk. disk.items) result (disk_of bytes.items) }
    ensures short { IfOk result (λ disk. length disk.items ≤ 1024) }
{
    if bytes.len() > MOST_DISK_BYTES {
        return Err(Refusal::RecordingRefused(RecordingKind::Bad));
    }
    Ok(bytes)
}

#[tactic(auto, unfolding(w4_defs::specs::RecordingOutputs::disk_in))]
fn load_disk<H: House>(alloc: Global, house: &mut H, name: &str) -> Result<Vec<u8>, Refusal>
    ensures gives { StepGives (H.world house.old) (H.world house.new) (λ disk. disk.items) result
        (ResultsIn (λ files. disk_in files name.now)) }
    ensures short { IfOk result (λ disk. length disk.items ≤ 1024) }
    ensures rest { LeavesReading (H.world house.old) (H.world house.new) }
{
    let bytes = read_file(alloc, house, name, MOST_DISK_BYTES + 1)?;
    judge_disk(bytes)
}

#[tactic(auto, unfolding(w4_defs::specs::RecordingOutputs::any_recording_in))]
fn load_any<H: House>(alloc: Global, house: &mut H, name: &str) -> Result<Recording, Refusal>
    ensures gives { StepGives (H.world house.old) (H.world house.new) (λ recording. recording) result
        (ResultsIn (λ files. any_recording_in files name.now)) }
    ensures rest { LeavesReading (H.world house.old) (H.world house.new) }
{
    let bytes = read_file(alloc, house, name, w4_record::MOST_BYTES + 1)?;
    judge_any(alloc, bytes.as_slice())
}

/// `rebind CART REC`: a recording of any cart as one of this cart.
#[tactic(auto, unfolding(w4_defs::specs::RecordingOutputs::rebind_output))]
pub fn run_rebind<H: House>(
    alloc: Global,
    house: &mut H,
    file: &CartFile,
    recording: &str,
) -> Result<(), Refusal>
    ensures ends { EndsDone (H.world house.old) (H.world house.new) result
        (ResultsIn (λ files. rebind_output recording.now (cart_view file.now) files)) }
    ensures err { LeavesErr (H.world house.old) (H.world house.new) }
{
    let loaded = load_any(alloc, house, recording)?;
    write_rebound(alloc, house, &file.digest, loaded)
}

/// Writes a recording as one of the cart with this digest.
fn write_rebound<H: House>(
    alloc: Global,
    house: &mut H,
    digest: &[u8; 32],
    recording: Recording,
) -> Result<(), Refusal>
    ensures out { Written (H.world house.old) (H.world house.new) result
        (encoding 2 (rebound digest.now recording)) }
    ensures rest { LeavesWriting (H.world house.old) (H.world house.new) }
{
    let Recording {
        digest: _,
        budget,
        disk,
        frames,
    } = recording;
    let rebound = Recording::new(*digest, budget, disk, frames);
    let bytes = write_recording(alloc, &rebound)?;
    write_bytes(alloc, house, bytes.as_slice())
}

/// `inputs REC`: a recording as text.
#[tactic(auto, unfolding(w4_defs::specs::RecordingOutputs::inputs_output))]
pub fn run_inputs<H: House>(alloc: Global, house: &mut H, recording: &str) -> Result<(), Refusal>
    ensures ends { EndsDone (H.world house.old) (H.world house.new) result
        (ResultsIn (λ files. inputs_output recording.now files)) }
    ensures err { LeavesErr (H.world house.old) (H.world house.new) }
{
    let loaded = load_any(alloc, house, recording)?;
    write_text(alloc, house, &loaded)
}

/// Writes a recording as text.
#[tactic(auto, unfolding(w4_defs::specs::InputsText::inputs_text))]
fn write_text<H: House>(alloc: Global, house: &mut H, recording: &Recording) -> Result<(), Refusal>
    ensures out { Written (H.world house.old) (H.world house.new) result (inputs_text recording.now) }
    ensures rest { LeavesWriting (H.world house.old) (H.world house.new) }
{
    let remarks = remarks(alloc, recording)?;
    write_bytes(alloc, house, remarks.as_slice())?;
    write_lines(alloc, house, recording.frames.as_slice())
}

/// The remarks at the head of the text.
fn remarks(alloc: Global, recording: &Recording) -> Result<Vec<u8>, OutOfMemory>
    ensures { IfOk result (λ text. text.items
        ≡ numbered (codes "# budget") (recording.now.budget ∷ []) ++ disk_remark recording.now.disk) }
{
    let mut text = Vec::new(alloc);
    add_budget(&mut text, recording.budget)?;
    add_disk(&mut text, recording.disk.as_slice())?;
    Ok(text)
}

/// Writes the lines of inputs one after another, so that memory doesn't grow with their number.
fn write_lines<H: House>(alloc: Global, house: &mut H, inputs: &[Input]) -> Result<(), Refusal>
    ensures out { Written (H.world house.old) (H.world house.new) result
        (input_lines (codes "insert") 0 inputs.now) }
    ensures rest { LeavesWriting (H.world house.old) (H.world house.new) }
{
    for number in 0..inputs.len() {
        write_line(alloc, house, number, &inputs[number])?;
    }
    Ok(())
}

/// Writes the line of one input.
fn write_line<H: House>(
    alloc: Global,
    house: &mut H,
    number: usize,
    input: &Input,
) -> Result<(), Refusal>
    ensures out { Written (H.world house.old) (H.world house.new) result
        (codes "insert" ++ input_words number input.now ++ line_end) }
    ensures rest { LeavesWriting (H.world house.old) (H.world house.new) }
{
    let mut line = Vec::new(alloc);
    add_input_line(&mut line, b"insert", number, input)?;
    write_bytes(alloc, house, line.as_slice())
}
