//! Files, each judged before the next is read. Nothing is written.

ghost use Rattle.std.specs.Prelude.{◌≡◌, ◌≤◌, length, IfOk};
ghost use Rattle.w4_defs.specs.World.{LeavesReading};
ghost use Rattle.w4_defs.specs.Output.{
  CartIn,
  any_recording,
  cart_recording,
  font_in,
  font_of,
  reading,
  recording_in,
  run_files,
  run_files_to,
};
ghost use Rattle.w4_commands.specs.Load.{GivesValue, ResultsIn, StepGives, cart_view, run_files_view};
ghost use Rattle.w4_commands.specs.Forms.{run_view};

use crate::forms::RunNames;
use std::alloc::Global;
use w4_cart::{CartFile, accept_file};
use w4_defs::{RecordingKind, Refusal};
use w4_font::{FONT_BYTES, Font};
use w4_house::{House, HouseFault};
use w4_record::{Recording, read_recording};

/// The files of a run, without the cart.
#[derive(Drop)]
pub struct RunFiles {
    pub recording: Recording,
    pub font: Font,
}

/// How many frames the recording has.
pub fn frame_count(run: &RunFiles) -> usize
    ensures { result ≡ length run.now.recording.frames }
{
    run.recording.frames.len()
}

/// The first `most` bytes of a file, or all.
pub fn read_file<H: House>(
    alloc: Global,
    house: &mut H,
    name: &str,
    most: usize,
) -> Result<Vec<u8>, Refusal>
    ensures gives { StepGives (H.world house.old) (H.world house.new) (λ bytes. bytes.items) result
        (ResultsIn (λ files. reading files name.now most)) }
    ensures rest { LeavesReading (H.world house.old) (H.world house.new) }
{
    match house.read_front(alloc, name, most) {
        Ok(bytes) => Ok(bytes),
        Err(HouseFault::Absent) => Err(Refusal::ReadFault),
        Err(HouseFault::Failed) => Err(Refusal::ReadFault),
        Err(HouseFault::OutOfMemory) => Err(Refusal::OutOfMemory),
    }
}

/// Reads and judges a cart.
pub fn load_cart<H: House>(alloc: Global, house: &mut H, name: &str) -> Result<CartFile, Refusal>
    ensures gives { StepGives (H.world house.old) (H.world house.new) cart_view result
        (λ files cart. CartIn name.now files cart) }
    ensures rest { LeavesReading (H.world house.old) (H.world house.new) }
{
    let bytes = read_file(alloc, house, name, w4_cart::MOST_BYTES + 1)?;
    Ok(accept_file(alloc, bytes.as_slice())?)
}

/// The recording that the bytes encode, of any cart.
pub fn judge_any(alloc: Global, bytes: &[u8]) -> Result<Recording, Refusal>
    ensures { GivesValue (λ recording. recording) result (any_recording bytes.now) }
{
    Ok(read_recording(alloc, bytes)?)
}

/// The recording that the bytes encode, which has to be of the cart with this digest.
#[tactic(auto, unfolding(w4_defs::specs::Output::cart_recording))]
fn judge_recording(alloc: Global, bytes: &[u8], digest: &[u8; 32]) -> Result<Recording, Refusal>
    ensures { GivesValue (λ recording. recording) result (cart_recording digest.now bytes.now) }
{
    let recording = judge_any(alloc, bytes)?;
    if recording.digest != *digest {
        return Err(Refusal::RecordingRefused(RecordingKind::WrongCart));
    }
    Ok(recording)
}

/// The font, if the bytes are one.
fn judge_font(bytes: &[u8]) -> Result<Font, Refusal>
    ensures { GivesValue (λ font. font) result (font_of bytes.now) }
{
    Ok(Font::new(bytes)?)
}

#[tactic(auto, unfolding(w4_defs::specs::Output::recording_in))]
pub fn load_recording<H: House>(
    alloc: Global,
    house: &mut H,
    digest: &[u8; 32],
    name: &str,
) -> Result<Recording, Refusal>
    ensures gives { StepGives (H.world house.old) (H.world house.new) (λ recording. recording) result
        (ResultsIn (λ files. recording_in digest.now files name.now)) }
    ensures rest { LeavesReading (H.world house.old) (H.world house.new) }
{
    let bytes = read_file(alloc, house, name, w4_record::MOST_BYTES + 1)?;
    judge_recording(alloc, bytes.as_slice(), digest)
}

#[tactic(auto, unfolding(w4_defs::specs::Output::font_in))]
pub fn load_font<H: House>(alloc: Global, house: &mut H, name: &str) -> Result<Font, Refusal>
    ensures gives { StepGives (H.world house.old) (H.world house.new) (λ font. font) result
        (ResultsIn (λ files. font_in files name.now)) }
    ensures rest { LeavesReading (H.world house.old) (H.world house.new) }
{
    let bytes = read_file(alloc, house, name, FONT_BYTES + 1)?;
    judge_font(bytes.as_slice())
}

/// Reads what a run of the cart with this digest is made of.
#[tactic(auto, unfolding(w4_defs::specs::Output::run_files))]
pub fn load_run<H: House>(
    alloc: Global,
    house: &mut H,
    digest: &[u8; 32],
    names: RunNames<'_>,
) -> Result<RunFiles, Refusal>
    ensures gives { StepGives (H.world house.old) (H.world house.new) run_files_view result
        (ResultsIn (λ files. run_files digest.now (run_view names.entry) files)) }
    ensures rest { LeavesReading (H.world house.old) (H.world house.new) }
{
    let recording = load_recording(alloc, house, digest, names.recording)?;
    let font = load_font(alloc, house, names.font)?;
    Ok(RunFiles { recording, font })
}

/// Reads what a run of the cart with this digest is made of, which has to have this place.
#[tactic(auto, unfolding(w4_defs::specs::Output::run_files_to))]
pub fn load_run_to<H: House>(
    alloc: Global,
    house: &mut H,
    digest: &[u8; 32],
    names: RunNames<'_>,
    place: u32,
) -> Result<RunFiles, Refusal>
    ensures gives { StepGives (H.world house.old) (H.world house.new) run_files_view result
        (ResultsIn (λ files. run_files_to digest.now (run_view names.entry) place files)) }
    ensures place { IfOk result (λ run. place ≤ length run.recording.frames) }
    ensures rest { LeavesReading (H.world house.old) (H.world house.new) }
{
    let run = load_run(alloc, house, digest, names)?;
    let n = frame_count(&run);
    if place as usize > n {
        return Err(Refusal::FrameRefused { number: place, n });
    }
    Ok(run)
}
