//! `wave`: the sound of a run as the bytes of a WAV file.

ghost use Rattle.std.specs.Prelude.{◌≡◌, ◌+◌, ◌≤◌, length};
ghost use Rattle.std.specs.Option.{ForSome};
ghost use Rattle.w4_defs.specs.Sound.{after_frame, rendered, samples, wav_header};
ghost use Rattle.w4_defs.specs.State.{HasGlobals};
ghost use Rattle.w4_defs.specs.World.{LeavesWriting};
ghost use Rattle.w4_answers.specs.Writing.{Written};
ghost use Rattle.w4_commands.specs.Scene.{scene_side};
ghost use Rattle.w4_commands.specs.Wave.{scene_records, side_sound};
ghost use Rattle.w4_commands.specs.Stage.{stage_moment};
ghost use Rattle.w4_defs.specs.ToolOutputs.{wave_text};
ghost use Rattle.w4_commands.specs.Load.{run_files_view};

use crate::load::RunFiles;
use crate::scene::Scene;
use crate::stage::Stage;
use std::alloc::Global;
use w4_answers::writing::write_bytes;
use w4_defs::{Input, Refusal};
use w4_house::House;
use w4_wave::{FRAME_LEN, Wave, wav_header};
use wasm_register::Cart;

/// Writes the header and the samples of all places of a run.
pub fn write_wave<H: House>(
    alloc: Global,
    house: &mut H,
    cart: &Cart,
    run: &RunFiles,
) -> Result<(), Refusal>
    ensures out { ForSome (wave_text cart.now (run_files_view run.now))
        (λ text. Written (H.world house.old) (H.world house.new) result text) }
    ensures rest { LeavesWriting (H.world house.old) (H.world house.new) }
{
    let mut stage = Stage::new(alloc, cart)?;
    let recording = &run.recording;
    let scene = Scene::of_recording(cart, &run.font, recording);
    let inputs = recording.frames.as_slice();
    let end = write_sound(alloc, house, &mut stage, &scene, inputs);
    stage.close();
    end
}

/// Writes the header and the samples of all places, on a stage that hasn't run.
fn write_sound<H: House>(
    alloc: Global,
    house: &mut H,
    stage: &mut Stage,
    scene: &Scene<'_>,
    inputs: &[Input],
) -> Result<(), Refusal>
    requires few { length inputs.now ≤ 36000 }
    requires globals { HasGlobals scene.now.setup.cart.now stage.old.console }
    ensures out { ForSome (side_sound (scene_side scene.now inputs.now))
        (λ text. Written (H.world house.old) (H.world house.new) result text) }
    ensures rest { LeavesWriting (H.world house.old) (H.world house.new) }
{
    write_header(alloc, house, inputs.len() + 1)?;
    write_samples(alloc, house, stage, scene, inputs)
}

/// Writes the header of a file of that many places.
fn write_header<H: House>(alloc: Global, house: &mut H, places: usize) -> Result<(), Refusal>
    requires { places ≤ 36001 }
    ensures out { Written (H.world house.old) (H.world house.new) result
        (wav_header places) }
    ensures rest { LeavesWriting (H.world house.old) (H.world house.new) }
{
    write_bytes(alloc, house, &wav_header(places as u32))
}

/// Writes the samples of all places, one frame at a time, so that memory doesn't grow with their number.
#[tactic(auto, unfolding(w4_defs::specs::Sound::samples))]
fn write_samples<H: House>(
    alloc: Global,
    house: &mut H,
    stage: &mut Stage,
    scene: &Scene<'_>,
    inputs: &[Input],
) -> Result<(), Refusal>
    requires { HasGlobals scene.now.setup.cart.now stage.old.console }
    ensures out { ForSome (scene_records scene.now inputs.now (length inputs.now + 1))
        (λ records. Written (H.world house.old) (H.world house.new) result (samples records)) }
    ensures rest { LeavesWriting (H.world house.old) (H.world house.new) }
{
    let mut wave = Wave::new();
    stage.run_to(scene, inputs, 0);
    write_frame(alloc, house, stage, &mut wave)?;
    for place in 0..inputs.len() {
        stage.step(scene, inputs, place);
        write_frame(alloc, house, stage, &mut wave)?;
    }
    Ok(())
}

/// Writes the samples of the frame that led to the stage's place.
fn write_frame<H: House>(
    alloc: Global,
    house: &mut H,
    stage: &Stage,
    wave: &mut Wave,
) -> Result<(), Refusal>
    ensures out { Written (H.world house.old) (H.world house.new) result
        (rendered (stage_moment stage.now).frame_record wave.old) }
    ensures wave { wave.new ≡ after_frame (stage_moment stage.now).frame_record wave.old }
    ensures rest { LeavesWriting (H.world house.old) (H.world house.new) }
{
    let mut samples = [0; FRAME_LEN];
    stage.render(wave, &mut samples);
    write_bytes(alloc, house, &samples)
}
