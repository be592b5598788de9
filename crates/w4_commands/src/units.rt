//! `units`: what the frames of a run took of their budgets.

ghost use Rattle.std.specs.Option.{ForSome};
ghost use Rattle.w4_console.specs.Taken.{frame_line, taken_of};
ghost use Rattle.w4_defs.specs.RecordingOutputs.{run_units};
ghost use Rattle.w4_defs.specs.State.{HasGlobals};
ghost use Rattle.w4_defs.specs.Units.{start_line, units_text};
ghost use Rattle.w4_defs.specs.World.{LeavesWriting};
ghost use Rattle.w4_answers.specs.Writing.{Written};
ghost use Rattle.w4_commands.specs.Scene.{scene_setup};
ghost use Rattle.w4_commands.specs.Load.{run_files_view};

use crate::load::RunFiles;
use crate::scene::Scene;
use crate::stage::Stage;
use std::alloc::Global;
use w4_answers::writing::write_bytes;
use w4_console::{FrameTaken, Taken, start_line, units_line};
use w4_defs::{Input, Refusal};
use w4_house::House;
use wasm_register::Cart;

/// Writes the line of the reset of a run and those of its frames.
pub fn write_units<H: House>(
    alloc: Global,
    house: &mut H,
    cart: &Cart,
    run: &RunFiles,
) -> Result<(), Refusal>
    ensures out { ForSome (run_units cart.now (run_files_view run.now))
        (λ text. Written (H.world house.old) (H.world house.new) result text) }
    ensures rest { LeavesWriting (H.world house.old) (H.world house.new) }
{
    let mut stage = Stage::new(alloc, cart)?;
    let recording = &run.recording;
    let scene = Scene::of_recording(cart, &run.font, recording);
    let inputs = recording.frames.as_slice();
    let end = write_lines(alloc, house, &mut stage, &scene, inputs);
    stage.close();
    end
}

/// Writes the lines one at a time, so that memory doesn't grow with their number.
fn write_lines<H: House>(
    alloc: Global,
    house: &mut H,
    stage: &mut Stage,
    scene: &Scene<'_>,
    inputs: &[Input],
) -> Result<(), Refusal>
    requires { HasGlobals scene.now.setup.cart.now stage.old.console }
    ensures out { ForSome (units_text (scene_setup scene.now) scene.now.disk.now inputs.now)
        (λ text. Written (H.world house.old) (H.world house.new) result text) }
    ensures rest { LeavesWriting (H.world house.old) (H.world house.new) }
{
    let start = stage.begin_run(scene, inputs);
    write_start(alloc, house, start)?;
    for place in 0..inputs.len() {
        let taken = stage.step_units(scene, inputs, place);
        write_line(alloc, house, place, taken)?;
    }
    Ok(())
}

/// Writes the line of a reset.
fn write_start<H: House>(alloc: Global, house: &mut H, start: Taken) -> Result<(), Refusal>
    ensures out { Written (H.world house.old) (H.world house.new) result (start_line (taken_of start)) }
    ensures rest { LeavesWriting (H.world house.old) (H.world house.new) }
{
    let mut line = Vec::new(alloc);
    start_line(alloc, start, &mut line)?;
    write_bytes(alloc, house, line.as_slice())
}

/// Writes the line of the frame from place `k` on.
fn write_line<H: House>(
    alloc: Global,
    house: &mut H,
    k: usize,
    taken: FrameTaken,
) -> Result<(), Refusal>
    ensures out { Written (H.world house.old) (H.world house.new) result (frame_line k taken) }
    ensures rest { LeavesWriting (H.world house.old) (H.world house.new) }
{
    let mut line = Vec::new(alloc);
    units_line(alloc, k, taken, &mut line)?;
    write_bytes(alloc, house, line.as_slice())
}
