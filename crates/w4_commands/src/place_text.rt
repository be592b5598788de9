//! What is written of places, one after another.

ghost use Rattle.std.specs.Prelude.{◌≡◌, ◌+◌, ◌-◌, ◌≤◌, length};
ghost use Rattle.std.specs.Option.{ForSome};
ghost use Rattle.w4_defs.specs.Run.{run};
ghost use Rattle.w4_defs.specs.World.{LeavesWriting};
ghost use Rattle.w4_defs.specs.State.{HasGlobals};
ghost use Rattle.w4_answers.specs.RecordText.{record_text};
ghost use Rattle.w4_answers.specs.Writing.{Written};
ghost use Rattle.w4_commands.specs.Scene.{scene_setup};
ghost use Rattle.w4_commands.specs.Stage.{stage_moment};
ghost use Rattle.w4_defs.specs.PlaceTexts.{as_it_stands, moment_text, place_text, place_texts};

use crate::scene::Scene;
use crate::stage::Stage;
use std::alloc::Global;
use w4_answers::record_text::RecordText;
use w4_answers::writing::write_bytes;
use w4_defs::{Input, PlaceText, Refusal};
use w4_house::House;

/// The texts of one kind, of the places from one up to another.
#[derive(Clone, Copy)]
pub struct WantedTexts {
    pub text: PlaceText,
    pub from: usize,
    pub to: usize,
}

/// Writes the text of the place where the stage stands.
pub fn write_place<H: House>(
    alloc: Global,
    house: &mut H,
    stage: &mut Stage,
    wanted: PlaceText,
    place: usize,
) -> Result<(), Refusal>
    ensures out { Written (H.world house.old) (H.world house.new) result
        (moment_text wanted place (stage_moment stage.old)) }
    ensures console { stage.new.console ≡ stage.old.console }
    ensures frame_record { stage.new.frame_record ≡ stage.old.frame_record }
    ensures rest { LeavesWriting (H.world house.old) (H.world house.new) }
{
    match wanted {
        PlaceText::Image => {
            stage.paint();
            write_bytes(alloc, house, stage.painted())
        }
        PlaceText::Schedule => write_record(alloc, house, stage, RecordText::Schedule, place),
        PlaceText::Traces => write_record(alloc, house, stage, RecordText::Traces, place),
        PlaceText::DiskBytes => write_bytes(alloc, house, stage.disk()),
    }
}

/// Writes a text of the frame that led to the place.
fn write_record<H: House>(
    alloc: Global,
    house: &mut H,
    stage: &Stage,
    wanted: RecordText,
    place: usize,
) -> Result<(), Refusal>
    ensures out { Written (H.world house.old) (H.world house.new) result
        (record_text wanted place (stage_moment stage.now).frame_record) }
    ensures rest { LeavesWriting (H.world house.old) (H.world house.new) }
{
    let text = stage.frame_text(alloc, wanted, place)?;
    write_bytes(alloc, house, text.as_slice())
}

/// Writes texts one after another, so that memory doesn't grow with their number.
pub fn write_places<H: House>(
    alloc: Global,
    house: &mut H,
    stage: &mut Stage,
    scene: &Scene<'_>,
    inputs: &[Input],
    wanted: WantedTexts,
) -> Result<(), Refusal>
    requires order { wanted.from ≤ wanted.to }
    requires place { wanted.to ≤ length inputs.now }
    requires globals { HasGlobals scene.now.setup.cart.now stage.old.console }
    ensures out { ForSome (place_texts (λ place.
        place_text as_it_stands wanted.text place
        (run (scene_setup scene.now) scene.now.disk.now inputs.now place))
        wanted.from (wanted.to + 1 - wanted.from))
        (λ text. Written (H.world house.old) (H.world house.new) result text) }
    ensures rest { LeavesWriting (H.world house.old) (H.world house.new) }
{
    let WantedTexts { text, from, to } = wanted;
    stage.run_to(scene, inputs, from);
    write_place(alloc, house, stage, text, from)?;
    for place in from..to {
        stage.step(scene, inputs, place);
        write_place(alloc, house, stage, text, place + 1)?;
    }
    Ok(())
}
