//! `compare`: two runs side by side.

ghost use Rattle.std.specs.Prelude.{◌≡◌, IfOk, Some, length, min};
ghost use Rattle.std.specs.Option.{ForSome};
ghost use Rattle.w4_defs.specs.Causes.{Ends, LeavesErr};
ghost use Rattle.w4_defs.specs.Comparison.{compared};
ghost use Rattle.w4_defs.specs.Module.{WasmModule};
ghost use Rattle.w4_defs.specs.Commands.{Compare};
ghost use Rattle.w4_defs.specs.Outputs.{OutputsBy, OverCart};
ghost use Rattle.w4_defs.specs.RecordingOutputs.{compare_files, compare_output, finish_of, side_of};
ghost use Rattle.w4_defs.specs.World.{LeavesReading, LeavesWriting};
ghost use Rattle.w4_commands.specs.Commands.{MakesOf};
ghost use Rattle.w4_commands.specs.Load.{ResultsIn, StepGives, cart_view};
ghost use Rattle.w4_commands.specs.Compare.{ComparedTo, WrittenTo, side_view, two_view};
ghost use Rattle.w4_defs.specs.State.{HasGlobals};
ghost use Rattle.w4_commands.specs.Forms.{compare_view};

use crate::differences::Differences;
use crate::forms::CompareNames;
use crate::load::{load_cart, load_font, load_recording};
use crate::scene::Scene;
use crate::stage::Stage;
use std::alloc::Global;
use w4_answers::writing::write_bytes;
use w4_cart::CartFile;
use w4_defs::{Finish, Input, OutOfMemory, Refusal};
use w4_font::Font;
use w4_house::House;
use w4_record::Recording;
use wasm_register::Cart;

/// The recordings and the font of two runs.
#[derive(Drop)]
pub struct TwoLoaded {
    pub first: Recording,
    pub second: Recording,
    pub font: Font,
}

/// One of two runs: its scene, and its inputs.
#[derive(Clone, Copy)]
pub struct Side<'a> {
    scene: Scene<'a>,
    inputs: &'a [Input],
}

impl<'a> Side<'a> {
    ghost use Rattle.std.specs.Prelude.{◌≡◌};
    ghost use Rattle.w4_defs.specs.RecordingOutputs.{side_of};
    ghost use Rattle.w4_commands.specs.Compare.{side_view};

    /// A run of a recording.
    fn of_recording(cart: &'a Cart, font: &'a Font, recording: &'a Recording) -> Side<'a>
        ensures { side_view result
            ≡ side_of cart.now (record { recording = recording.now; font = font.now }) }
    {
        Side {
            scene: Scene::of_recording(cart, font, recording),
            inputs: recording.frames.as_slice(),
        }
    }
}

/// `compare CART REC CART2 REC2 FONT`.
pub fn run_compare<H: House>(
    alloc: Global,
    house: &mut H,
    names: CompareNames<'_>,
) -> Result<Finish, Refusal>
    ensures ends { Ends (H.world house.old) (H.world house.new) result
        (OutputsBy (Compare (compare_view names.entry))) }
    ensures err { LeavesErr (H.world house.old) (H.world house.new) }
{
    let file = load_cart(alloc, house, names.cart)?;
    let end = compare_first(alloc, house, &file, names);
    file.close();
    end
}

/// The rest, with the first cart.
fn compare_first<H: House>(
    alloc: Global,
    house: &mut H,
    file: &CartFile,
    names: CompareNames<'_>,
) -> Result<Finish, Refusal>
    ensures ends { Ends (H.world house.old) (H.world house.new) result (OverCart names.entry.other_cart.now
        (λ other files output.
        compare_output (compare_view names.entry) (cart_view file.now) other files ≡ Some output)) }
    ensures err { LeavesErr (H.world house.old) (H.world house.new) }
{
    let other = load_cart(alloc, house, names.other_cart)?;
    let end = compare_carts(alloc, house, file, &other, names);
    other.close();
    end
}

/// The rest, with both carts.
fn compare_carts<H: House>(
    alloc: Global,
    house: &mut H,
    file: &CartFile,
    other: &CartFile,
    names: CompareNames<'_>,
) -> Result<Finish, Refusal>
    ensures ends { Ends (H.world house.old) (H.world house.new) result (MakesOf (λ files.
        compare_output (compare_view names.entry) (cart_view file.now) (cart_view other.now) files)) }
    ensures err { LeavesErr (H.world house.old) (H.world house.new) }
{
    let loaded = load_compare(alloc, house, &file.digest, &other.digest, names)?;
    write_comparison(alloc, house, &file.cart, &other.cart, &loaded)
}

/// Reads the recordings and the font of two runs, whose carts have these digests.
#[tactic(auto, unfolding(w4_defs::specs::RecordingOutputs::compare_files))]
fn load_compare<H: House>(
    alloc: Global,
    house: &mut H,
    digest: &[u8; 32],
    other_digest: &[u8; 32],
    names: CompareNames<'_>,
) -> Result<TwoLoaded, Refusal>
    ensures gives { (code other_code : WasmModule)
        → StepGives (H.world house.old) (H.world house.new) two_view result
        (ResultsIn (λ files. compare_files (compare_view names.entry)
        (record { code = code; digest = digest.now })
        (record { code = other_code; digest = other_digest.now }) files)) }
    ensures rest { LeavesReading (H.world house.old) (H.world house.new) }
{
    let first = load_recording(alloc, house, digest, names.recording)?;
    let second = load_recording(alloc, house, other_digest, names.other_recording)?;
    let font = load_font(alloc, house, names.font)?;
    Ok(TwoLoaded {
        first,
        second,
        font,
    })
}

/// Runs both, and writes the six lines.
fn write_comparison<H: House>(
    alloc: Global,
    house: &mut H,
    cart: &Cart,
    other_cart: &Cart,
    loaded: &TwoLoaded,
) -> Result<Finish, Refusal>
    ensures out { ForSome (compared (side_of cart.now (two_view loaded.now).first)
        (side_of other_cart.now (two_view loaded.now).second))
        (λ lines. WrittenTo (H.world house.old) (H.world house.new) result lines.text (finish_of lines)) }
    ensures rest { LeavesWriting (H.world house.old) (H.world house.new) }
{
    let side = Side::of_recording(cart, &loaded.font, &loaded.first);
    let other_side = Side::of_recording(other_cart, &loaded.font, &loaded.second);
    let found = compare_runs(alloc, &side, &other_side)?;
    let (n, m) = (side.inputs.len(), other_side.inputs.len());
    let text = found.text(alloc, n, m)?;
    write_bytes(alloc, house, text.as_slice())?;
    Ok(found.finish(n, m))
}

/// Runs both side by side, each frame once, with a console for each.
fn compare_runs(
    alloc: Global,
    side: &Side<'_>,
    other_side: &Side<'_>,
) -> Result<Differences, OutOfMemory>
    ensures { IfOk result (λ found. ComparedTo (side_view side.now) (side_view other_side.now)
        (min (length side.now.inputs.now) (length other_side.now.inputs.now)) found) }
{
    let mut one = Stage::new(alloc, side.scene.setup.cart)?;
    let mut other = Stage::new(alloc, other_side.scene.setup.cart)?;
    let found = compare_stages(alloc, &mut one, &mut other, side, other_side);
    one.close();
    other.close();
    found
}

/// Runs both on stages that haven't run.
fn compare_stages(
    alloc: Global,
    one: &mut Stage,
    other: &mut Stage,
    side: &Side<'_>,
    other_side: &Side<'_>,
) -> Result<Differences, OutOfMemory>
    requires one { HasGlobals side.now.scene.setup.cart.now one.old.console }
    requires other { HasGlobals other_side.now.scene.setup.cart.now other.old.console }
    ensures { IfOk result (λ found. ComparedTo (side_view side.now) (side_view other_side.now)
        (min (length side.now.inputs.now) (length other_side.now.inputs.now)) found) }
{
    let (scene, inputs) = (&side.scene, side.inputs);
    let (other_scene, other_inputs) = (&other_side.scene, other_side.inputs);
    one.run_to(scene, inputs, 0);
    other.run_to(other_scene, other_inputs, 0);
    let mut found = Differences::none();
    found.note_place(alloc, one, other, 0)?;
    for place in 0..inputs.len().min(other_inputs.len()) {
        one.step(scene, inputs, place);
        other.step(other_scene, other_inputs, place);
        found.note_place(alloc, one, other, place + 1)?;
    }
    Ok(found)
}
