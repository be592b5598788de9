//! The choice of a command, and the commands that write texts of one run. A command that names one cart is
//! carried out once it is judged, over it or in an editor that owns it; `make` and `inputs` name none, and
//! `compare` names two.

ghost use Rattle.std.specs.Prelude.{◌≡◌, ◌+◌, ◌-◌, ◌≤◌, length};
ghost use Rattle.std.specs.Option.{ForSome};
ghost use Rattle.w4_defs.specs.Causes.{Ends, LeavesErr};
ghost use Rattle.w4_defs.specs.Live.{Talk};
ghost use Rattle.w4_defs.specs.Output.{checked, place_texts_from, written};
ghost use Rattle.w4_defs.specs.Outputs.{OutputsBy, OutputsOn};
ghost use Rattle.w4_defs.specs.World.{LeavesWriting};
ghost use Rattle.w4_commands.specs.Commands.{EndsDone, MakesOf, finished};
ghost use Rattle.w4_answers.specs.Writing.{Written};
ghost use Rattle.w4_commands.specs.RunOutputs.{all_texts, places_output, whole_output, whole_text};
ghost use Rattle.w4_commands.specs.Load.{cart_view, run_files_view};
ghost use Rattle.w4_commands.specs.Forms.{cart_command_view, editor_command_view, form_view, run_view};

use crate::batch::run_batch;
use crate::compare::run_compare;
use crate::edit::run_edit;
use crate::forms::{
    CartCommand, EditorCommand, Form, RunNames, WholeText, cart_name, edited_cart_name,
};
use crate::load::{RunFiles, frame_count, load_cart, load_run, load_run_to};
use crate::make::run_make;
use crate::net::run_net;
use crate::place_text::{WantedTexts, write_places};
use crate::places::Places;
use crate::ram::run_ram;
use crate::recordings::{run_blank, run_blank_disk, run_inputs, run_rebind};
use crate::scene::Scene;
use crate::serve::run_serve;
use crate::stage::Stage;
use crate::units::write_units;
use crate::wave::write_wave;
use std::alloc::Global;
use std::thread::Threads;
use w4_answers::writing::write_bytes;
use w4_cart::CartFile;
use w4_defs::{Finish, PlaceText, Refusal};
use w4_house::House;
use w4_segments::{Gate, Resources};
use wasm_register::Cart;

/// Carries out a form, over a cart that is judged first, if it names one. Writes nothing to standard error.
pub fn run_form<R: Threads + Sync, H: House, G: Gate + Sync>(
    resources: &Resources<'_, R, G>,
    house: &mut H,
    form: Form<'_>,
) -> Result<Finish, Refusal>
    ensures ends { Ends (H.world house.old) (H.world house.new) result (OutputsBy (form_view form.entry)) }
    ensures err { LeavesErr (H.world house.old) (H.world house.new) }
{
    let alloc = resources.alloc;
    match form {
        Form::Make(number) => finish(run_make(alloc, house, number)),
        Form::Inputs(name) => finish(run_inputs(alloc, house, name)),
        Form::Compare(names) => run_compare(alloc, house, names),
        Form::OnCart(command) => finish(judge_and_run(resources, house, command)),
        Form::InEditor(command) => finish(run_in_editor(resources, house, command)),
    }
}

/// Judges the command's cart, and carries the command out over it.
fn judge_and_run<R: Threads + Sync, H: House, G: Gate + Sync>(
    resources: &Resources<'_, R, G>,
    house: &mut H,
    command: CartCommand<'_>,
) -> Result<(), Refusal>
    ensures ends { EndsDone (H.world house.old) (H.world house.new) result
        (OutputsBy (cart_command_view command.entry)) }
    ensures err { LeavesErr (H.world house.old) (H.world house.new) }
{
    let file = load_cart(resources.alloc, house, cart_name(&command))?;
    let end = run_on_cart(resources, house, &file, command);
    file.close();
    end
}

/// How a command ends that finds no difference.
fn finish(end: Result<(), Refusal>) -> Result<Finish, Refusal>
    ensures { result ≡ finished end }
{
    match end {
        Ok(()) => Ok(Finish::Done),
        Err(refusal) => Err(refusal),
    }
}

/// Carries out a command over an accepted cart.
fn run_on_cart<R: Threads + Sync, H: House, G: Gate + Sync>(
    resources: &Resources<'_, R, G>,
    house: &mut H,
    file: &CartFile,
    command: CartCommand<'_>,
) -> Result<(), Refusal>
    ensures ends { EndsDone (H.world house.old) (H.world house.new) result (λ files output. (talk : Talk)
        × OutputsOn (cart_command_view command.entry) talk (cart_view file.now) files output) }
    ensures err { LeavesErr (H.world house.old) (H.world house.new) }
{
    let alloc = resources.alloc;
    match command {
        CartCommand::Check(_) => run_check(alloc, house),
        CartCommand::Blank(_, budget) => run_blank(alloc, house, file, budget),
        CartCommand::BlankDisk(_, budget, disk) => run_blank_disk(alloc, house, file, budget, disk),
        CartCommand::Rebind(_, recording) => run_rebind(alloc, house, file, recording),
        CartCommand::Frames(names, places) => {
            run_places(alloc, house, file, names, PlaceText::Image, places)
        }
        CartCommand::Disk(names, place) => {
            let places = Places {
                from: place,
                to: place,
            };
            run_places(alloc, house, file, names, PlaceText::DiskBytes, places)
        }
        CartCommand::Whole(names, text) => run_whole(alloc, house, file, names, text),
        CartCommand::Batch(names) => run_batch(resources, house, file, names),
    }
}

/// Judges the command's cart, and carries the command out in an editor that owns it.
fn run_in_editor<R: Threads + Sync, H: House, G: Gate + Sync>(
    resources: &Resources<'_, R, G>,
    house: &mut H,
    command: EditorCommand<'_>,
) -> Result<(), Refusal>
    ensures ends { EndsDone (H.world house.old) (H.world house.new) result
        (OutputsBy (editor_command_view command.entry)) }
    ensures err { LeavesErr (H.world house.old) (H.world house.new) }
{
    let alloc = resources.alloc;
    let file = load_cart(alloc, house, edited_cart_name(&command))?;
    match command {
        EditorCommand::Ram(names, query) => run_ram(alloc, house, file, names, query),
        EditorCommand::Edit(names) => run_edit(resources, house, file, names),
        EditorCommand::Serve(names) => run_serve(resources, house, file, names),
        EditorCommand::Net(names) => run_net(alloc, house, file, names),
    }
}

/// `check CART`, for an accepted cart.
fn run_check<H: House>(alloc: Global, house: &mut H) -> Result<(), Refusal>
    ensures ends { EndsDone (H.world house.old) (H.world house.new) result
        (MakesOf (λ files. written checked)) }
    ensures err { LeavesErr (H.world house.old) (H.world house.new) }
{
    write_bytes(alloc, house, b"ok\n")
}

/// `frames CART REC FONT FROM TO` or `disk CART REC FONT PLACE`: texts of one kind, of these places.
fn run_places<H: House>(
    alloc: Global,
    house: &mut H,
    file: &CartFile,
    names: RunNames<'_>,
    text: PlaceText,
    places: Places,
) -> Result<(), Refusal>
    ensures ends { EndsDone (H.world house.old) (H.world house.new) result (MakesOf
        (places_output text (run_view names.entry) places.from places.to (cart_view file.now))) }
    ensures err { LeavesErr (H.world house.old) (H.world house.new) }
{
    let (from, to) = (places.from as usize, places.to as usize);
    let run = load_run_to(alloc, house, &file.digest, names, places.to)?;
    write_run(
        alloc,
        house,
        &file.cart,
        &run,
        WantedTexts { text, from, to },
    )
}

/// `tones CART REC FONT`, `trace ..`, `units ..` or `wave ..`: what is written of a whole run.
fn run_whole<H: House>(
    alloc: Global,
    house: &mut H,
    file: &CartFile,
    names: RunNames<'_>,
    text: WholeText,
) -> Result<(), Refusal>
    ensures ends { EndsDone (H.world house.old) (H.world house.new) result
        (MakesOf (whole_output text (run_view names.entry) (cart_view file.now))) }
    ensures err { LeavesErr (H.world house.old) (H.world house.new) }
{
    let run = load_run(alloc, house, &file.digest, names)?;
    write_whole(alloc, house, &file.cart, &run, text)
}

/// Writes what is written of a whole run.
fn write_whole<H: House>(
    alloc: Global,
    house: &mut H,
    cart: &Cart,
    run: &RunFiles,
    text: WholeText,
) -> Result<(), Refusal>
    ensures out { ForSome (whole_text text cart.now (run_files_view run.now))
        (λ text. Written (H.world house.old) (H.world house.new) result text) }
    ensures rest { LeavesWriting (H.world house.old) (H.world house.new) }
{
    match text {
        WholeText::Tones => write_all(alloc, house, cart, run, PlaceText::Schedule),
        WholeText::Trace => write_all(alloc, house, cart, run, PlaceText::Traces),
        WholeText::Units => write_units(alloc, house, cart, run),
        WholeText::Wave => write_wave(alloc, house, cart, run),
    }
}

/// Writes the texts of all places.
fn write_all<H: House>(
    alloc: Global,
    house: &mut H,
    cart: &Cart,
    run: &RunFiles,
    text: PlaceText,
) -> Result<(), Refusal>
    ensures out { ForSome (all_texts text cart.now (run_files_view run.now))
        (λ text. Written (H.world house.old) (H.world house.new) result text) }
    ensures rest { LeavesWriting (H.world house.old) (H.world house.new) }
{
    let to = frame_count(run);
    write_run(alloc, house, cart, run, WantedTexts { text, from: 0, to })
}

/// Writes texts of places of a run, and nothing else.
fn write_run<H: House>(
    alloc: Global,
    house: &mut H,
    cart: &Cart,
    run: &RunFiles,
    wanted: WantedTexts,
) -> Result<(), Refusal>
    requires order { wanted.from ≤ wanted.to }
    requires place { wanted.to ≤ length run.now.recording.frames }
    ensures out { ForSome (place_texts_from wanted.text cart.now (run_files_view run.now) wanted.from
        (wanted.to + 1 - wanted.from))
        (λ text. Written (H.world house.old) (H.world house.new) result text) }
    ensures rest { LeavesWriting (H.world house.old) (H.world house.new) }
{
    let mut stage = Stage::new(alloc, cart)?;
    let recording = &run.recording;
    let scene = Scene::of_recording(cart, &run.font, recording);
    let inputs = recording.frames.as_slice();
    let end = write_places(alloc, house, &mut stage, &scene, inputs, wanted);
    stage.close();
    end
}
