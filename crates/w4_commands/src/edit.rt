//! An edit: the answers to its orders, and then the file of the edited recording.

ghost use Rattle.std.specs.Option.{ForSome};
ghost use Rattle.w4_defs.specs.Recording.{encoding};
ghost use Rattle.w4_defs.specs.Output.{edit_answers, edit_files, edit_output, edited_recording, orders_of, script_in};
ghost use Rattle.w4_defs.specs.Causes.{LeavesErr};
ghost use Rattle.w4_defs.specs.World.{LeavesReading};
ghost use Rattle.w4_answers.specs.ScriptAnswers.{answers_by, recording_by};
ghost use Rattle.w4_commands.specs.Edit.{Carried, loaded_view, run_and_orders};
ghost use Rattle.w4_commands.specs.Commands.{EndsDone, MakesOf};
ghost use Rattle.w4_commands.specs.Load.{ResultsIn, StepGives, GivesValue, cart_view};
ghost use Rattle.w4_console.specs.Counting.{IsBlankOf};
ghost use Rattle.w4_commands.specs.Forms.{edit_view};

use crate::forms::EditNames;
use crate::lines_refusal::script_refusal;
use crate::load::{RunFiles, load_run, read_file};
use std::alloc::Global;
use std::marker::Brand;
use std::sync::ledger::{Blank, Ledger};
use std::thread::Threads;
use w4_answers::desk::Desk;
use w4_answers::saving::save_recording;
use w4_answers::script_answers::answer_all;
use w4_cart::CartFile;
use w4_defs::{Order, Refusal};
use w4_house::House;
use w4_script::read_script;
use w4_segments::{Gate, Resources};
use wasm_register::Cart;

/// The files of an edit, without the cart.
#[derive(Drop)]
pub struct Loaded {
    pub run: RunFiles,
    pub orders: Vec<Order>,
}

/// What an edit does once its files are read: its orders, and the name of the file that the edited recording
/// goes to.
#[derive(Clone, Copy)]
struct EditTask<'a> {
    orders: &'a [Order],
    out: &'a str,
}

/// `edit CART REC FONT SCRIPT OUT`.
#[tactic(auto, unfolding(w4_defs::specs::Output::edit_output))]
pub fn run_edit<R: Threads + Sync, H: House, G: Gate + Sync>(
    resources: &Resources<'_, R, G>,
    house: &mut H,
    file: CartFile,
    names: EditNames<'_>,
) -> Result<(), Refusal>
    ensures ends { EndsDone (H.world house.old) (H.world house.new) result
        (MakesOf (λ files. edit_output (edit_view names.entry) (cart_view file) files)) }
    ensures err { LeavesErr (H.world house.old) (H.world house.new) }
{
    match load_edit(resources.alloc, house, &file.digest, names) {
        Ok(loaded) => {
            let Loaded { run, orders } = loaded;
            let task = EditTask {
                orders: orders.as_slice(),
                out: names.out,
            };
            carry_out::<Brand, R, H, G>(resources, house, file.cart, run, task, Blank::new(1))
        }
        Err(refusal) => {
            file.close();
            Err(refusal)
        }
    }
}

/// Reads what an edit over the cart with this digest is made of.
#[tactic(auto, unfolding(w4_defs::specs::Output::edit_files))]
fn load_edit<H: House>(
    alloc: Global,
    house: &mut H,
    digest: &[u8; 32],
    names: EditNames<'_>,
) -> Result<Loaded, Refusal>
    ensures gives { StepGives (H.world house.old) (H.world house.new) loaded_view result
        (ResultsIn (λ files. edit_files digest.now (edit_view names.entry) files)) }
    ensures rest { LeavesReading (H.world house.old) (H.world house.new) }
{
    let run = load_run(alloc, house, digest, names.run)?;
    let orders = load_orders(alloc, house, names.script)?;
    Ok(Loaded { run, orders })
}

#[tactic(auto, unfolding(w4_defs::specs::Output::script_in))]
fn load_orders<H: House>(alloc: Global, house: &mut H, name: &str) -> Result<Vec<Order>, Refusal>
    ensures gives { StepGives (H.world house.old) (H.world house.new) (λ orders. orders.items) result
        (ResultsIn (λ files. script_in files name.now)) }
    ensures rest { LeavesReading (H.world house.old) (H.world house.new) }
{
    let bytes = read_file(alloc, house, name, w4_script::MOST_BYTES + 1)?;
    judge_script(alloc, bytes.as_slice())
}

/// The orders of a script.
#[tactic(auto, unfolding(w4_defs::specs::Output::orders_of))]
fn judge_script(alloc: Global, bytes: &[u8]) -> Result<Vec<Order>, Refusal>
    ensures { GivesValue (λ orders. orders.items) result (orders_of bytes.now) }
{
    read_script(alloc, bytes).map_err(script_refusal)
}

/// Opens the recording, answers all orders, and saves the edited recording. The frames that are run have a
/// counter of their own.
fn carry_out<L: Ledger, R: Threads + Sync, H: House, G: Gate + Sync>(
    resources: &Resources<'_, R, G>,
    house: &mut H,
    cart: Cart,
    run: RunFiles,
    task: EditTask<'_>,
    blank: Blank,
) -> Result<(), Refusal>
    requires { IsBlankOf L.name L.parts blank }
    ensures carried { ForSome (edit_answers cart (run_and_orders run task.entry.orders.now)).out
        (λ out. Carried (H.world house.old) (H.world house.new) result out task.entry.out.now
        (encoding 2 (edited_recording cart (run_and_orders run task.entry.orders.now)))) }
    ensures err { LeavesErr (H.world house.old) (H.world house.new) }
{
    let mut desk = Desk::<L>::new(resources.alloc, cart, run.font, run.recording, blank)?;
    let end = answer_and_save(resources, house, &mut desk, task.orders, task.out);
    desk.close();
    end
}

/// Answers all orders, and saves the edited recording.
fn answer_and_save<L: Ledger, R: Threads + Sync, H: House, G: Gate + Sync>(
    resources: &Resources<'_, R, G>,
    house: &mut H,
    desk: &mut Desk<L>,
    orders: &[Order],
    out: &str,
) -> Result<(), Refusal>
    ensures carried { ForSome (answers_by desk.old.counted.editor orders.now).out
        (λ answers. Carried (H.world house.old) (H.world house.new) result answers out.now
        (encoding 2 (recording_by desk.old.counted.editor orders.now))) }
    ensures err { LeavesErr (H.world house.old) (H.world house.new) }
{
    answer_all(resources, house, desk, orders)?;
    save_recording(resources.alloc, house, desk, out)
}
