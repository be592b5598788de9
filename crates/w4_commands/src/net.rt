//! `net`: a session with rollback, from a log.

ghost use Rattle.std.specs.Prelude.{◌≡◌, []};
ghost use Rattle.std.specs.Option.{ForSome};
ghost use Rattle.w4_editor.specs.Editor.{editing_setup};
ghost use Rattle.w4_defs.specs.World.{LeavesReading, LeavesWriting};
ghost use Rattle.w4_defs.specs.Causes.{LeavesErr};
ghost use Rattle.w4_commands.specs.Commands.{EndsDone, MakesOf};
ghost use Rattle.w4_commands.specs.Load.{ResultsIn, StepGives, GivesValue, cart_view};
ghost use Rattle.w4_answers.specs.Writing.{Written};
ghost use Rattle.w4_defs.specs.LogAnswers.{net_answers};
ghost use Rattle.w4_answers.specs.NetAnswers.{net_session};
ghost use Rattle.w4_defs.specs.ToolOutputs.{log_in, log_orders, net_files, net_output, net_text};
ghost use Rattle.w4_console.specs.Counting.{IsBlankOf};
ghost use Rattle.w4_commands.specs.Net.{net_loaded_view};
ghost use Rattle.w4_commands.specs.Forms.{net_view};

use crate::budget::Budget;
use crate::forms::NetNames;
use crate::lines_refusal::script_refusal;
use crate::load::{load_font, read_file};
use std::alloc::Global;
use std::marker::Brand;
use std::sync::ledger::{Blank, Ledger};
use w4_answers::net_answers::answer_order;
use w4_cart::CartFile;
use w4_defs::netplay::NetOrder;
use w4_defs::{Refusal, Steps};
use w4_font::Font;
use w4_house::House;
use w4_image::IMAGE_LEN;
use w4_netplay::Replica;
use w4_record::Recording;
use w4_script::read_log;

/// The files of a session with rollback, without the cart.
#[derive(Drop)]
pub struct NetLoaded {
    pub font: Font,
    pub orders: Vec<NetOrder>,
}

/// `net CART FONT BUDGET LOG`.
#[tactic(auto, unfolding(w4_defs::specs::ToolOutputs::net_output))]
pub fn run_net<H: House>(
    alloc: Global,
    house: &mut H,
    file: CartFile,
    names: NetNames<'_>,
) -> Result<(), Refusal>
    ensures ends { EndsDone (H.world house.old) (H.world house.new) result
        (MakesOf (λ files. net_output (net_view names.entry) (cart_view file) files)) }
    ensures err { LeavesErr (H.world house.old) (H.world house.new) }
{
    match load_net(alloc, house, names) {
        Ok(loaded) => {
            let NetLoaded { font, orders } = loaded;
            answer_log(alloc, house, file, font, names.budget, orders.as_slice())
        }
        Err(refusal) => {
            file.close();
            Err(refusal)
        }
    }
}

/// Reads what a session of rollback is made of.
#[tactic(auto, unfolding(w4_defs::specs::ToolOutputs::net_files))]
fn load_net<H: House>(
    alloc: Global,
    house: &mut H,
    names: NetNames<'_>,
) -> Result<NetLoaded, Refusal>
    ensures gives { StepGives (H.world house.old) (H.world house.new) net_loaded_view result
        (ResultsIn (λ files. net_files (net_view names.entry) files)) }
    ensures rest { LeavesReading (H.world house.old) (H.world house.new) }
{
    let font = load_font(alloc, house, names.font)?;
    let orders = load_log(alloc, house, names.log)?;
    Ok(NetLoaded { font, orders })
}

#[tactic(auto, unfolding(w4_defs::specs::ToolOutputs::log_in))]
fn load_log<H: House>(alloc: Global, house: &mut H, name: &str) -> Result<Vec<NetOrder>, Refusal>
    ensures gives { StepGives (H.world house.old) (H.world house.new) (λ orders. orders.items) result
        (ResultsIn (λ files. log_in files name.now)) }
    ensures rest { LeavesReading (H.world house.old) (H.world house.new) }
{
    let bytes = read_file(alloc, house, name, w4_script::MOST_BYTES + 1)?;
    judge_log(alloc, bytes.as_slice())
}

/// The orders of a log.
#[tactic(auto, unfolding(w4_defs::specs::ToolOutputs::log_orders))]
fn judge_log(alloc: Global, bytes: &[u8]) -> Result<Vec<NetOrder>, Refusal>
    ensures { GivesValue (λ orders. orders.items) result (log_orders bytes.now) }
{
    read_log(alloc, bytes).map_err(script_refusal)
}

/// Begins a session without inputs, and answers all lines of the log.
fn answer_log<H: House>(
    alloc: Global,
    house: &mut H,
    file: CartFile,
    font: Font,
    budget: Budget,
    orders: &[NetOrder],
) -> Result<(), Refusal>
    ensures out { ForSome (net_text file.cart budget.units (record { font = font; orders = orders.now }))
        (λ text. Written (H.world house.old) (H.world house.new) result text) }
    ensures rest { LeavesWriting (H.world house.old) (H.world house.new) }
{
    let CartFile { cart, digest } = file;
    let recording = Recording::new(digest, budget.units, Vec::new(alloc), Vec::new(alloc));
    let mut replica = Replica::new(alloc, cart, font, recording)?;
    let end = answer_orders::<Brand, H>(alloc, house, &mut replica, orders, Blank::new(1));
    replica.close();
    end
}

/// Answers all lines. The frames that are run for them are counted by a counter of their own.
fn answer_orders<L: Ledger, H: House>(
    alloc: Global,
    house: &mut H,
    replica: &mut Replica,
    orders: &[NetOrder],
    blank: Blank,
) -> Result<(), Refusal>
    requires disk { replica.old.editor.disk ≡ [] }
    requires blank { IsBlankOf L.name L.parts blank }
    ensures out { ForSome
        (net_answers (editing_setup replica.old.editor) (net_session replica.old) orders.now).out
        (λ text. Written (H.world house.old) (H.world house.new) result text) }
    ensures rest { LeavesWriting (H.world house.old) (H.world house.new) }
{
    let mut image = Box::new(alloc, [0; IMAGE_LEN])?;
    let mut steps: Steps<L> = Steps::new(blank);
    for order in orders {
        answer_order(alloc, house, replica, &mut image, order, &mut steps)?;
    }
    Ok(())
}
