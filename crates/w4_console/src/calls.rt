//! Calls of a cart's entry functions. The devices are moved into a board and back, disk and record in their
//! boxes, which takes no memory.

ghost use Rattle.std.specs.Option.{IfSome};
ghost use Rattle.std.specs.Prelude.{◌≡◌, OnOk, Some};
ghost use Rattle.w4_defs.specs.declared.console.Halt.TheVariants.{Running};
ghost use Rattle.w4_defs.specs.Lookup.{signature_of};
ghost use Rattle.w4_defs.specs.Reset.{store_of, logged_state_after};
ghost use Rattle.w4_console.specs.Calls.{
  halt_after,
  IsCalled,
  IsCalledFirst,
  rest_after,
  so_far,
  TakesUnits,
  TakesUnitsFirst,
};
ghost use Rattle.w4_defs.specs.State.{HasGlobals};
ghost use Rattle.w4_defs.specs.Module.{nothing_to_nothing};

use crate::current_record::{CurrentRecord, Loan};
use crate::setup::Setup;
use crate::taken::Stop;
use std::mem;
use w4_defs::Halt;
use w4_devices::Disk;
use w4_font::Font;
use w4_host::Board;
use w4_map::State;
use wasm_laws::Ending;
use wasm_register::Engine;

/// Calls a function, if there is one. Returns the rest of the budget if it ends normally or there is none.
/// Errors: it traps or is spent, and halt says so too. The record's logs go on.
pub(crate) fn call_if_there(
    engine: &mut Engine,
    state: &mut State,
    setup: &Setup<'_>,
    function: Option<u32>,
    budget: u32,
    current: &mut CurrentRecord,
) -> Result<u32, Stop>
    requires signature { IfSome function (λ f. signature_of setup.now.cart.now f ≡ Some nothing_to_nothing) }
    requires globals { HasGlobals setup.now.cart.now state.old }
    requires running { state.old.halt ≡ Running }
    ensures called { IsCalledFirst setup.now.cart.now setup.now.font.now function
        (so_far state.old current.old) budget result (so_far state.new current.new) }
    ensures taken { TakesUnitsFirst setup.now.cart.now setup.now.font.now function
        (so_far state.old current.old) budget result (so_far state.new current.new) }
    ensures globals { HasGlobals setup.now.cart.now state.new }
    ensures running { OnOk result (state.new.halt ≡ Running) }
{
    match function {
        None => Ok(budget),
        Some(function) => call_function(engine, state, setup, function, budget, current),
    }
}

/// Calls a function. Returns the rest of the budget if it ends normally. Errors: it traps or is spent, and
/// halt says so too.
pub(crate) fn call_function(
    engine: &mut Engine,
    state: &mut State,
    setup: &Setup<'_>,
    function: u32,
    budget: u32,
    current: &mut CurrentRecord,
) -> Result<u32, Stop>
    requires signature { signature_of setup.now.cart.now function ≡ Some nothing_to_nothing }
    requires globals { HasGlobals setup.now.cart.now state.old }
    ensures called { IsCalled setup.now.cart.now setup.now.font.now function
        (so_far state.old current.old) budget result (so_far state.new current.new) }
    ensures taken { TakesUnits setup.now.cart.now setup.now.font.now function
        (so_far state.old current.old) budget result (so_far state.new current.new) }
    ensures globals { HasGlobals setup.now.cart.now state.new }
    ensures running { OnOk result (state.new.halt ≡ Running) }
{
    let Some(loan) = current.loan.take() else {
        unreachable!()
    };
    let mut board = board_of(setup.font, state, loan);
    let ending = engine.invoke(
        setup.cart,
        function,
        &mut state.page,
        &mut state.globals,
        &mut board,
        budget,
    );
    state.channels = board.channels;
    let spare_disk = put_back(state, board.disk, halt_after(ending));
    current.loan = Some(Loan {
        frame_record: board.frame_record,
        spare_disk,
    });
    rest_after(ending)
}

/// Moves the devices into a board, with the record so far.
fn board_of<'a>(font: &'a Font, state: &mut State, loan: Loan) -> Board<'a>
    ensures { record { page = state.new.page; globals = state.new.globals; host = result }
        ≡ store_of font.now (so_far state.old loan.frame_record.value) }
{
    Board {
        font,
        channels: state.channels,
        disk: mem::replace(&mut state.disk, loan.spare_disk),
        frame_record: loan.frame_record,
    }
}

/// Puts the disk back in the place of the spare one, which it returns, and sets halt.
fn put_back(state: &mut State, disk: Box<Disk>, halt: Halt) -> Box<Disk>
    ensures { state.new
        ≡ record state.old { disk = disk.value; halt = halt } }
{
    state.halt = halt;
    mem::replace(&mut state.disk, disk)
}

fn halt_after(ending: Ending) -> Halt
    ensures { result ≡ halt_after ending }
{
    match ending {
        Ending::Done { rest: _ } => Halt::Running,
        Ending::Trap(cause) => Halt::Trapped(cause),
        Ending::Spent => Halt::Spent,
    }
}

fn rest_after(ending: Ending) -> Result<u32, Stop>
    ensures { result ≡ rest_after ending }
{
    match ending {
        Ending::Done { rest } => Ok(rest),
        Ending::Trap(_) => Err(Stop::Trapped),
        Ending::Spent => Err(Stop::Spent),
    }
}
