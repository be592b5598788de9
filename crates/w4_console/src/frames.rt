//! What a frame does with the cart, and what a reset and a frame end with.

ghost use Rattle.std.specs.Prelude.{◌≡◌, Some, option_map};
ghost use Rattle.w4_defs.specs.EntryPoints.{update_entry};
ghost use Rattle.w4_defs.specs.Frame.{before_update, call_update, update};
ghost use Rattle.w4_defs.specs.Reset.{recorded};
ghost use Rattle.w4_defs.specs.Units.{reset_units, taken_by_update, taken_from};
ghost use Rattle.w4_console.specs.Calls.{moment, setup_of, so_far};
ghost use Rattle.w4_console.specs.Taken.{taken_of};
ghost use Rattle.w4_defs.specs.State.{HasGlobals};

use crate::calls::call_function;
use crate::current_record::CurrentRecord;
use crate::page::put_input_page;
use crate::setup::Setup;
use crate::start::start_cart;
use crate::taken::{Taken, taken_by_calls};
use w4_defs::{Halt, Input};
use w4_devices::FrameRecord;
use w4_map::State;
use wasm_register::Engine;
use wasm_valid::Entry;

/// How a frame begins: with a start if its input has a reset, and otherwise with empty logs.
/// What the start took.
pub(crate) fn begin_frame(
    engine: &mut Engine,
    state: &mut State,
    setup: &Setup<'_>,
    input: &Input,
    current: &mut CurrentRecord,
) -> Option<Taken>
    requires globals { HasGlobals setup.now.cart.now state.old }
    ensures begun { before_update (setup_of setup.now) state.old input.now
        ≡ Some (so_far state.new current.new) }
    ensures taken { reset_units (setup_of setup.now) state.old input.now
        ≡ Some (option_map taken_of result) }
    ensures globals { HasGlobals setup.now.cart.now state.new }
{
    if input.reset {
        Some(start_cart(engine, state, setup, current))
    } else {
        current.clear();
        None
    }
}

/// While the cart runs: the input, and `update` with the whole budget. What the frame took.
pub(crate) fn update(
    engine: &mut Engine,
    state: &mut State,
    setup: &Setup<'_>,
    input: &Input,
    current: &mut CurrentRecord,
) -> Taken
    requires globals { HasGlobals setup.now.cart.now state.old }
    ensures update { update (setup_of setup.now) input.now
        (so_far state.old current.old)
        ≡ Some (so_far state.new current.new) }
    ensures taken { taken_from (setup_of setup.now) input.now
        (so_far state.old current.old) state.old.halt
        ≡ Some (taken_of result) }
    ensures globals { HasGlobals setup.now.cart.now state.new }
{
    if let Halt::Running = state.halt {
        put_input_page(state.page.bytes_mut(), input);
        call_update(engine, state, setup, current)
    } else {
        Taken::Halted
    }
}

/// Calls `update` with the whole budget. What it took.
fn call_update(
    engine: &mut Engine,
    state: &mut State,
    setup: &Setup<'_>,
    current: &mut CurrentRecord,
) -> Taken
    requires globals { HasGlobals setup.now.cart.now state.old }
    ensures called { call_update (setup_of setup.now) (update_entry setup.now.cart.now)
        (so_far state.old current.old)
        ≡ Some (so_far state.new current.new) }
    ensures taken { taken_by_update (setup_of setup.now)
        (so_far state.old current.old) (update_entry setup.now.cart.now)
        ≡ Some (taken_of result) }
    ensures globals { HasGlobals setup.now.cart.now state.new }
{
    let Some(function) = setup.cart.entry(Entry::Update) else {
        unreachable!()
    };
    let rest = call_function(engine, state, setup, function, setup.budget, current);
    taken_by_calls(setup.budget, rest)
}

/// Copies the logs so far into the record, with the sounds at the first tick. Then the channels age.
pub(crate) fn record(state: &mut State, current: &CurrentRecord, frame_record: &mut FrameRecord)
    ensures recorded { moment state.new frame_record.new ≡ recorded (so_far state.old current.now) }
    ensures globals { state.new.globals ≡ state.old.globals }
{
    let logged = current.record();
    frame_record.tones.copy_from(&logged.tones);
    frame_record.traces.copy_from(&logged.traces);
    frame_record.sounds = state.channels.sounds(0);
    state.channels.age();
}
