//! The start of a cart, before the record of its reset is taken.

ghost use Rattle.std.specs.Prelude.{◌≡◌, Some};
ghost use Rattle.w4_defs.specs.declared.console.Halt.TheVariants.{Running};
ghost use Rattle.w4_defs.specs.EntryPoints.{first_globals, start_functions};
ghost use Rattle.w4_defs.specs.Lookup.{own_global_types};
ghost use Rattle.w4_defs.specs.Reset.{call_all, fresh, start};
ghost use Rattle.w4_defs.specs.RunLaws.{types_of};
ghost use Rattle.w4_defs.specs.Units.{start_units, taken_by_calls};
ghost use Rattle.w4_defs.specs.Validity.{IsValid};
ghost use Rattle.w4_console.specs.Calls.{setup_of, so_far};
ghost use Rattle.w4_console.specs.Taken.{taken_by_calls_of, taken_of};
ghost use Rattle.w4_defs.specs.State.{HasGlobals};

use crate::calls::call_if_there;
use crate::current_record::CurrentRecord;
use crate::page::put_start_page;
use crate::setup::Setup;
use crate::taken::{Stop, Taken, taken_by_calls};
use w4_defs::{Halt, Val};
use w4_map::State;
use w4_tone::Channels;
use wasm_register::{Cart, Engine};
use wasm_valid::Entry;

/// Starts a cart with the state's own disk: everything else anew, then the functions that a reset calls.
/// What they took.
pub(crate) fn start_cart(
    engine: &mut Engine,
    state: &mut State,
    setup: &Setup<'_>,
    current: &mut CurrentRecord,
) -> Taken
    requires globals { HasGlobals setup.now.cart.now state.old }
    ensures start { start (setup_of setup.now) state.old.disk
        ≡ Some (so_far state.new current.new) }
    ensures taken { start_units (setup_of setup.now) state.old.disk
        ≡ Some (taken_of result) }
    ensures globals { HasGlobals setup.now.cart.now state.new }
{
    put_fresh(state, setup.cart);
    current.clear();
    let rest = call_all(engine, state, setup, current);
    taken_by_calls(setup.budget, rest)
}

/// The state before a reset's calls; the disk stays.
fn put_fresh(state: &mut State, cart: &Cart)
    requires globals { HasGlobals cart.now state.old }
    ensures state { state.new ≡ fresh cart.now state.old.disk }
    ensures globals { HasGlobals cart.now state.new }
{
    put_start_page(state.page.bytes_mut(), cart);
    state.globals.copy_from_slice(first_globals(cart));
    state.channels = Channels::new();
    state.halt = Halt::Running;
}

/// The first values of a cart's globals, each of its global's type.
pub(crate) fn first_globals(cart: &Cart) -> &[Val]
    ensures value { result.now ≡ first_globals cart.now }
    ensures types { types_of result.now ≡ own_global_types cart.now }
{
    is_valid(cart);
    cart.first_globals()
}

/// A fact for callers, which costs nothing: the module is valid, so its constants have the
/// types of their globals.
fn is_valid(cart: &Cart)
    ensures { IsValid cart.now }
{
    let _code = cart.code();
}

/// Calls the start function and the exports `_start`, `_initialize` and `start`, where present, under one
/// budget, up to the first that traps or is spent. The rest of the budget.
fn call_all(
    engine: &mut Engine,
    state: &mut State,
    setup: &Setup<'_>,
    current: &mut CurrentRecord,
) -> Result<u32, Stop>
    requires globals { HasGlobals setup.now.cart.now state.old }
    requires running { state.old.halt ≡ Running }
    ensures called { call_all (setup_of setup.now) (start_functions setup.now.cart.now)
        (so_far state.old current.old) setup.now.budget ≡ Some (so_far state.new current.new) }
    ensures taken { taken_by_calls (setup_of setup.now) (start_functions setup.now.cart.now)
        (so_far state.old current.old) setup.now.budget
        ≡ Some (taken_by_calls_of setup.now.budget result) }
    ensures globals { HasGlobals setup.now.cart.now state.new }
{
    let rest = call_if_there(
        engine,
        state,
        setup,
        setup.cart.start(),
        setup.budget,
        current,
    )?;
    let crt_start = setup.cart.entry(Entry::CrtStart);
    let rest = call_if_there(engine, state, setup, crt_start, rest, current)?;
    let initialize = setup.cart.entry(Entry::Initialize);
    let rest = call_if_there(engine, state, setup, initialize, rest, current)?;
    let start = setup.cart.entry(Entry::Start);
    call_if_there(engine, state, setup, start, rest, current)
}
