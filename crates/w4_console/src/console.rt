//! The console.

ghost use Rattle.std.specs.Prelude.{◌≡◌, ◌+◌, ◌≤◌, IfOk, length, option_map, Some};
ghost use Rattle.w4_defs.specs.Board.{console_setup};
ghost use Rattle.w4_defs.specs.EntryPoints.{first_globals};
ghost use Rattle.w4_defs.specs.Frame.{frame};
ghost use Rattle.w4_defs.specs.Reset.{reset};
ghost use Rattle.w4_defs.specs.State.{blank_state, HasGlobals};
ghost use Rattle.w4_defs.specs.Units.{frame_units, reset_units, start_units};
ghost use Rattle.w4_console.specs.Calls.{moment};
ghost use Rattle.w4_console.specs.Taken.{taken_of};

use crate::current_record::CurrentRecord;
use crate::frames::{begin_frame, record, update};
use crate::setup::Setup;
use crate::start::{first_globals, start_cart};
use crate::taken::{FrameTaken, Taken};
use std::alloc::Global;
use std::marker::Model;
use std::sync::ledger::Ledger;
use w4_defs::{Input, OutOfMemory, Steps};
use w4_devices::{Disk, FrameRecord};
use w4_font::Font;
use w4_map::State;
use wasm_register::{Cart, Engine};

/// A console with all the memory that resets and frames need. A contract sees its state.
#[derive(Drop)]
pub struct Console {
    engine: Engine,
    state: State,
    current: CurrentRecord,
}

impl Model for Console {
    ghost use Rattle.w4_defs.specs.State.{State};

    ghost Value = { State };

    ghost view = { λ c. c.state };
}

impl Console {
    ghost use Rattle.std.specs.Borrow.{sem};
    ghost use Rattle.w4_console.specs.Console.{LendsState};

    /// A console before any reset, whose globals are a cart's.
    pub fn new(alloc: Global, cart: &Cart) -> Result<Console, OutOfMemory>
        ensures blank { IfOk result (λ console. console ≡ blank_state (first_globals cart.now)) }
        ensures globals { IfOk result (λ console. HasGlobals cart.now console) }
    {
        Ok(Console {
            engine: Engine::new(alloc)?,
            state: State::new(alloc, first_globals(cart))?,
            current: CurrentRecord::new(alloc)?,
        })
    }

    /// Starts a cart with this disk, of at most 1,024 bytes, under a budget of at least one unit.
    /// `frame_record` gets what the start functions left, and the sounds before the channels age. What they
    /// took of the budget.
    pub fn reset(
        &mut self,
        cart: &Cart,
        font: &Font,
        disk: &[u8],
        budget: u32,
        frame_record: &mut FrameRecord,
    ) -> Taken
        requires disk { length disk.now ≤ 1024 }
        requires budget { 1 ≤ budget }
        requires globals { HasGlobals cart.now self.old }
        ensures reset { reset (console_setup cart.now font.now budget) disk.now
            ≡ Some (moment self.new frame_record.new) }
        ensures taken { start_units (console_setup cart.now font.now budget) disk.now
            ≡ Some (taken_of result) }
        ensures globals { HasGlobals cart.now self.new }
    {
        let (engine, state, current) = (&mut self.engine, &mut self.state, &mut self.current);
        *state.disk = Disk::new(disk);
        let setup = Setup { cart, font, budget };
        let taken = start_cart(engine, state, &setup, current);
        record(state, current, frame_record);
        taken
    }

    /// Runs one frame under a budget of at least one unit, and ticks once. An input with a reset first
    /// restarts the cart, with the disk that the state has. A halted console only ages its channels.
    /// `frame_record` gets the frame's tones and lines, and the sounds before the channels age. What the
    /// frame took of its budget, and such a start.
    pub fn frame<L: Ledger>(
        &mut self,
        cart: &Cart,
        font: &Font,
        input: &Input,
        budget: u32,
        frame_record: &mut FrameRecord,
        steps: &mut Steps<L>,
    ) -> FrameTaken
        requires budget { 1 ≤ budget }
        requires globals { HasGlobals cart.now self.old }
        ensures frame { frame (console_setup cart.now font.now budget) self.old input.now
            ≡ Some (moment self.new frame_record.new) }
        ensures update { frame_units (console_setup cart.now font.now budget) self.old input.now
            ≡ Some (taken_of result.update) }
        ensures start { reset_units (console_setup cart.now font.now budget) self.old input.now
            ≡ Some (option_map taken_of result.start) }
        ensures globals { HasGlobals cart.now self.new }
        ensures ticks { steps.new ≡ steps.old + 1 }
    {
        steps.tick();
        let (engine, state, current) = (&mut self.engine, &mut self.state, &mut self.current);
        let setup = Setup { cart, font, budget };
        let start = begin_frame(engine, state, &setup, input, current);
        let update = update(engine, state, &setup, input, current);
        record(state, current, frame_record);
        FrameTaken { update, start }
    }

    /// The state, to be read.
    pub fn state(&self) -> &State
        ensures { result.now ≡ self.now }
    {
        &self.state
    }

    /// The state, to be written: what it is when the borrow ends is the console's.
    pub fn state_mut(&mut self) -> &mut State
        ensures* writes_back { sem 𝓛 (LendsState self.entry result) }
        ensures value { result.now ≡ self.old }
    {
        &mut self.state
    }
}
