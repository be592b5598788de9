//! A console with its cart and its font, under one budget.

ghost use Rattle.std.specs.Prelude.{◌≡◌, ◌+◌, ◌≤◌, IfOk, length, option_map, Some};
ghost use Rattle.w4_console.specs.Calls.{moment, setup_of};
ghost use Rattle.w4_console.specs.Counting.{IsBlankOf};
ghost use Rattle.w4_console.specs.Taken.{FrameTakes};
ghost use Rattle.w4_defs.specs.Frame.{frame};
ghost use Rattle.w4_defs.specs.State.{HasGlobals};
ghost use Rattle.w4_defs.specs.Reset.{reset};
ghost use Rattle.w4_defs.specs.Run.{fold};
ghost use Rattle.w4_editor.specs.Player.{IsPlayer, in_state, player_setup};
ghost use Rattle.w4_snap.specs.Chunks.{copied_chunks};

use std::alloc::Global;
use std::marker::{Brand, Model};
use std::rc::Rc;
use std::sync::ledger::{Blank, Ledger};
use w4_console::{Console, FrameTaken, Setup};
use w4_defs::{Input, OutOfMemory, Steps};
use w4_devices::FrameRecord;
use w4_font::Font;
use w4_map::State;
use w4_snap::{Snap, capture};
use wasm_register::Cart;

/// Plays frames of a cart. A contract sees the cart, the font, the budget and the state.
#[derive(Drop)]
pub struct Player {
    cart: Cart,
    font: Font,
    budget: u32,
    console: Console,
}

impl Model for Player {
    ghost use Rattle.std.specs.Coded.{codes};
    ghost use Rattle.w4_defs.specs.TreeCode.{tree_code};
    ghost use Rattle.w4_editor.specs.Player.{IsPlayer, Player};

    ghost Value = { Player };

    ghost coded = { Prim.hlevel (codes, tree_code) };

    ghost view = { λ p. record { cart = p.cart; font = p.font; budget = p.budget; state = p.console } };

    ghost invariant = { λ p. IsPlayer
        (record { cart = p.cart; font = p.font; budget = p.budget; state = p.console }) };
}

impl Player {
    /// A player before any reset.
    pub(crate) fn new(
        alloc: Global,
        cart: Cart,
        font: Font,
        budget: u32,
    ) -> Result<Player, OutOfMemory>
        requires { 1 ≤ budget }
        ensures cart { IfOk result (λ player. player.cart ≡ cart) }
        ensures font { IfOk result (λ player. player.font ≡ font) }
        ensures budget { IfOk result (λ player. player.budget ≡ budget) }
    {
        let console = Console::new(alloc, &cart)?;
        Ok(Player {
            cart,
            font,
            budget,
            console,
        })
    }

    /// Starts the cart with this disk.
    pub(crate) fn reset(&mut self, disk: &[u8], frame_record: &mut FrameRecord)
        requires { length disk.now ≤ 1024 }
        ensures reset { reset (player_setup self.old) disk.now
            ≡ Some (moment self.new.state frame_record.new) }
        ensures same { self.new ≡ in_state self.old self.new.state }
        ensures globals { HasGlobals self.new.cart self.new.state }
    {
        self.console
            .reset(&self.cart, &self.font, disk, self.budget, frame_record);
    }

    /// Plays one frame, and ticks once. What the frame took of its budget.
    pub(crate) fn frame<L: Ledger>(
        &mut self,
        input: &Input,
        frame_record: &mut FrameRecord,
        steps: &mut Steps<L>,
    ) -> FrameTaken
        ensures frame { frame (player_setup self.old) self.old.state input.now
            ≡ Some (moment self.new.state frame_record.new) }
        ensures taken { FrameTakes (player_setup self.old) self.old.state input.now result }
        ensures same { self.new ≡ in_state self.old self.new.state }
        ensures globals { HasGlobals self.new.cart self.new.state }
        ensures ticks { steps.new ≡ steps.old + 1 }
    {
        self.console.frame(
            &self.cart,
            &self.font,
            input,
            self.budget,
            frame_record,
            steps,
        )
    }

    /// Plays these frames, one after another; each is one tick.
    pub(crate) fn run<L: Ledger>(&mut self, inputs: &[Input], steps: &mut Steps<L>)
        ensures fold { fold (player_setup self.old) self.old.state inputs.now ≡ Some self.new.state }
        ensures same { self.new ≡ in_state self.old self.new.state }
        ensures globals { HasGlobals self.new.cart self.new.state }
        ensures ticks { steps.new ≡ steps.old + length inputs.now }
    {
        let setup = Setup {
            cart: &self.cart,
            font: &self.font,
            budget: self.budget,
        };
        self.console.play_counted(&setup, inputs, steps);
    }

    /// Puts the state of a snapshot.
    pub(crate) fn restore(&mut self, snap: &Snap)
        requires { HasGlobals self.old.cart snap.now }
        ensures { self.new ≡ in_state self.old snap.now }
    {
        snap.restore(self.console.state_mut());
    }

    /// A snapshot of the state, which shares with the one before what is equal, and how many chunks were
    /// copied.
    pub(crate) fn capture(
        &self,
        alloc: Global,
        before: Option<&Snap>,
    ) -> Result<(Rc<Snap>, u32), OutOfMemory>
        ensures state { IfOk result (λ r. r.0.value ≡ self.now.state) }
        ensures copied { IfOk result (λ r. r.1
            ≡ copied_chunks (option_map (λ s. s.now) before.entry) self.now.state) }
        ensures globals { HasGlobals self.now.cart self.now.state }
    {
        capture_alone(alloc, before, self.console.state())
    }

    /// The state.
    pub(crate) fn state(&self) -> &State
        ensures { result.now ≡ self.now.state }
    {
        self.console.state()
    }

    /// What its runs read and don't change.
    pub(crate) fn setup(&self) -> Setup<'_>
        ensures { setup_of result ≡ player_setup self.now }
    {
        Setup {
            cart: &self.cart,
            font: &self.font,
            budget: self.budget,
        }
    }

    /// The cart.
    pub(crate) fn cart(&self) -> &Cart
        ensures { result.now ≡ self.now.cart }
    {
        &self.cart
    }

    /// The font.
    pub(crate) fn font(&self) -> &Font
        ensures { result.now ≡ self.now.font }
    {
        &self.font
    }
}

/// A fact for callers, which costs nothing: the globals have the cart's types, the first ones too.
pub(crate) fn has_types(player: &Player)
    ensures { IsPlayer player.now }
{
    let _budget = player.budget;
}

/// A snapshot of a state, which shares with the one before what is equal, and how many chunks were copied.
pub(crate) fn capture_alone(
    alloc: Global,
    before: Option<&Snap>,
    state: &State,
) -> Result<(Rc<Snap>, u32), OutOfMemory>
    ensures state { IfOk result (λ r. r.0.value ≡ state.now) }
    ensures copied { IfOk result (λ r. r.1
        ≡ copied_chunks (option_map (λ s. s.now) before.entry) state.now) }
{
    let (snap, copied) = captured::<Brand>(alloc, before, state, Blank::new(1))?;
    Ok((Rc::new(alloc, snap)?, copied))
}

/// A capture under a counter of its own.
fn captured<L: Ledger>(
    alloc: Global,
    before: Option<&Snap>,
    state: &State,
    blank: Blank,
) -> Result<(Snap, u32), OutOfMemory>
    requires { IsBlankOf L.name L.parts blank }
    ensures state { IfOk result (λ r. r.0 ≡ state.now) }
    ensures copied { IfOk result (λ r. r.1
        ≡ copied_chunks (option_map (λ s. s.now) before.entry) state.now) }
{
    capture(alloc, before, state, &mut Steps::<L>::new(blank))
}
