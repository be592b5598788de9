//! Playing by a setup: one frame or many, under the caller's counter, or under one of its own
//! where frames aren't counted.

ghost use Rattle.std.specs.Prelude.{◌≡◌, ◌+◌, Some, length};
ghost use Rattle.w4_console.specs.Calls.{moment, setup_of};
ghost use Rattle.w4_console.specs.Counting.{IsBlankOf};
ghost use Rattle.w4_console.specs.Taken.{FrameTakes};
ghost use Rattle.w4_defs.specs.Frame.{frame};
ghost use Rattle.w4_defs.specs.Run.{fold};
ghost use Rattle.w4_defs.specs.State.{HasGlobals};

use crate::console::Console;
use crate::setup::Setup;
use crate::taken::FrameTaken;
use std::marker::Brand;
use std::sync::ledger::{Blank, Ledger};
use w4_defs::{Input, Steps};
use w4_devices::FrameRecord;

impl Console {
    /// Plays one frame. `frame_record` gets the frame's tones and lines, and the sounds before the channels
    /// age. What the frame took of its budget, and the start that its input may ask for.
    pub fn step(
        &mut self,
        setup: &Setup<'_>,
        input: &Input,
        frame_record: &mut FrameRecord,
    ) -> FrameTaken
        requires { HasGlobals setup.now.cart.now self.old }
        ensures frame { frame (setup_of setup.now) self.old input.now
            ≡ Some (moment self.new frame_record.new) }
        ensures taken { FrameTakes (setup_of setup.now) self.old input.now result }
        ensures globals { HasGlobals setup.now.cart.now self.new }
    {
        self.step_alone::<Brand>(setup, input, frame_record, Blank::new(1))
    }

    /// Plays these frames, one after another.
    pub fn play(&mut self, setup: &Setup<'_>, inputs: &[Input])
        requires { HasGlobals setup.now.cart.now self.old }
        ensures fold { fold (setup_of setup.now) self.old inputs.now ≡ Some self.new }
        ensures globals { HasGlobals setup.now.cart.now self.new }
    {
        self.play_alone::<Brand>(setup, inputs, Blank::new(1));
    }

    /// Plays these frames, one after another; each is one tick.
    pub fn play_counted<L: Ledger>(
        &mut self,
        setup: &Setup<'_>,
        inputs: &[Input],
        steps: &mut Steps<L>,
    )
        requires { HasGlobals setup.now.cart.now self.old }
        ensures fold { fold (setup_of setup.now) self.old inputs.now ≡ Some self.new }
        ensures globals { HasGlobals setup.now.cart.now self.new }
        ensures ticks { steps.new ≡ steps.old + length inputs.now }
    {
        let Setup { cart, font, budget } = *setup;
        let mut frame_record = FrameRecord::new();
        for input in inputs {
            self.frame(cart, font, input, budget, &mut frame_record, steps);
        }
    }

    /// The frame under the counter that a blank becomes.
    fn step_alone<L: Ledger>(
        &mut self,
        setup: &Setup<'_>,
        input: &Input,
        frame_record: &mut FrameRecord,
        blank: Blank,
    ) -> FrameTaken
        requires globals { HasGlobals setup.now.cart.now self.old }
        requires blank { IsBlankOf L.name L.parts blank }
        ensures frame { frame (setup_of setup.now) self.old input.now
            ≡ Some (moment self.new frame_record.new) }
        ensures taken { FrameTakes (setup_of setup.now) self.old input.now result }
        ensures globals { HasGlobals setup.now.cart.now self.new }
    {
        let mut steps = Steps::<L>::new(blank);
        let Setup { cart, font, budget } = *setup;
        self.frame(cart, font, input, budget, frame_record, &mut steps)
    }

    /// The frames under the counter that a blank becomes.
    fn play_alone<L: Ledger>(&mut self, setup: &Setup<'_>, inputs: &[Input], blank: Blank)
        requires globals { HasGlobals setup.now.cart.now self.old }
        requires blank { IsBlankOf L.name L.parts blank }
        ensures fold { fold (setup_of setup.now) self.old inputs.now ≡ Some self.new }
        ensures globals { HasGlobals setup.now.cart.now self.new }
    {
        self.play_counted(setup, inputs, &mut Steps::<L>::new(blank));
    }
}
