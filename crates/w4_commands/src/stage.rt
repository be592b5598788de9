//! A console, the record of its last frame, and the buffer of its image.

ghost use Rattle.std.specs.Prelude.{◌≡◌, ◌+◌, ◌≤◌, ◌<◌, Some, length, IfOk};
ghost use Rattle.w4_defs.specs.State.{HasGlobals};
ghost use Rattle.w4_commands.specs.Stage.{IsAtPlace, stage_moment};
ghost use Rattle.w4_commands.specs.Scene.{scene_setup};
ghost use Rattle.w4_answers.specs.RecordText.{record_text};
ghost use Rattle.w4_defs.specs.Image.{image};
ghost use Rattle.w4_defs.specs.MadeSummary.{lit_pixels};
ghost use Rattle.w4_console.specs.Taken.{TellsUnits, taken_of};
ghost use Rattle.w4_defs.specs.Units.{start_units};
ghost use Rattle.w4_defs.specs.Sound.{after_frame, rendered};

use crate::scene::Scene;
use crate::summary::lit_pixels;
use std::alloc::Global;
use w4_answers::record_text::{RecordText, record_text};
use w4_console::{Console, FrameTaken, Setup, Taken};
use w4_defs::console_laws::runs_in_parts;
use w4_defs::{Halt, Input, OutOfMemory};
use w4_devices::FrameRecord;
use w4_image::{IMAGE_LEN, ppm_into};
use w4_map::State;
use w4_wave::{FRAME_LEN, Wave};
use wasm_register::Cart;

/// A console, what its last reset or frame left behind, and the image of its page.
#[derive(Drop)]
pub struct Stage {
    console: Console,
    frame_record: FrameRecord,
    image: Box<[u8; IMAGE_LEN]>,
}

impl Stage {
    /// A stage before any reset. Takes all the memory that running needs.
    pub fn new(alloc: Global, cart: &Cart) -> Result<Stage, OutOfMemory>
        ensures { IfOk result (λ stage. HasGlobals cart.now stage.console) }
    {
        let console = Console::new(alloc, cart)?;
        let frame_record = FrameRecord::new();
        let image = Box::new(alloc, [0; IMAGE_LEN])?;
        Ok(Stage {
            console,
            frame_record,
            image,
        })
    }

    /// Gives its memory back. A function of its own, since each place at which a stage may be dropped costs
    /// much to prove.
    pub fn close(self) {}

    /// Starts the run with a reset, and returns what the reset took of the budget.
    pub fn begin_run(&mut self, scene: &Scene<'_>, inputs: &[Input]) -> Taken
        requires { HasGlobals scene.now.setup.cart.now self.old.console }
        ensures place { IsAtPlace scene.now inputs.now 0 self.new }
        ensures taken { start_units (scene_setup scene.now) scene.now.disk.now ≡ Some (taken_of result) }
    {
        let Setup { cart, font, budget } = scene.setup;
        let frame_record = &mut self.frame_record;
        self.console
            .reset(cart, font, scene.disk, budget, frame_record)
    }

    /// Goes on to the next place, and tells what the frame took of the budget.
    pub fn step_units(&mut self, scene: &Scene<'_>, inputs: &[Input], place: usize) -> FrameTaken
        requires place { place < length inputs.now }
        requires here { IsAtPlace scene.now inputs.now place self.old }
        ensures place { IsAtPlace scene.now inputs.now (place + 1) self.new }
        ensures taken { TellsUnits (scene_setup scene.now) scene.now.disk.now inputs.now place result }
    {
        runs_in_parts();
        self.console
            .step(&scene.setup, &inputs[place], &mut self.frame_record)
    }

    /// Goes on to the next place.
    pub fn step(&mut self, scene: &Scene<'_>, inputs: &[Input], place: usize)
        requires place { place < length inputs.now }
        requires here { IsAtPlace scene.now inputs.now place self.old }
        ensures { IsAtPlace scene.now inputs.now (place + 1) self.new }
    {
        self.step_units(scene, inputs, place);
    }

    /// Runs from a reset up to a place, in as many frames as its number.
    pub fn run_to(&mut self, scene: &Scene<'_>, inputs: &[Input], place: usize)
        requires place { place ≤ length inputs.now }
        requires globals { HasGlobals scene.now.setup.cart.now self.old.console }
        ensures { IsAtPlace scene.now inputs.now place self.new }
    {
        self.begin_run(scene, inputs);
        for passed in 0..place {
            self.step(scene, inputs, passed);
        }
    }

    /// Paints the image of the page.
    pub fn paint(&mut self)
        ensures image { self.new.image.value ≡ image self.old.console.page }
        ensures console { self.new.console ≡ self.old.console }
        ensures frame_record { self.new.frame_record ≡ self.old.frame_record }
    {
        ppm_into(self.console.state(), &mut self.image);
    }

    /// The image that was painted last.
    pub fn painted(&self) -> &[u8]
        ensures { result.now ≡ self.now.image.value }
    {
        self.image.as_slice()
    }

    /// The state of the console.
    pub fn state(&self) -> &State
        ensures { result.now ≡ self.now.console }
    {
        self.console.state()
    }

    /// The bytes on the disk.
    pub fn disk(&self) -> &[u8]
        ensures { result.now ≡ self.now.console.disk }
    {
        self.console.state().disk.bytes()
    }

    /// Whether the cart still runs.
    pub fn halt(&self) -> Halt
        ensures { result ≡ self.now.console.halt }
    {
        self.console.state().halt
    }

    /// How many pixels of the image don't have palette index 0.
    pub fn lit(&self) -> u32
        ensures { result ≡ lit_pixels self.now.console.page }
    {
        lit_pixels(self.console.state().page.bytes())
    }

    /// A text of the frame that led to this place.
    pub fn frame_text(
        &self,
        alloc: Global,
        wanted: RecordText,
        place: usize,
    ) -> Result<Vec<u8>, OutOfMemory>
        ensures { IfOk result (λ text. text.items
            ≡ record_text wanted place (stage_moment self.now).frame_record) }
    {
        record_text(alloc, wanted, place, &self.frame_record)
    }

    /// Renders the sound of the frame that led to this place.
    pub fn render(&self, wave: &mut Wave, samples: &mut [u8; FRAME_LEN])
        ensures samples { samples.new ≡ rendered (stage_moment self.now).frame_record wave.old }
        ensures wave { wave.new ≡ after_frame (stage_moment self.now).frame_record wave.old }
    {
        wave.render(&self.frame_record, samples);
    }
}
