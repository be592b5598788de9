//! What a run reads and doesn't change.

ghost use Rattle.std.specs.Prelude.{◌≤◌, length};

use w4_console::Setup;
use w4_font::Font;
use w4_record::Recording;
use wasm_register::Cart;

/// What a run reads and doesn't change: the setup, and the disk that it begins with.
#[derive(Clone, Copy)]
pub struct Scene<'a> {
    pub setup: Setup<'a>,
    pub disk: &'a [u8],
    ghost short: { length disk.now ≤ 1024 },
}

impl<'a> Scene<'a> {
    ghost use Rattle.std.specs.Prelude.{◌≡◌};
    ghost use Rattle.w4_defs.specs.RecordingOutputs.{side_of};
    ghost use Rattle.w4_commands.specs.Scene.{scene_side};

    /// The scene of a run of a recording.
    pub fn of_recording(cart: &'a Cart, font: &'a Font, recording: &'a Recording) -> Scene<'a>
        ensures { scene_side result recording.now.frames
            ≡ side_of cart.now (record { recording = recording.now; font = font.now }) }
    {
        let setup = Setup {
            cart,
            font,
            budget: recording.budget,
        };
        Scene {
            setup,
            disk: recording.disk.as_slice(),
        }
    }
}
