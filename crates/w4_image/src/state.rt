//! The image of a console's state, and its screen, from which the same image can be made later.

ghost use Rattle.std.specs.Prelude.{◌≡◌};
ghost use Rattle.w4_defs.specs.Image.{image};

use crate::ppm::{IMAGE_LEN, Screen, image_into, page_screen};
use w4_map::State;

/// Writes the image of the state's page. Nothing else of the state is shown.
pub fn ppm_into(state: &State, out: &mut [u8; IMAGE_LEN])
    ensures { out.new ≡ image state.now.page }
{
    image_into(state.page.bytes(), out);
}

/// The screen of the state's page: `screen_into` makes the state's image of it.
pub fn screen_of(state: &State) -> Screen
    ensures { image result ≡ image state.now.page }
{
    page_screen(state.page.bytes())
}
