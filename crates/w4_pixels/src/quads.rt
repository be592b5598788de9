//! Four pixels at a time: those that share a byte of the framebuffer.

ghost use Rattle.std.specs.Prelude.{◌/◌, ◌%◌, ◌<◌, ◌≡◌, ◌^◌, ℕ, unwrap_or};
ghost use Rattle.w4_defs.specs.Framebuffer.{paint};
ghost use Rattle.w4_pixels.specs.Packed.{one_of_four, quad_painter};

use crate::colour::PaletteIndex;
use crate::screen::RowByte;
use w4_defs::PageBytes;

/// The palette indices that the four pixels of a byte are given, from its lowest bits on; None leaves a pixel
/// as it is.
#[derive(Clone, Copy)]
pub struct Quad {
    pub first: Option<PaletteIndex>,
    pub second: Option<PaletteIndex>,
    pub third: Option<PaletteIndex>,
    pub fourth: Option<PaletteIndex>,
}

/// Paints those of the four pixels in a row's byte that are given a palette index.
pub fn put_quad(page: &mut PageBytes, byte: RowByte, quad: Quad)
    ensures { page.new ≡ paint page.old (quad_painter byte.q byte.row quad.first quad.second quad.third
        quad.fourth) }
{
    let at = byte.address();
    page[at] = joined(page[at], quad);
}

/// The byte with these palette indices as its digits, where there are some.
fn joined(byte: u8, quad: Quad) -> u8
    ensures { (k : ℕ) → k < 4
        → result / 4 ^ k % 4
        ≡ unwrap_or (one_of_four k quad.first quad.second quad.third quad.fourth) (byte / 4 ^ k % 4) % 4 }
{
    let first = either(quad.first, byte % 4);
    let second = either(quad.second, byte / 4 % 4);
    let third = either(quad.third, byte / 16 % 4);
    let fourth = either(quad.fourth, byte / 64);
    first + 4 * second + 16 * third + 64 * fourth
}

fn either(index: Option<PaletteIndex>, digit: u8) -> u8
    requires { digit < 4 }
    ensures value { result ≡ unwrap_or index digit % 4 }
    ensures bound { result < 4 }
{
    match index {
        Some(index) => index.number(),
        None => digit,
    }
}
