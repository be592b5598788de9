//! Single pixels.

ghost use Rattle.std.specs.Prelude.{◌+◌, ◌/◌, ◌%◌, ◌<◌, ◌≡◌, Some};
ghost use Rattle.w4_defs.specs.Framebuffer.{paint, pixel};
ghost use Rattle.w4_defs.specs.Shapes.{point_painter};
ghost use Rattle.w4_pixels.specs.Clipping.{clipped};
ghost use Rattle.w4_pixels.specs.Packed.{dot_painter};

use crate::colour::PaletteIndex;
use crate::digits::{digit, with_digit};
use crate::runs::fill;
use crate::screen::ScreenPart;
use w4_defs::PageBytes;

/// The palette index, 0 to 3, of the pixel at column `x` and row `y`.
pub fn pixel(page: &PageBytes, x: u32, y: u32) -> u8
    requires column { x < 160 }
    requires row { y < 160 }
    ensures { result ≡ pixel page.now x y }
{
    let at = 160 + (160 * y + x) / 4;
    digit(page[at as usize], x % 4)
}

/// Paints the pixel at (x, y), where that is on the screen.
pub fn point(page: &mut PageBytes, x: i64, y: i64, index: PaletteIndex)
    ensures { page.new ≡ paint page.old (point_painter x y (Some index)) }
{
    if 0 <= x && x < 160 && 0 <= y && y < 160 {
        put_dot(page, x as usize, y as usize, index);
    }
}

/// Paints the pixel at column `u` and row `v` of the screen.
pub(crate) fn put_dot(page: &mut PageBytes, u: usize, v: usize, index: PaletteIndex)
    requires column { u < 160 }
    requires row { v < 160 }
    ensures { page.new ≡ paint page.old (dot_painter u v (Some index)) }
{
    put_pixel(page, 160 * v + u, index);
}

/// Paints the pixel of number `n`, counted in rows from the top.
pub fn put_pixel(page: &mut PageBytes, n: usize, index: PaletteIndex)
    requires { n < 25600 }
    ensures { page.new ≡ paint page.old (dot_painter (n % 160) (n / 160) (Some index)) }
{
    let at = 160 + n / 4;
    page[at] = with_digit(page[at], (n % 4) as u32, index);
}

/// Paints the pixels of column `u` of the screen in some of its rows.
pub fn column(page: &mut PageBytes, u: usize, rows: ScreenPart, index: PaletteIndex)
    requires { u < 160 }
    ensures { page.new ≡ paint page.old (clipped (λ a b. Some index) u (u + 1) rows.first rows.end) }
{
    let columns = ScreenPart {
        first: u,
        end: u + 1,
    };
    fill(page, columns, rows, index);
}
