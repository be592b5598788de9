//! What a blit reads for one cell.

ghost use Rattle.std.specs.Prelude.{◌+◌, ◌-◌, ◌-ℤ◌, ◌*◌, ◌/◌, ◌%◌, ◌<◌, ◌==◌, ◌≡◌, pos};
ghost use Rattle.w4_blit.specs.FramebufferCopy.{page_of};
ghost use Rattle.w4_blit.specs.Walks.{pixel_index};
ghost use Rattle.w4_defs.specs.Blit.{has_flag, height_on_screen, source_column, source_row, source_value, width_on_screen};
ghost use Rattle.w4_defs.specs.Shapes.{natural};

use crate::kept::Source;
use crate::source::{byte_at, offset};
use w4_defs::Sprite;
use w4_pixels::{PaletteIndex, entry_of};

pub(crate) const TWO_BITS: u32 = 1;

pub(crate) const FLIP_X: u32 = 2;

pub(crate) const FLIP_Y: u32 = 4;

pub(crate) const ROTATE: u32 = 8;

/// What the sprite's pixel `pixel` paints: pixel value v is painted in colour v + 1.
pub(crate) fn index_at(source: Source, sprite: &Sprite, pixel: u64) -> Option<PaletteIndex>
    ensures { result ≡ pixel_index (page_of source.entry) sprite.now pixel }
{
    entry_of(sprite.colors, source_value(source, sprite, pixel) + 1)
}

/// How far column or row `u` of the screen is past `x`; 0 if it is before.
pub(crate) fn distance(u: usize, x: i32) -> u32
    requires { u < 160 }
    ensures { result ≡ natural (pos u -ℤ x) }
{
    offset(u, i64::from(x)) as u32
}

/// The value of the sprite's pixel `pixel`: two bits or one, the first pixel in a byte's highest bits.
fn source_value(source: Source, sprite: &Sprite, pixel: u64) -> u8
    ensures value { result ≡ source_value (page_of source.entry) sprite.now pixel }
    ensures bound { result < 4 }
{
    let ptr = u64::from(sprite.ptr);
    if has_flag(sprite, TWO_BITS) {
        (byte_at(source, ptr + pixel / 4) >> (6 - 2 * (pixel % 4) as u32)) % 4
    } else {
        (byte_at(source, ptr + pixel / 8) >> (7 - (pixel % 8) as u32)) % 2
    }
}

/// The column of the sprite that the cells of column `i` read.
pub(crate) fn column_of(sprite: &Sprite, i: u32) -> u64
    ensures value { result ≡ source_column sprite.now i }
    ensures bound { result < 8589934592 }
{
    let start = u64::from(sprite.src_x);
    if has_flag(sprite, FLIP_X) == has_flag(sprite, ROTATE) {
        start + u64::from(i)
    } else {
        start + u64::from(mirrored(sprite.w, i))
    }
}

/// The row of the sprite that the cells of row `j` read.
pub(crate) fn row_of(sprite: &Sprite, j: u32) -> u64
    ensures value { result ≡ source_row sprite.now j }
    ensures bound { result < 8589934592 }
{
    let start = u64::from(sprite.src_y);
    if has_flag(sprite, FLIP_Y) {
        start + u64::from(mirrored(sprite.h, j))
    } else {
        start + u64::from(j)
    }
}

/// Cell `i` of `count`, counted from the other end.
pub(crate) fn mirrored(count: u32, i: u32) -> u32
    ensures { result ≡ count - 1 - i }
{
    count.saturating_sub(1).saturating_sub(i)
}

pub(crate) fn has_flag(sprite: &Sprite, weight: u32) -> bool
    requires { 0 < weight }
    ensures { result ≡ has_flag sprite.now weight }
{
    sprite.flags / weight % 2 == 1
}

/// How many columns of the screen a sprite takes.
pub(crate) fn width_on_screen(sprite: &Sprite) -> u32
    ensures { result ≡ width_on_screen sprite.now }
{
    if has_flag(sprite, ROTATE) {
        sprite.h
    } else {
        sprite.w
    }
}

/// How many rows of the screen a sprite takes.
pub(crate) fn height_on_screen(sprite: &Sprite) -> u32
    ensures { result ≡ height_on_screen sprite.now }
{
    if has_flag(sprite, ROTATE) {
        sprite.w
    } else {
        sprite.h
    }
}
