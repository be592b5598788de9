//! Runs of pixels, written by whole bytes.

ghost use Rattle.std.specs.Prelude.{◌+◌, ◌-◌, ◌*◌, ◌/◌, ◌%◌, ◌<◌, ◌≡◌, ◌≤◌, Some};
ghost use Rattle.w4_defs.specs.Framebuffer.{paint};
ghost use Rattle.w4_defs.specs.Shapes.{span_painter};
ghost use Rattle.w4_pixels.specs.Clipping.{clipped};
ghost use Rattle.w4_pixels.specs.Packed.{Chooses, IsMask, bytes_painter, masked_painter, zero_painter};

use crate::colour::PaletteIndex;
use crate::digits::{filled, masked, span_mask};
use crate::screen::{RowByte, ScreenPart, part_between};
use w4_defs::PageBytes;

/// Makes all pixels 0.
pub fn clear(page: &mut PageBytes)
    ensures { page.new ≡ paint page.old zero_painter }
{
    page[160..6560].fill(0);
}

/// Paints the pixels of row `y` from column `x0` up to `x1`, which is left out, as far as they are on the
/// screen.
pub fn span(page: &mut PageBytes, x0: i64, x1: i64, y: i64, index: PaletteIndex)
    ensures { page.new ≡ paint page.old (span_painter x0 x1 y (Some index)) }
{
    if 0 <= y && y < 160 {
        let row = y as usize;
        let rows = ScreenPart {
            first: row,
            end: row + 1,
        };
        fill(page, part_between(x0, x1), rows, index);
    }
}

/// Columns that share a byte of a row, from `first` up to `end`, which is left out; and the mask of their
/// pixels in it.
#[derive(Clone, Copy)]
struct NarrowColumns {
    first: usize,
    end: usize,
    mask: u8,
    ghost within: { end ≤ 160 },
    ghost some: { first < end },
    ghost narrow: { first / 4 ≡ (end - 1) / 4 },
    ghost chosen: { Chooses (first % 4) (end - 4 * (first / 4)) mask },
}

/// Columns of which the first and the last are in different bytes of a row, from `first` up to `end`, which
/// is left out; and the masks of their pixels in these two bytes.
#[derive(Clone, Copy)]
struct WideColumns {
    first: usize,
    end: usize,
    left: u8,
    right: u8,
    ghost within: { end ≤ 160 },
    ghost wide: { first / 4 < (end - 1) / 4 },
    ghost left_chosen: { Chooses (first % 4) 4 left },
    ghost right_chosen: { Chooses 0 (end - 4 * ((end - 1) / 4)) right },
}

/// Paints some columns of the screen in some of its rows.
pub fn fill(page: &mut PageBytes, columns: ScreenPart, rows: ScreenPart, index: PaletteIndex)
    ensures { page.new ≡ paint page.old (clipped (λ a b. Some index) columns.first columns.end rows.first
        rows.end) }
{
    let (first, end) = (columns.first, columns.end);
    if first < end {
        let (left, right) = (first / 4, (end - 1) / 4);
        if left == right {
            let mask = span_mask(first % 4, end - 4 * left);
            fill_narrow(page, NarrowColumns { first, end, mask }, rows, index);
        } else {
            let (left, right) = (span_mask(first % 4, 4), span_mask(0, end - 4 * right));
            let wide = WideColumns {
                first,
                end,
                left,
                right,
            };
            fill_wide(page, wide, rows, index);
        }
    }
}

/// Paints rows of a box whose columns share a byte.
fn fill_narrow(page: &mut PageBytes, columns: NarrowColumns, rows: ScreenPart, index: PaletteIndex)
    ensures { page.new ≡ paint page.old (clipped (λ a b. Some index) columns.first columns.end rows.first
        rows.end) }
{
    for row in rows.first..rows.end {
        let byte = RowByte {
            q: columns.first / 4,
            row,
        };
        put_masked(page, byte, columns.mask, index);
    }
}

/// Paints rows of a box whose first and last columns are in different bytes.
fn fill_wide(page: &mut PageBytes, columns: WideColumns, rows: ScreenPart, index: PaletteIndex)
    ensures { page.new ≡ paint page.old (clipped (λ a b. Some index) columns.first columns.end rows.first
        rows.end) }
{
    for row in rows.first..rows.end {
        put_row(page, columns, row, index);
    }
}

/// Paints a row's columns by the masks of their first and last bytes.
fn put_row(page: &mut PageBytes, columns: WideColumns, row: usize, index: PaletteIndex)
    requires { row < 160 }
    ensures { page.new ≡ paint page.old
        (clipped (λ a b. Some index) columns.first columns.end row (row + 1)) }
{
    let (first, last) = (columns.first / 4, (columns.end - 1) / 4);
    put_masked(page, RowByte { q: first, row }, columns.left, index);
    put_whole(page, first + 1, last, row, index);
    put_masked(page, RowByte { q: last, row }, columns.right, index);
}

/// Paints all pixels of a row's bytes from `first` up to `end`.
fn put_whole(page: &mut PageBytes, first: usize, end: usize, row: usize, index: PaletteIndex)
    requires order { first ≤ end }
    requires end { end ≤ 40 }
    requires row { row < 160 }
    ensures { page.new ≡ paint page.old (bytes_painter first end row (Some index)) }
{
    let start = 160 + 40 * row;
    page[start + first..start + end].fill(filled(index));
}

/// Paints those pixels of a row's byte that the mask chooses.
fn put_masked(page: &mut PageBytes, byte: RowByte, mask: u8, index: PaletteIndex)
    requires { IsMask mask }
    ensures { page.new ≡ paint page.old (masked_painter byte.q byte.row mask (Some index)) }
{
    let at = byte.address();
    page[at] = masked(page[at], mask, index);
}
