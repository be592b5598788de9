//! Horizontal and vertical lines and rectangles, by the boxes of the screen that they cover.

ghost use Rattle.std.specs.Prelude.{◌<◌, ◌<ℤ◌, ◌≡◌, Some};
ghost use Rattle.w4_defs.specs.Framebuffer.{paint};
ghost use Rattle.w4_defs.specs.Shapes.{box_painter, column_painter, hline_painter, outline_painter, rect_painter, vline_painter};

use w4_defs::PageBytes;
use w4_pixels::{PaletteIndex, column, entry_of, part_between};

/// Paints `len` pixels in colour 1 from (x, y) to the right; none where `len` is below 1.
pub fn hline(page: &mut PageBytes, colors: u16, x: i32, y: i32, len: i32)
    ensures { page.new ≡ paint page.old (hline_painter colors x y len) }
{
    let (x, y) = (i64::from(x), i64::from(y));
    fill(page, x, x + i64::from(len), y, y + 1, entry_of(colors, 1));
}

/// Paints `len` pixels in colour 1 from (x, y) down; none where `len` is below 1.
pub fn vline(page: &mut PageBytes, colors: u16, x: i32, y: i32, len: i32)
    ensures { page.new ≡ paint page.old (vline_painter colors x y len) }
{
    let (x, y) = (i64::from(x), i64::from(y));
    fill_column(page, x, y, y + i64::from(len), entry_of(colors, 1));
}

/// Fills `w` by `h` pixels from (x, y) on in colour 1, then paints their first and last columns and rows
/// in colour 2; nothing where a side is below 1.
pub fn rect(page: &mut PageBytes, colors: u16, x: i32, y: i32, w: i32, h: i32)
    ensures { page.new ≡ paint page.old (rect_painter colors x y w h) }
{
    if 0 < w && 0 < h {
        let (left, top) = (i64::from(x), i64::from(y));
        let (right, bottom) = (left + i64::from(w), top + i64::from(h));
        fill(page, left, right, top, bottom, entry_of(colors, 1));
        outline(page, left, right, top, bottom, entry_of(colors, 2));
    }
}

/// Paints the columns from `left` up to `right` of the rows from `top` up to `bottom`.
fn fill(
    page: &mut PageBytes,
    left: i64,
    right: i64,
    top: i64,
    bottom: i64,
    index: Option<PaletteIndex>,
)
    ensures { page.new ≡ paint page.old (box_painter left right top bottom index) }
{
    if let Some(index) = index {
        let (columns, rows) = (part_between(left, right), part_between(top, bottom));
        w4_pixels::fill(page, columns, rows, index);
    }
}

/// Paints the rows from `top` up to `bottom` of column `x`.
fn fill_column(page: &mut PageBytes, x: i64, top: i64, bottom: i64, index: Option<PaletteIndex>)
    ensures { page.new ≡ paint page.old (column_painter x top bottom index) }
{
    if let Some(index) = index {
        put_column(page, x, top, bottom, index);
    }
}

fn put_column(page: &mut PageBytes, x: i64, top: i64, bottom: i64, index: PaletteIndex)
    ensures { page.new ≡ paint page.old (column_painter x top bottom (Some index)) }
{
    if 0 <= x && x < 160 {
        column(page, x as usize, part_between(top, bottom), index);
    }
}

/// Paints the first and last columns and rows of a box of cells.
fn outline(
    page: &mut PageBytes,
    left: i64,
    right: i64,
    top: i64,
    bottom: i64,
    index: Option<PaletteIndex>,
)
    requires wide { left <ℤ right }
    requires high { top <ℤ bottom }
    ensures { page.new ≡ paint page.old (outline_painter left right top bottom index) }
{
    if let Some(index) = index {
        fill(page, left, right, top, top + 1, Some(index));
        fill(page, left, right, bottom - 1, bottom, Some(index));
        fill(page, left, left + 1, top, bottom, Some(index));
        fill(page, right - 1, right, top, bottom, Some(index));
    }
}
