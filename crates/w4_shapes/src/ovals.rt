//! Ovals, row by row of the screen. Of a row the cells within are one interval, which is found from that of
//! the row before; its edge cells are its ends and those that the rows beside it don't cover.
//!
//! Columns and rows are counted from one left of the screen and one above it where the neighbours of the
//! screen's cells are spoken of too.

ghost use Rattle.std.specs.Option.{option_or};
ghost use Rattle.std.specs.Prelude.{◌&&◌, ◌*◌, ◌+◌, ◌+ℤ◌, ◌<◌, ◌≡◌, ◌≤◌, ◌≤ℤ◌, ℕ, false, max, min, nat_le, nat_lt, negsuc, pos};
ghost use Rattle.w4_defs.specs.Colours.{palette_index};
ghost use Rattle.w4_defs.specs.Framebuffer.{paint};
ghost use Rattle.w4_defs.specs.Shapes.{aside, only_if, oval_painter};
ghost use Rattle.w4_pixels.specs.Clipping.{clipped};
ghost use Rattle.w4_shapes.specs.OvalCells.{Around, Halves, Spans, extent_painter, has, is_inner, painter_of, reaches, within_at};

use crate::oval_cells::{Cells, Columns, Extent};
use w4_defs::PageBytes;
use w4_pixels::{PaletteIndex, ScreenPart, entry_of, screen_part, span};

/// Row `v` of the screen, which has cells, and the cells within of it and of those above and below it.
#[derive(Clone, Copy)]
struct ThreeRows {
    columns: Columns,
    v: usize,
    above: Extent,
    here: Extent,
    below: Extent,
    ghost row: { v < 160 },
    ghost first_cell: { columns.cells.y ≤ℤ pos v },
    ghost last_cell: { pos (v + 1) ≤ℤ (columns.cells.y +ℤ pos columns.cells.h) },
    ghost spans_above: { Spans columns v above },
    ghost spans_here: { Spans columns (v + 1) here },
    ghost spans_below: { Spans columns (v + 2) below },
}

/// Fills the oval of `w` by `h` cells from (x, y) on in colour 1, then paints its edge cells in colour 2;
/// nothing where a side is below 1.
pub fn oval(page: &mut PageBytes, colors: u16, x: i32, y: i32, w: i32, h: i32)
    ensures { page.new ≡ paint page.old (oval_painter colors x y w h) }
{
    if 0 < w && 0 < h {
        let (w, h) = (w as u32, h as u32);
        let cells = Cells { colors, x, y, w, h };
        oval_rows(page, cells);
    }
}

fn oval_rows(page: &mut PageBytes, cells: Cells)
    ensures { page.new ≡ paint page.old (painter_of cells) }
{
    let columns = screen_part(cells.x, cells.w);
    let rows = screen_part(cells.y, cells.h);
    if columns.first < columns.end && rows.first < rows.end {
        let columns = Columns {
            cells,
            left: columns.first,
            right: columns.end,
            middle: middle(cells, columns),
        };
        put_rows(page, columns, rows);
    }
}

/// Where the oval's right half begins, among the columns and those beside them.
fn middle(cells: Cells, columns: ScreenPart) -> usize
    requires { columns.first < columns.end }
    ensures low { columns.first ≤ result }
    ensures high { result ≤ columns.end + 2 }
    ensures halves { Halves cells columns.first columns.end result }
{
    let middle = i64::from(cells.x) + i64::from(cells.w / 2) + 1;
    middle.clamp(columns.first as i64, columns.end as i64 + 2) as usize
}

/// Paints some of the screen's rows, which all have cells.
fn put_rows(page: &mut PageBytes, columns: Columns, rows: ScreenPart)
    requires some { rows.first < rows.end }
    requires first_cell { columns.cells.y ≤ℤ pos rows.first }
    requires last_cell { pos rows.end ≤ℤ (columns.cells.y +ℤ pos columns.cells.h) }
    ensures { page.new ≡ paint page.old (clipped (painter_of columns.cells) columns.left columns.right
        rows.first rows.end) }
{
    let none = Extent {
        first: columns.middle,
        end: columns.middle,
    };
    let mut above = row_extent(columns, rows.first, none);
    let mut here = row_extent(columns, rows.first + 1, above);
    for v in rows.first..rows.end {
        let below = row_extent(columns, v + 2, here);
        let three = ThreeRows {
            columns,
            v,
            above,
            here,
            below,
        };
        put_row(page, three);
        above = here;
        here = below;
    }
}

/// Paints a row of the screen, by the cells within in its own row and in those above and below it.
fn put_row(page: &mut PageBytes, rows: ThreeRows)
    ensures { let columns = rows.columns in page.new
        ≡ paint page.old (clipped (painter_of columns.cells) columns.left columns.right rows.v (rows.v + 1)) }
{
    let colors = rows.columns.cells.colors;
    let whole = on_screen(rows.columns, rows.here);
    let inner = inner_part(whole, rows);
    let (edge, inside) = (index_of(colors, true), index_of(colors, false));
    let left = Extent {
        first: whole.first,
        end: inner.first,
    };
    let right = Extent {
        first: inner.end,
        end: whole.end,
    };
    put_span(page, left, rows.v, &edge);
    put_span(page, inner, rows.v, &inside);
    put_span(page, right, rows.v, &edge);
}

/// Those of the columns that are on the screen.
fn on_screen(columns: Columns, here: Extent) -> Extent
    ensures first { result.first ≡ max here.first (columns.left + 1) }
    ensures end { result.end ≡ min here.end (columns.right + 1) }
{
    Extent {
        first: here.first.max(columns.left + 1),
        end: here.end.min(columns.right + 1),
    }
}

/// Those of the columns of `whole` whose four neighbours are within.
fn inner_part(whole: Extent, rows: ThreeRows) -> Extent
    ensures low { min whole.first whole.end ≤ result.first }
    ensures order { result.first ≤ result.end }
    ensures high { result.end ≤ whole.end }
    ensures same { (u : ℕ) → whole.first ≤ u + 1 → u + 1 < whole.end
        → has result (u + 1) ≡ is_inner rows.above rows.here rows.below u }
{
    let first = (rows.here.first + 1)
        .max(rows.above.first)
        .max(rows.below.first);
    let end = rows
        .here
        .end
        .saturating_sub(1)
        .min(rows.above.end)
        .min(rows.below.end);
    let first = first.max(whole.first).min(whole.end);
    Extent {
        first,
        end: end.min(whole.end).max(first),
    }
}

/// What a cell within is given: at the edge colour 2, unless that is transparent.
fn index_of(colors: u16, edge: bool) -> Option<PaletteIndex>
    ensures { result ≡ option_or (only_if edge (palette_index colors 2)) (palette_index colors 1) }
{
    if edge {
        if let Some(index) = entry_of(colors, 2) {
            return Some(index);
        }
    }
    entry_of(colors, 1)
}

/// Paints an extent of row `v` of the screen.
fn put_span(page: &mut PageBytes, extent: Extent, v: usize, index: &Option<PaletteIndex>)
    requires { v < 160 }
    ensures { page.new ≡ paint page.old (extent_painter extent.first extent.end v index.now) }
{
    if let Some(index) = index {
        let (first, end) = (extent.first as i64 - 1, extent.end as i64 - 1);
        span(page, first, end, v as i64, *index);
    }
}

/// The cells within of row `t`, found from those of a row beside it, or from any others.
fn row_extent(columns: Columns, t: usize, near: Extent) -> Extent
    requires row { t ≤ 161 }
    requires above { columns.cells.y ≤ℤ pos t }
    requires below { pos t ≤ℤ ((columns.cells.y +ℤ pos columns.cells.h) +ℤ pos 1) }
    requires near { Around columns near }
    ensures around { Around columns result }
    ensures spans { Spans columns t result }
{
    let limit = row_limit(columns.cells, t);
    let first = first_outward(columns, limit, near.first);
    let end = end_outward(columns, limit, near.end);
    Extent {
        first: first_inward(columns, limit, first),
        end: end_inward(columns, limit, end),
    }
}

/// The column from which, at most `from`, no cell to the left is within: outward as long as cells are.
fn first_outward(columns: Columns, limit: u64, from: usize) -> usize
    requires low { columns.left ≤ from }
    requires high { from ≤ columns.middle }
    ensures low { columns.left ≤ result }
    ensures high { result ≤ columns.middle }
    ensures outside { (s : ℕ) → columns.left ≤ s → s < result → reaches columns.cells limit s ≡ false }
{
    for step in 0..from - columns.left {
        if !within(columns.cells, from - step - 1, limit) {
            return from - step;
        }
    }
    columns.left
}

/// The first cell of the left half that is within, where those before `from` aren't; otherwise the middle.
fn first_inward(columns: Columns, limit: u64, from: usize) -> usize
    requires low { columns.left ≤ from }
    requires high { from ≤ columns.middle }
    requires outside { (s : ℕ) → columns.left ≤ s → s < from → reaches columns.cells limit s ≡ false }
    ensures low { columns.left ≤ result }
    ensures high { result ≤ columns.middle }
    ensures same { (s : ℕ) → columns.left ≤ s → s < columns.middle → reaches columns.cells limit s
        ≡ nat_le result s }
{
    for s in from..columns.middle {
        if within(columns.cells, s, limit) {
            return s;
        }
    }
    columns.middle
}

/// The column, at least `from`, from which no cell is within: outward as long as cells are.
fn end_outward(columns: Columns, limit: u64, from: usize) -> usize
    requires low { columns.middle ≤ from }
    requires high { from ≤ columns.right + 2 }
    ensures low { columns.middle ≤ result }
    ensures high { result ≤ columns.right + 2 }
    ensures outside { (s : ℕ) → result ≤ s → s < columns.right + 2 → reaches columns.cells limit s ≡ false }
{
    for s in from..columns.right + 2 {
        if !within(columns.cells, s, limit) {
            return s;
        }
    }
    columns.right + 2
}

/// The end of the cells of the right half that are within, where those from `from` on aren't; the middle
/// where none is.
fn end_inward(columns: Columns, limit: u64, from: usize) -> usize
    requires low { columns.middle ≤ from }
    requires high { from ≤ columns.right + 2 }
    requires outside { (s : ℕ) → from ≤ s → s < columns.right + 2 → reaches columns.cells limit s ≡ false }
    ensures low { columns.middle ≤ result }
    ensures high { result ≤ columns.right + 2 }
    ensures same { (s : ℕ) → columns.middle ≤ s → s < columns.right + 2 → reaches columns.cells limit s
        ≡ nat_lt s result }
{
    for step in 0..from - columns.middle {
        if within(columns.cells, from - step - 1, limit) {
            return from - step;
        }
    }
    columns.middle
}

/// Whether the cell at column `s`, counted from one left of the screen, is within, by its row's limit. It
/// isn't inlined, since LLVM would then look at sixteen cells at a time, and most searches end at the first
/// or second.
#[inline(never)]
fn within(cells: Cells, s: usize, limit: u64) -> bool
    requires column { s ≤ 161 }
    requires left { cells.x ≤ℤ pos s }
    requires right { pos s ≤ℤ ((cells.x +ℤ pos cells.w) +ℤ pos 1) }
    ensures { result ≡ reaches cells limit s }
{
    let far = aside(s as i64 - 1 - i64::from(cells.x), cells.w);
    far * far < limit
}

/// What the square of a cell's distance from the middle column, in half cells, is below where the cell of row
/// `t`, counted from one above the screen, is within: (2i+1-w)^2 <= w^2 (h^2 - (2j+1-h)^2) / h^2.
fn row_limit(cells: Cells, t: usize) -> u64
    requires row { t ≤ 161 }
    requires above { cells.y ≤ℤ pos t }
    requires below { pos t ≤ℤ ((cells.y +ℤ pos cells.h) +ℤ pos 1) }
    ensures { (s : ℕ) → within_at cells s t ≡ reaches cells result s }
{
    let far = aside(t as i64 - 1 - i64::from(cells.y), cells.h);
    limit_at(cells, far)
}

/// One more than w^2 (h^2 - far^2) / h^2; 0 where that is below 0.
fn limit_at(cells: Cells, far: u64) -> u64
    requires { far ≤ 2147483648 }
    ensures { let w = cells.w in let h = cells.h in (n : ℕ) → nat_lt n result
        ≡ nat_le (n * (h * h) + (far * far) * (w * w)) ((w * w) * (h * h)) }
{
    let (w, h) = (u64::from(cells.w), u64::from(cells.h));
    if far <= h {
        let rest = h * h - far * far;
        (u128::from(w * w) * u128::from(rest) / u128::from(h * h)) as u64 + 1
    } else {
        0
    }
}

/// How far the middle of cell `i` stands from the middle of `w` cells, in half cells.
fn aside(i: i64, w: u32) -> u64
    requires low { negsuc 0 ≤ℤ i }
    requires high { i ≤ℤ pos w }
    requires small { w < 2147483648 }
    ensures value { result ≡ aside i w }
    ensures bound { result ≤ 2147483648 }
{
    (2 * i + 1 - i64::from(w)).unsigned_abs()
}
