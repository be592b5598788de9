//! Glyphs, by their cells that are on the screen.

ghost use Rattle.std.specs.Prelude.{◌+◌, ◌+ℤ◌, ◌<◌, ◌≡◌, ◌≤◌, ◌≤ℤ◌, pos};
ghost use Rattle.w4_blit.specs.Unclipped.{bits_painter, eight_painter};
ghost use Rattle.w4_defs.specs.Colours.{palette_index};
ghost use Rattle.w4_defs.specs.Framebuffer.{paint};
ghost use Rattle.w4_defs.specs.Shapes.{is_inside, only_if};
ghost use Rattle.w4_defs.specs.Text.{glyph_painter};
ghost use Rattle.w4_pixels.specs.Clipping.{clipped};

use crate::inks::Inks;
use crate::source::offset;
use crate::spread::placed;
use crate::strips::{either, part_of, put_strip};
use w4_defs::PageBytes;
use w4_font::Font;
use w4_pixels::{ScreenPart, part_between};

/// The codes that have a glyph: the first, and the end, which is left out.
const FIRST_CODE: u16 = 32;

const CODES_END: u16 = 256;

/// A code, and where its cells begin.
#[derive(Clone, Copy)]
pub(crate) struct Glyph {
    pub code: u16,
    pub x: i64,
    pub y: i64,
    pub ghost column: { x ≤ℤ pos 4294967296 },
    pub ghost row: { y ≤ℤ pos 4294967296 },
}

/// The part of a glyph that is on the screen: the columns, of which there are some, and the rows.
#[derive(Clone, Copy)]
struct GlyphPart {
    glyph: Glyph,
    columns: ScreenPart,
    rows: ScreenPart,
    ghost some: { columns.first < columns.end },
    ghost from: { glyph.x ≤ℤ pos columns.first },
    ghost to: { pos columns.end ≤ℤ (glyph.x +ℤ pos 8) },
}

/// Paints the 8 by 8 cells of a code from 32 to 255; nothing for any other.
pub(crate) fn put_glyph(page: &mut PageBytes, font: &Font, inks: &Inks, glyph: Glyph)
    ensures { page.new ≡ paint page.old (glyph_painter font.now inks.now.colors glyph.code glyph.x glyph.y) }
{
    if FIRST_CODE <= glyph.code && glyph.code < CODES_END {
        glyph_rows(page, font, inks, glyph);
    }
}

fn glyph_rows(page: &mut PageBytes, font: &Font, inks: &Inks, glyph: Glyph)
    ensures { page.new ≡ paint page.old (λ u v. only_if
        (is_inside glyph.x (glyph.x +ℤ pos 8) glyph.y (glyph.y +ℤ pos 8) u v)
        (bits_painter font.now inks.now.colors glyph.code glyph.x glyph.y u v)) }
{
    let columns = part_between(glyph.x, glyph.x + 8);
    let rows = part_between(glyph.y, glyph.y + 8);
    if columns.first < columns.end {
        let part = GlyphPart {
            glyph,
            columns,
            rows,
        };
        rows_on_screen(page, font, inks, part);
    }
}

/// The cells that are on the screen.
fn rows_on_screen(page: &mut PageBytes, font: &Font, inks: &Inks, part: GlyphPart)
    ensures { page.new ≡ paint page.old (clipped
        (bits_painter font.now inks.now.colors part.glyph.code part.glyph.x part.glyph.y) part.columns.first
        part.columns.end part.rows.first part.rows.end) }
{
    for v in part.rows.first..part.rows.end {
        glyph_row(page, font, inks, part, v);
    }
}

/// Those of row `v` of the screen.
fn glyph_row(page: &mut PageBytes, font: &Font, inks: &Inks, part: GlyphPart, v: usize)
    requires { v < 160 }
    ensures { page.new ≡ paint page.old (clipped
        (bits_painter font.now inks.now.colors part.glyph.code part.glyph.x part.glyph.y) part.columns.first
        part.columns.end v (v + 1)) }
{
    let glyph = part.glyph;
    let first = 8 * u64::from(glyph.code.saturating_sub(FIRST_CODE));
    let row = Row {
        bits: font.byte(first + offset(v, glyph.y)),
        x: glyph.x,
        columns: part.columns,
        v,
    };
    put_row(page, inks, row);
}

/// A part of a row of the screen, with the eight bits that its cells read: a bit 0 is painted in colour 1, a
/// bit 1 in colour 2.
#[derive(Clone, Copy)]
struct Row {
    bits: u8,
    x: i64,
    columns: ScreenPart,
    v: usize,
    ghost some: { columns.first < columns.end },
    ghost from: { x ≤ℤ pos columns.first },
    ghost to: { pos columns.end ≤ℤ (x +ℤ pos 8) },
    ghost row: { v < 160 },
}

fn put_row(page: &mut PageBytes, inks: &Inks, row: Row)
    ensures { page.new ≡ paint page.old (clipped
        (eight_painter row.bits (palette_index inks.now.colors 1) (palette_index inks.now.colors 2) row.x)
        row.columns.first row.columns.end row.v (row.v + 1)) }
{
    let (left, right) = (row.columns.first, row.columns.end);
    let q = (left / 4).min(36);
    let low = (left - 4 * q) as u32;
    let high = (right - 4 * q) as u32;
    let bits = placed(row.bits, offset(left, row.x) as u32, low);
    let strip = part_of(either(bits, inks.first, inks.second), low, high);
    put_strip(page, q, row.v, strip);
}
