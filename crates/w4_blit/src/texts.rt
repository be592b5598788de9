//! Text, code by code.

ghost use Rattle.std.specs.Prelude.{◌+ℤ◌, ◌==◌, ◌≡◌, ◌≤◌, ◌≤ℤ◌, if◌then◌else◌, length, pos};
ghost use Rattle.w4_blit.specs.FramebufferCopy.{source_start, with_kept};
ghost use Rattle.w4_defs.specs.Framebuffer.{paint};
ghost use Rattle.w4_defs.specs.Text.{text_codes, text_painter};

use crate::codes::{code_at, code_count, part_kept, start_of};
use crate::glyphs::{Glyph, put_glyph};
use crate::inks::inks_of;
use crate::kept::{Kept, Source, few_bytes, many_bytes};
use crate::source::{FRAMEBUFFER, FRAMEBUFFER_END};
use w4_defs::{PageBytes, TextSource};
use w4_font::Font;

/// From this row on nothing is on the screen, and no code goes back up.
const SCREEN_END: i64 = 160;

/// Where the next code's cells begin.
#[derive(Clone, Copy)]
struct Pen {
    x: i64,
    y: i64,
}

/// A text of `count` codes, its colours, and where the first code's cells begin.
#[derive(Clone, Copy)]
struct PlacedText {
    colors: u16,
    source: TextSource,
    count: usize,
    x: i64,
    y: i64,
    ghost few: { count ≤ 65536 },
    ghost column: { x ≤ℤ pos 2147483648 },
    ghost row: { y ≤ℤ pos 2147483648 },
}

/// Paints a text from (x, y) on. Code 10 goes to column `x`, 8 further down; every other code moves 8 to the
/// right, and those from 32 to 255 paint 8 by 8 cells, a bit 0 of the font in colour 1, a bit 1 in colour 2.
pub fn text(page: &mut PageBytes, font: &Font, colors: u16, source: TextSource, x: i32, y: i32)
    ensures { page.new ≡ paint page.old (text_painter font.now colors (text_codes page.old source) x y) }
{
    let placed = PlacedText {
        colors,
        source,
        count: code_count(page, source),
        x: i64::from(x),
        y: i64::from(y),
    };
    if FRAMEBUFFER_END <= start_of(source) {
        text_outside(page, font, placed);
    } else {
        text_inside(page, font, placed);
    }
}

/// Paints a text that lies behind the framebuffer. Nothing of it is kept.
fn text_outside(page: &mut PageBytes, font: &Font, placed: PlacedText)
    requires behind { 6560 ≤ source_start placed.source }
    requires count { placed.count ≡ length (text_codes page.old placed.source) }
    ensures { page.new ≡ paint page.old
        (text_painter font.now placed.colors (text_codes page.old placed.source) placed.x placed.y) }
{
    let kept = Kept {
        first: FRAMEBUFFER,
        bytes: &[],
    };
    put_codes(page, kept, font, placed);
}

/// Paints a text that may lie in the framebuffer. What it reads of that is kept aside.
fn text_inside(page: &mut PageBytes, font: &Font, placed: PlacedText)
    requires { placed.count ≡ length (text_codes page.old placed.source) }
    ensures { page.new ≡ paint page.old
        (text_painter font.now placed.colors (text_codes page.old placed.source) placed.x placed.y) }
{
    let (first, len) = part_kept(placed.source, placed.count);
    if len <= 256 {
        let copy = few_bytes(page, first, len);
        let bytes = &copy[..len];
        put_codes(page, Kept { first, bytes }, font, placed);
    } else {
        let copy = many_bytes(page, first, len);
        let bytes = &copy[..len];
        put_codes(page, Kept { first, bytes }, font, placed);
    }
}

/// Paints the codes of a text.
fn put_codes(page: &mut PageBytes, kept: Kept, font: &Font, placed: PlacedText)
    requires { placed.count ≡ length (text_codes (with_kept page.old kept) placed.source) }
    ensures { page.new ≡ paint page.old (text_painter font.now placed.colors
        (text_codes (with_kept page.old kept.entry) placed.source) placed.x placed.y) }
{
    let inks = inks_of(placed.colors);
    let mut pen = Pen {
        x: placed.x,
        y: placed.y,
    };
    for k in 0..placed.count {
        if SCREEN_END <= pen.y {
            return;
        }
        let code = code_at(Source { page, kept }, placed.source, k);
        let glyph = Glyph {
            code,
            x: pen.x,
            y: pen.y,
        };
        put_glyph(page, font, &inks, glyph);
        pen = moved(pen, code, placed.x);
    }
}

/// Where the pen stands after a code, where lines begin at column `left`.
fn moved(pen: Pen, code: u16, left: i64) -> Pen
    requires column { pen.x ≤ℤ pos 4294967296 }
    requires row { pen.y ≤ℤ pos 4294967296 }
    ensures column { result.x ≡ (if code == 10 then left else pen.x +ℤ pos 8) }
    ensures row { result.y ≡ (if code == 10 then pen.y +ℤ pos 8 else pen.y) }
{
    if code == 10 {
        Pen {
            x: left,
            y: pen.y + 8,
        }
    } else {
        Pen {
            x: pen.x + 8,
            y: pen.y,
        }
    }
}
