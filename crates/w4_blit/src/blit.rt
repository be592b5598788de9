//! Blits, by the cells that land on the screen.

ghost use Rattle.std.specs.Prelude.{◌*◌, ◌+◌, ◌-ℤ◌, ◌<◌, ◌≡◌, ◌≤◌, ◌≤ℤ◌, max, min, pos};
ghost use Rattle.w4_blit.specs.FramebufferCopy.{page_of, with_kept};
ghost use Rattle.w4_blit.specs.Unclipped.{cells_painter};
ghost use Rattle.w4_blit.specs.Walks.{walk_painter};
ghost use Rattle.w4_defs.specs.Blit.{blit_painter};
ghost use Rattle.w4_defs.specs.Framebuffer.{paint};
ghost use Rattle.w4_defs.specs.Shapes.{natural};
ghost use Rattle.w4_pixels.specs.Clipping.{clipped};
ghost use Rattle.w4_pixels.specs.Packed.{byte_painter};

use crate::cells::{distance, height_on_screen, index_at, width_on_screen};
use crate::inks::{Inks, inks_of};
use crate::kept::{Kept, Source, few_bytes, many_bytes};
use crate::reach::framebuffer_read;
use crate::source::{FRAMEBUFFER, FRAMEBUFFER_END};
use crate::strips::{painted_by, part_of, put_strip};
use crate::walks::Walk;
use crate::windows::{Stretch, cell_bits};
use w4_defs::{PageBytes, Sprite};
use w4_pixels::{PaletteIndex, Quad, RowByte, ScreenPart, put_quad, screen_part};

/// Paints `w` by `h` cells of the sprite at `ptr`, from (`src_x`, `src_y`) of it on, with the first cell's
/// corner at (x, y); nothing where a side is below 1. The sprite's rows are `stride` pixels apart. Flags: 1
/// two bits per pixel, 2 flip x, 4 flip y, 8 rotate anticlockwise by 90 degrees; others have no effect.
pub fn blit_sub(
    page: &mut PageBytes,
    colors: u16,
    ptr: u32,
    x: i32,
    y: i32,
    w: i32,
    h: i32,
    src_x: u32,
    src_y: u32,
    stride: u32,
    flags: u32,
)
    ensures { page.new ≡ paint page.old (blit_painter page.old
        (record {
          colors = colors;
          ptr = ptr;
          w = natural w;
          h = natural h;
          src_x = src_x;
          src_y = src_y;
          stride = stride;
          flags = flags;
        }) x y) }
{
    let (w, h) = (side(w), side(h));
    let sprite = Sprite {
        colors,
        ptr,
        w,
        h,
        src_x,
        src_y,
        stride,
        flags,
    };
    if FRAMEBUFFER_END <= ptr {
        blit_outside(page, &sprite, x, y);
    } else {
        blit_inside(page, &sprite, x, y);
    }
}

/// Blits a sprite that lies behind the framebuffer. Nothing of that is kept.
fn blit_outside(page: &mut PageBytes, sprite: &Sprite, x: i32, y: i32)
    requires { 6560 ≤ sprite.now.ptr }
    ensures { page.new ≡ paint page.old (blit_painter page.old sprite.now x y) }
{
    let kept = Kept {
        first: FRAMEBUFFER,
        bytes: &[],
    };
    blit_rows(page, kept, sprite, x, y);
}

/// Blits a sprite that may lie in the framebuffer. What it reads of that is kept aside.
fn blit_inside(page: &mut PageBytes, sprite: &Sprite, x: i32, y: i32)
    ensures { page.new ≡ paint page.old (blit_painter page.old sprite.now x y) }
{
    let (first, len) = framebuffer_read(sprite);
    if len <= 256 {
        let copy = few_bytes(page, first, len);
        let bytes = &copy[..len];
        blit_rows(page, Kept { first, bytes }, sprite, x, y);
    } else {
        let copy = many_bytes(page, first, len);
        let bytes = &copy[..len];
        blit_rows(page, Kept { first, bytes }, sprite, x, y);
    }
}

/// A side of cells: none where the number is negative.
fn side(count: i32) -> u32
    ensures { result ≡ natural count }
{
    count.max(0) as u32
}

fn blit_rows(page: &mut PageBytes, kept: Kept, sprite: &Sprite, x: i32, y: i32)
    ensures { page.new ≡ paint page.old (blit_painter (with_kept page.old kept.entry) sprite.now x y) }
{
    let inks = inks_of(sprite.colors);
    let drawn = KeptSprite { kept, sprite, inks };
    let columns = screen_part(x, width_on_screen(sprite));
    let rows = screen_part(y, height_on_screen(sprite));
    for v in rows.first..rows.end {
        let part = Part { x, y, columns, v };
        blit_row(page, &drawn, part);
    }
}

/// A sprite, what is kept of the framebuffer while it is painted, and what its pixel values paint.
#[derive(Clone, Copy)]
struct KeptSprite<'a> {
    kept: Kept<'a>,
    sprite: &'a Sprite,
    inks: Inks,
    ghost colors: { inks.colors ≡ sprite.now.colors },
}

/// Some columns of row `v` of the screen, and where the first cell's corner is.
#[derive(Clone, Copy)]
struct Part {
    x: i32,
    y: i32,
    columns: ScreenPart,
    v: usize,
    ghost row: { v < 160 },
}

/// The cells that land in a part of a row.
fn blit_row(page: &mut PageBytes, drawn: &KeptSprite, part: Part)
    ensures { page.new ≡ paint page.old (clipped
        (cells_painter (with_kept page.old drawn.now.kept) drawn.now.sprite.now part.x part.y)
        part.columns.first part.columns.end part.v (part.v + 1)) }
{
    let row = Row {
        walk: Walk::of_row(drawn.sprite, distance(part.v, part.y)),
        x: part.x,
        columns: part.columns,
        v: part.v,
    };
    put_row(page, drawn, row);
}

/// A part of a row of the screen, with the pixels that its cells read.
#[derive(Clone, Copy)]
struct Row {
    walk: Walk,
    x: i32,
    columns: ScreenPart,
    v: usize,
    ghost row: { v < 160 },
}

/// Where the cells read pixels that follow one another, sixteen are painted together.
fn put_row(page: &mut PageBytes, drawn: &KeptSprite, row: Row)
    ensures { page.new ≡ paint page.old (clipped
        (walk_painter (with_kept page.old drawn.now.kept) drawn.now.sprite.now row.walk row.x)
        row.columns.first row.columns.end row.v (row.v + 1)) }
{
    let (left, right) = (row.columns.first, row.columns.end);
    if left < right
        && row.walk.pace == 1
        && i64::from(row.x) <= left as i64
        && right as i64 - i64::from(row.x) <= i64::from(row.walk.count)
    {
        put_strips(page, drawn, Run { row });
    } else {
        put_bytes(page, drawn, row);
    }
}

/// A part of a row, of which there is some, whose columns all have cells, which read pixels that follow one
/// another.
#[derive(Clone, Copy)]
struct Run {
    row: Row,
    ghost some: { row.columns.first < row.columns.end },
    ghost pace: { row.walk.pace ≡ 1 },
    ghost from: { row.x ≤ℤ pos row.columns.first },
    ghost to: { (pos row.columns.end -ℤ row.x) ≤ℤ pos row.walk.count },
}

fn put_strips(page: &mut PageBytes, drawn: &KeptSprite, run: Run)
    ensures { page.new ≡ paint page.old (clipped
        (walk_painter (with_kept page.old drawn.now.kept) drawn.now.sprite.now run.row.walk run.row.x)
        run.row.columns.first run.row.columns.end run.row.v (run.row.v + 1)) }
{
    let columns = run.row.columns;
    let first = columns.first / 4;
    for i in 0..(columns.end + 15 - 4 * first) / 16 {
        let here = SixteenColumns {
            run,
            q: first + 4 * i,
        };
        put_sixteen(page, drawn, here);
    }
}

/// Those of a run's columns that are among the sixteen from byte `q` of the row on. There are some.
#[derive(Clone, Copy)]
struct SixteenColumns {
    run: Run,
    q: usize,
    ghost left: { run.row.columns.first < 4 * q + 4 },
    ghost right: { 4 * q < run.row.columns.end },
}

/// The cells that land in them.
fn put_sixteen(page: &mut PageBytes, drawn: &KeptSprite, here: SixteenColumns)
    ensures { let row = here.run.row in page.new
        ≡ paint page.old (clipped (walk_painter (with_kept page.old drawn.now.kept) drawn.now.sprite.now
        row.walk row.x) (max row.columns.first (4 * here.q)) (min row.columns.end (4 * here.q + 16)) row.v
        (row.v + 1)) }
{
    let row = here.run.row;
    let left = row.columns.first.max(4 * here.q);
    let right = row.columns.end.min(4 * here.q + 16);
    let base = here.q.min(36);
    let low = (left - 4 * base) as u32;
    let high = (right - 4 * base) as u32;
    let stretch = Stretch {
        walk: row.walk,
        n: distance(left, row.x),
    };
    let kept = drawn.kept;
    let bits = cell_bits(Source { page, kept }, drawn.sprite, stretch, low);
    let strip = part_of(painted_by(drawn.sprite, &drawn.inks, bits), low, high);
    put_strip(page, base, row.v, strip);
}

fn put_bytes(page: &mut PageBytes, drawn: &KeptSprite, row: Row)
    ensures { page.new ≡ paint page.old (clipped
        (walk_painter (with_kept page.old drawn.now.kept) drawn.now.sprite.now row.walk row.x)
        row.columns.first row.columns.end row.v (row.v + 1)) }
{
    let (left, right) = (row.columns.first, row.columns.end);
    if left < right {
        for q in left / 4..(right + 3) / 4 {
            put_byte(page, drawn, row, q);
        }
    }
}

/// Those of the cells that land in byte `q` of the row, each by itself.
fn put_byte(page: &mut PageBytes, drawn: &KeptSprite, row: Row, q: usize)
    requires { q < 40 }
    ensures { page.new ≡ paint page.old (byte_painter
        (clipped (walk_painter (with_kept page.old drawn.now.kept) drawn.now.sprite.now row.walk row.x)
        row.columns.first row.columns.end row.v (row.v + 1)) q row.v) }
{
    let kept = drawn.kept;
    let source = Source { page, kept };
    let first = index_in(source, drawn.sprite, row, 4 * q);
    let second = index_in(source, drawn.sprite, row, 4 * q + 1);
    let third = index_in(source, drawn.sprite, row, 4 * q + 2);
    let fourth = index_in(source, drawn.sprite, row, 4 * q + 3);
    let quad = Quad {
        first,
        second,
        third,
        fourth,
    };
    put_quad(page, RowByte { q, row: row.v }, quad);
}

/// What is painted at column `u`: nothing if it isn't in the row's part.
fn index_in(source: Source, sprite: &Sprite, row: Row, u: usize) -> Option<PaletteIndex>
    requires { u < 160 }
    ensures { result ≡ clipped (walk_painter (page_of source.entry) sprite.now row.walk row.x)
        row.columns.first row.columns.end row.v (row.v + 1) u row.v }
{
    if row.columns.first <= u && u < row.columns.end {
        let pixel = row.walk.pixel(distance(u, row.x));
        index_at(source, sprite, pixel)
    } else {
        None
    }
}
