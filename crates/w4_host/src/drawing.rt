//! The imports that draw, in the colours that DRAW_COLORS has at the call.

ghost use Rattle.std.specs.Prelude.{◌+◌, ◌≡◌, ◌≤◌, length};
ghost use Rattle.w4_defs.specs.Board.{blit_sprite, blit_sub_sprite, signed_argument};
ghost use Rattle.w4_defs.specs.Blit.{blit_painter};
ghost use Rattle.w4_defs.specs.Framebuffer.{paint};
ghost use Rattle.w4_defs.specs.MemoryMap.{draw_colors};
ghost use Rattle.w4_defs.specs.Shapes.{hline_painter, line_painter, oval_painter, rect_painter, vline_painter};
ghost use Rattle.w4_defs.specs.Text.{text_codes, text_painter};

use crate::arguments::{argument, signed};
use w4_blit::blit_sub;
use w4_defs::{PageBytes, TextSource};
use w4_font::Font;
use w4_map::draw_colors;

/// `blit`: the sprite's own width is its stride.
pub(crate) fn blit(args: &[u32], page: &mut PageBytes)
    requires { length args.now ≡ 6 }
    ensures { page.new ≡ paint page.old
        (blit_painter page.old (blit_sprite args.now page.old) (signed_argument args.now 1)
        (signed_argument args.now 2)) }
{
    blit_sub(
        page,
        draw_colors(page),
        argument(args, 0),
        signed(args, 1),
        signed(args, 2),
        signed(args, 3),
        signed(args, 4),
        0,
        0,
        argument(args, 3),
        argument(args, 5),
    );
}

/// `blitSub`: a part of a sprite.
pub(crate) fn blit_part(args: &[u32], page: &mut PageBytes)
    requires { length args.now ≡ 9 }
    ensures { page.new ≡ paint page.old
        (blit_painter page.old (blit_sub_sprite args.now page.old) (signed_argument args.now 1)
        (signed_argument args.now 2)) }
{
    blit_sub(
        page,
        draw_colors(page),
        argument(args, 0),
        signed(args, 1),
        signed(args, 2),
        signed(args, 3),
        signed(args, 4),
        argument(args, 5),
        argument(args, 6),
        argument(args, 7),
        argument(args, 8),
    );
}

/// `line`.
pub(crate) fn line(args: &[u32], page: &mut PageBytes)
    requires { length args.now ≡ 4 }
    ensures { page.new ≡ paint page.old (line_painter (draw_colors page.old)
        (signed_argument args.now 0) (signed_argument args.now 1) (signed_argument args.now 2)
        (signed_argument args.now 3)) }
{
    let colors = draw_colors(page);
    w4_shapes::line(
        page,
        colors,
        signed(args, 0),
        signed(args, 1),
        signed(args, 2),
        signed(args, 3),
    );
}

/// `hline`.
pub(crate) fn hline(args: &[u32], page: &mut PageBytes)
    requires { length args.now ≡ 3 }
    ensures { page.new ≡ paint page.old (hline_painter (draw_colors page.old)
        (signed_argument args.now 0) (signed_argument args.now 1) (signed_argument args.now 2)) }
{
    let colors = draw_colors(page);
    w4_shapes::hline(
        page,
        colors,
        signed(args, 0),
        signed(args, 1),
        signed(args, 2),
    );
}

/// `vline`.
pub(crate) fn vline(args: &[u32], page: &mut PageBytes)
    requires { length args.now ≡ 3 }
    ensures { page.new ≡ paint page.old (vline_painter (draw_colors page.old)
        (signed_argument args.now 0) (signed_argument args.now 1) (signed_argument args.now 2)) }
{
    let colors = draw_colors(page);
    w4_shapes::vline(
        page,
        colors,
        signed(args, 0),
        signed(args, 1),
        signed(args, 2),
    );
}

/// `oval`.
pub(crate) fn oval(args: &[u32], page: &mut PageBytes)
    requires { length args.now ≡ 4 }
    ensures { page.new ≡ paint page.old (oval_painter (draw_colors page.old)
        (signed_argument args.now 0) (signed_argument args.now 1) (signed_argument args.now 2)
        (signed_argument args.now 3)) }
{
    let colors = draw_colors(page);
    w4_shapes::oval(
        page,
        colors,
        signed(args, 0),
        signed(args, 1),
        signed(args, 2),
        signed(args, 3),
    );
}

/// `rect`.
pub(crate) fn rect(args: &[u32], page: &mut PageBytes)
    requires { length args.now ≡ 4 }
    ensures { page.new ≡ paint page.old (rect_painter (draw_colors page.old)
        (signed_argument args.now 0) (signed_argument args.now 1) (signed_argument args.now 2)
        (signed_argument args.now 3)) }
{
    let colors = draw_colors(page);
    w4_shapes::rect(
        page,
        colors,
        signed(args, 0),
        signed(args, 1),
        signed(args, 2),
        signed(args, 3),
    );
}

/// `text`, `textUtf8` and `textUtf16`: the text of a source at the two arguments from `k` on.
pub(crate) fn text(font: &Font, args: &[u32], page: &mut PageBytes, source: TextSource, k: usize)
    requires { k + 2 ≤ length args.now }
    ensures { page.new ≡ paint page.old
        (text_painter font.now (draw_colors page.old) (text_codes page.old source)
        (signed_argument args.now k) (signed_argument args.now (k + 1))) }
{
    let colors = draw_colors(page);
    w4_blit::text(
        page,
        font,
        colors,
        source,
        signed(args, k),
        signed(args, k + 1),
    );
}
