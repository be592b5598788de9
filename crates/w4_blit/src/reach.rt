//! How much of the framebuffer a sprite reads.

ghost use Rattle.std.specs.Prelude.{◌*◌, ◌+◌, ◌<◌, ◌≤◌, ◌^◌, ℕ};
ghost use Rattle.w4_blit.specs.FramebufferCopy.{IsAtHand};
ghost use Rattle.w4_blit.specs.Reach.{InReach};
ghost use Rattle.w4_defs.specs.Blit.{source_column, source_row};

use crate::cells::{TWO_BITS, has_flag};
use crate::source::{FRAMEBUFFER, FRAMEBUFFER_END};
use w4_defs::Sprite;

/// The first byte of the framebuffer that is kept for a sprite, and how many are: all that its cells read of
/// it, and seven more where there are, since eight are read at once.
pub(crate) fn framebuffer_read(sprite: &Sprite) -> (usize, usize)
    ensures bound { result.1 ≤ 6400 }
    ensures there { result.0 + result.1 ≤ 6560 }
    ensures reach { (i j : ℕ) → i < sprite.now.w → j < sprite.now.h
        → InReach sprite.now (source_row sprite.now j * sprite.now.stride + source_column sprite.now i)
        result.0 result.1 }
{
    let (first, last) = (first_pixel(sprite), last_pixel(sprite));
    let ptr = u128::from(sprite.ptr);
    if has_flag(sprite, TWO_BITS) {
        part_between(ptr + first / 4, ptr + last / 4)
    } else {
        part_between(ptr + first / 8, ptr + last / 8)
    }
}

/// The framebuffer's part from byte `first` to seven after byte `last`: its first byte, and how many it has.
fn part_between(first: u128, last: u128) -> (usize, usize)
    requires { last < 2 ^ 100 }
    ensures bound { result.1 ≤ 6400 }
    ensures there { result.0 + result.1 ≤ 6560 }
    ensures kept { (at : ℕ) → first ≤ at → at ≤ last → IsAtHand result.0 result.1 at }
{
    let start = first.clamp(FRAMEBUFFER as u128, FRAMEBUFFER_END as u128) as usize;
    let end = (last + 8).clamp(FRAMEBUFFER as u128, FRAMEBUFFER_END as u128) as usize;
    (start, end.saturating_sub(start))
}

/// No cell reads a pixel of a lower number.
fn first_pixel(sprite: &Sprite) -> u128
    ensures first { (i j : ℕ) → result
        ≤ source_row sprite.now j * sprite.now.stride + source_column sprite.now i }
    ensures bound { result < 2 ^ 80 }
{
    u128::from(sprite.src_y) * u128::from(sprite.stride) + u128::from(sprite.src_x)
}

/// No cell reads a pixel of a greater number.
fn last_pixel(sprite: &Sprite) -> u128
    ensures last { (i j : ℕ) → i < sprite.now.w → j < sprite.now.h
        → source_row sprite.now j * sprite.now.stride + source_column sprite.now i ≤ result }
    ensures bound { result < 2 ^ 80 }
{
    let row = u128::from(sprite.src_y) + u128::from(sprite.h.saturating_sub(1));
    let column = u128::from(sprite.src_x) + u128::from(sprite.w.saturating_sub(1));
    row * u128::from(sprite.stride) + column
}
