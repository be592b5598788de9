//! Sixteen pixels that stand side by side, and the four bytes of the framebuffer that take them.

ghost use Rattle.std.specs.Prelude.{◌*◌, ◌+◌, ◌/◌, ◌%◌, ◌<◌, ◌≡◌, ◌≤◌, ◌⊎◌, ◌^◌, ℕ, if◌then◌else◌};
ghost use Rattle.w4_blit.specs.Inks.{ink_of};
ghost use Rattle.w4_blit.specs.Masks.{IsMask};
ghost use Rattle.w4_blit.specs.Strips.{HasValue, strip_index, strip_painter};
ghost use Rattle.w4_defs.specs.Blit.{has_flag};
ghost use Rattle.w4_defs.specs.Framebuffer.{paint};

use crate::cells::{TWO_BITS, has_flag};
use crate::inks::Inks;
use crate::masks::{Bits, Strip};
use crate::source::FRAMEBUFFER;
use w4_defs::{PageBytes, Sprite};

/// The bits of `other` where the mask has ones, those of `word` elsewhere.
pub(crate) fn chosen(mask: u32, word: u32, other: u32) -> u32
    ensures word { (k : ℕ) → k < 16 → mask / 4 ^ k % 4 ≡ 0 → result / 4 ^ k % 4 ≡ word / 4 ^ k % 4 }
    ensures other { (k : ℕ) → k < 16 → mask / 4 ^ k % 4 ≡ 3 → result / 4 ^ k % 4 ≡ other / 4 ^ k % 4 }
{
    word ^ (mask & (word ^ other))
}

/// The pixels of `other` where the mask has ones, those of `strip` elsewhere.
pub(crate) fn either(mask: u32, strip: Strip, other: Strip) -> Strip
    requires { IsMask mask }
    ensures strip { (k : ℕ) → k < 16 → mask / 4 ^ k % 4 ≡ 0 → strip_index result k ≡ strip_index strip k }
    ensures other { (k : ℕ) → k < 16 → mask / 4 ^ k % 4 ≡ 3 → strip_index result k ≡ strip_index other k }
{
    Strip {
        indices: chosen(mask, strip.indices, other.indices),
        mask: chosen(mask, strip.mask, other.mask),
    }
}

/// What sixteen values of a sprite paint.
pub(crate) fn painted_by(sprite: &Sprite, inks: &Inks, bits: Bits) -> Strip
    ensures { (k value : ℕ) → k < 16 → value < (if has_flag sprite.now 1 then 4 else 2)
        → HasValue bits k value → strip_index result k ≡ strip_index (ink_of inks.now value) k }
{
    if has_flag(sprite, TWO_BITS) {
        painted(inks, bits)
    } else {
        painted_low(inks, bits)
    }
}

/// What values of one bit paint.
fn painted_low(inks: &Inks, bits: Bits) -> Strip
    ensures { (k value : ℕ) → k < 16 → value < 2 → bits.low / 4 ^ k % 4 ≡ 3 * (value % 2)
        → strip_index result k ≡ strip_index (ink_of inks.now value) k }
{
    either(bits.low, inks.first, inks.second)
}

/// What values of two bits paint.
fn painted(inks: &Inks, bits: Bits) -> Strip
    ensures { (k value : ℕ) → k < 16 → value < 4 → HasValue bits k value → strip_index result k
        ≡ strip_index (ink_of inks.now value) k }
{
    let lower = either(bits.low, inks.first, inks.second);
    let upper = either(bits.low, inks.third, inks.fourth);
    either(bits.high, lower, upper)
}

/// A word's digits from number `from` on, the first of them as digit `to`; 0 below.
pub(crate) fn moved(word: u32, from: u32, to: u32) -> u32
    requires from { from < 16 }
    requires to { to < 16 }
    ensures digits { (d : ℕ) → to + d < 16 → result / 4 ^ (to + d) % 4 ≡ word / 4 ^ (from + d) % 4 }
    ensures mask { IsMask word → IsMask result }
{
    (word >> (2 * from)) << (2 * to)
}

/// Those of a strip's pixels from the one of number `low` up to `high`, which is left out.
pub(crate) fn part_of(strip: Strip, low: u32, high: u32) -> Strip
    requires low { low < 16 }
    requires some { 0 < high }
    requires high { high ≤ 16 }
    ensures inside { (k : ℕ) → low ≤ k → k < high → strip_index result k ≡ strip_index strip k }
    ensures outside { (k : ℕ) → k < 16 → (k < low) ⊎ (high ≤ k) → result.mask / 4 ^ k % 4 ≡ 0 }
{
    let from_low = u32::MAX << (2 * low);
    let to_high = u32::MAX >> (32 - 2 * high);
    Strip {
        indices: strip.indices,
        mask: chosen(from_low, 0, chosen(to_high, 0, strip.mask)),
    }
}

/// Paints a strip into the four bytes from `q` on of a row.
pub(crate) fn put_strip(page: &mut PageBytes, q: usize, row: usize, strip: Strip)
    requires column { q ≤ 36 }
    requires row { row < 160 }
    ensures { page.new ≡ paint page.old (strip_painter q row strip) }
{
    let at = FRAMEBUFFER + (40 * row + q);
    let (a, b) = (u32::from(page[at]), u32::from(page[at + 1]));
    let (c, d) = (u32::from(page[at + 2]), u32::from(page[at + 3]));
    let old = a + 256 * (b + 256 * (c + 256 * d));
    let word = chosen(strip.mask, old, strip.indices);
    page[at] = (word % 256) as u8;
    page[at + 1] = (word / 256 % 256) as u8;
    page[at + 2] = (word / 65536 % 256) as u8;
    page[at + 3] = (word / 16777216 % 256) as u8;
}
