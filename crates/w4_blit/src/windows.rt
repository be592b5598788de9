//! The values of sixteen pixels of the sprite that follow one another, from a window of the page's bytes. In
//! a source's byte the first pixel has the highest bits, in a byte of the framebuffer the lowest, so what is
//! read forward is reversed, and what is read backward stands as it is.

ghost use Rattle.std.specs.Prelude.{[], ◌∷◌, ◌+◌, ◌-◌, ◌*◌, ◌/◌, ◌%◌, ◌<◌, ◌≡◌, ◌^◌, ℕ, slice_index, true};
ghost use Rattle.w4_blit.specs.FramebufferCopy.{page_of};
ghost use Rattle.w4_blit.specs.Strips.{HasValue};
ghost use Rattle.w4_blit.specs.Walks.{walked};
ghost use Rattle.w4_defs.specs.Blit.{source_value};

use crate::cells::{TWO_BITS, has_flag};
use crate::digits::{bits_of, reversed};
use crate::kept::Source;
use crate::masks::Bits;
use crate::source::{byte_of, eight_from};
use crate::spread::spread;
use crate::strips::moved;
use crate::walks::Walk;
use w4_defs::Sprite;

/// The cells of a row from number `n` on, of which there are some. They read pixels that follow one another.
#[derive(Clone, Copy)]
pub(crate) struct Stretch {
    pub walk: Walk,
    pub n: u32,
    ghost pace: { walk.pace ≡ 1 },
    ghost some: { n < walk.count },
}

/// The values that the cells of a stretch read, as far as it has cells, the first of them as digit `low`.
pub(crate) fn cell_bits(source: Source, sprite: &Sprite, stretch: Stretch, low: u32) -> Bits
    requires { low < 16 }
    ensures { (d : ℕ) → low + d < 16 → stretch.n + d < stretch.walk.count
        → HasValue result (low + d) (source_value (page_of source.entry) sprite.now
        (walked stretch.walk (stretch.n + d))) }
{
    if stretch.walk.backward {
        backward_bits(source, sprite, stretch, low)
    } else {
        let first = stretch.walk.start + u64::from(stretch.n);
        let bits = sixteen_from(source, sprite, first);
        moved_bits(bits, 0, low)
    }
}

/// The last of the cells reads the first pixel.
fn backward_bits(source: Source, sprite: &Sprite, stretch: Stretch, low: u32) -> Bits
    requires backward { stretch.walk.backward ≡ true }
    requires low { low < 16 }
    ensures { (d : ℕ) → low + d < 16 → stretch.n + d < stretch.walk.count
        → HasValue result (low + d) (source_value (page_of source.entry) sprite.now
        (walked stretch.walk (stretch.n + d))) }
{
    let walk = stretch.walk;
    let last = walk.count - 1 - stretch.n;
    let first = last.saturating_sub(15);
    let bits = sixteen_back(source, sprite, walk.start + u64::from(first));
    moved_bits(bits, 15 - (last - first), low)
}

/// The digits from number `from` on, the first of them as digit `to`.
fn moved_bits(bits: Bits, from: u32, to: u32) -> Bits
    requires from { from < 16 }
    requires to { to < 16 }
    ensures { (d value : ℕ) → from + d < 16 → to + d < 16 → HasValue bits (from + d) value
        → HasValue result (to + d) value }
{
    Bits {
        low: moved(bits.low, from, to),
        high: moved(bits.high, from, to),
    }
}

/// The values of the pixels from `pixel` on.
fn sixteen_from(source: Source, sprite: &Sprite, pixel: u64) -> Bits
    ensures { (k : ℕ) → k < 16 → HasValue result k
        (source_value (page_of source.entry) sprite.now (pixel + k)) }
{
    if has_flag(sprite, TWO_BITS) {
        two_bits(source, sprite.ptr, pixel)
    } else {
        one_bit(source, sprite.ptr, pixel)
    }
}

/// The same values from the last on.
fn sixteen_back(source: Source, sprite: &Sprite, pixel: u64) -> Bits
    ensures { (k : ℕ) → k < 16 → HasValue result k
        (source_value (page_of source.entry) sprite.now (pixel + (15 - k))) }
{
    if has_flag(sprite, TWO_BITS) {
        two_bits_back(source, sprite.ptr, pixel)
    } else {
        one_bit_back(source, sprite.ptr, pixel)
    }
}

fn two_bits(source: Source, ptr: u32, pixel: u64) -> Bits
    ensures { (k : ℕ) → k < 16 → HasValue result k
        (slice_index (page_of source.entry) (ptr + (pixel + k) / 4) / 4 ^ (3 - (pixel + k) % 4) % 4) }
{
    bits_of(reversed(window(source, ptr, pixel)))
}

fn two_bits_back(source: Source, ptr: u32, pixel: u64) -> Bits
    ensures { (k : ℕ) → k < 16 → HasValue result k
        (slice_index (page_of source.entry) (ptr + (pixel + (15 - k)) / 4) / 4 ^ (3 - (pixel + (15 - k)) % 4)
        % 4) }
{
    bits_of(window(source, ptr, pixel))
}

/// Sixteen pixels of two bits, the first in the highest.
fn window(source: Source, ptr: u32, pixel: u64) -> u32
    ensures { (k : ℕ) → k < 16 → result / 4 ^ (15 - k) % 4
        ≡ slice_index (page_of source.entry) (ptr + (pixel + k) / 4) / 4 ^ (3 - (pixel + k) % 4) % 4 }
{
    let word = eight_from(source, u64::from(ptr) + pixel / 4);
    sixteen_of(word, (pixel % 4) as u32)
}

/// Sixteen digits of the 32 in a word, of which `first` stand above them.
fn sixteen_of(word: u64, first: u32) -> u32
    requires { first < 4 }
    ensures { (k : ℕ) → k < 16 → result / 4 ^ k % 4 ≡ word / 4 ^ (16 - first + k) % 4 }
{
    ((word >> (2 * (16 - first))) % 4294967296) as u32
}

fn one_bit(source: Source, ptr: u32, pixel: u64) -> Bits
    ensures { (k : ℕ) → k < 16 → HasValue result k
        (slice_index (page_of source.entry) (ptr + (pixel + k) / 8) / 2 ^ (7 - (pixel + k) % 8) % 2) }
{
    Bits {
        low: spread_window(source, ptr, pixel),
        high: 0,
    }
}

fn one_bit_back(source: Source, ptr: u32, pixel: u64) -> Bits
    ensures { (k : ℕ) → k < 16 → HasValue result k
        (slice_index (page_of source.entry) (ptr + (pixel + (15 - k)) / 8) / 2 ^ (7 - (pixel + (15 - k)) % 8)
        % 2) }
{
    Bits {
        low: reversed(spread_window(source, ptr, pixel)),
        high: 0,
    }
}

/// The bits of sixteen pixels of one bit, as digits.
fn spread_window(source: Source, ptr: u32, pixel: u64) -> u32
    ensures { (k : ℕ) → k < 16 → result / 4 ^ k % 4
        ≡ 3 * (slice_index (page_of source.entry) (ptr + (pixel + k) / 8) / 2 ^ (7 - (pixel + k) % 8) % 2) }
{
    let word = eight_from(source, u64::from(ptr) + pixel / 8);
    let a = spread(byte_of(word, 7));
    let b = spread(byte_of(word, 6));
    let c = spread(byte_of(word, 5));
    wide_digits_from(a, b, c, (pixel % 8) as u32)
}

/// Sixteen digits from number `first` on, of the 24 in three words.
fn wide_digits_from(a: u16, b: u16, c: u16, first: u32) -> u32
    requires { first < 8 }
    ensures { (k : ℕ) → k < 16 → result / 4 ^ k % 4
        ≡ slice_index (a ∷ b ∷ c ∷ []) ((first + k) / 8) / 4 ^ ((first + k) % 8) % 4 }
{
    let word = u64::from(a) + 65536 * (u64::from(b) + 65536 * u64::from(c));
    ((word >> (2 * first)) % 4294967296) as u32
}
