//! A byte of the framebuffer as its four two-bit digits, the lowest first.

ghost use Rattle.std.specs.Prelude.{◌/◌, ◌%◌, ◌<◌, ◌==◌, ◌≡◌, ◌≤◌, ◌^◌, ℕ, if◌then◌else◌};
ghost use Rattle.w4_pixels.specs.Packed.{Chooses, IsMask};

use crate::colour::PaletteIndex;

/// The k-th digit of a byte.
pub fn digit(byte: u8, k: u32) -> u8
    requires { k < 4 }
    ensures { result ≡ byte / 4 ^ k % 4 }
{
    (byte >> (2 * k)) % 4
}

/// The byte with the palette index as its k-th digit.
pub fn with_digit(byte: u8, k: u32, index: PaletteIndex) -> u8
    requires { k < 4 }
    ensures { (j : ℕ) → j < 4
        → result / 4 ^ j % 4 ≡ (if j == k then index else byte / 4 ^ j % 4) }
{
    masked(byte, digit_mask(k), index)
}

/// The byte whose k-th digit is 3, and the others 0.
fn digit_mask(k: u32) -> u8
    requires { k < 4 }
    ensures { (j : ℕ) → j < 4 → result / 4 ^ j % 4 ≡ (if j == k then 3 else 0) }
{
    3 << (2 * k)
}

/// The byte whose digits from `low` up to `high`, which is left out, are 3, and the others 0.
pub fn span_mask(low: usize, high: usize) -> u8
    requires low { low < 4 }
    requires some { 1 ≤ high }
    requires high { high ≤ 4 }
    ensures { Chooses low high result }
{
    let (from_low, up_to_high) = (255_u8 << (2 * low as u32), 255_u8 >> (8 - 2 * high as u32));
    from_low & up_to_high
}

/// The byte with the palette index as each digit that is 3 in the mask.
pub fn masked(byte: u8, mask: u8, index: PaletteIndex) -> u8
    requires { IsMask mask }
    ensures { (k : ℕ) → k < 4
        → result / 4 ^ k % 4 ≡ (if mask / 4 ^ k % 4 == 3 then index else byte / 4 ^ k % 4) }
{
    byte & !mask | filled(index) & mask
}

/// A byte of four times the same digit.
pub(crate) fn filled(index: PaletteIndex) -> u8
    ensures { (k : ℕ) → k < 4 → result / 4 ^ k % 4 ≡ index }
{
    85 * index.number()
}
