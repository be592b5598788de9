//! Words as sixteen digits of two bits: their order, and their bits as masks.

ghost use Rattle.std.specs.Prelude.{◌-◌, ◌*◌, ◌/◌, ◌%◌, ◌<◌, ◌≡◌, ◌≤◌, ◌^◌, ℕ};
ghost use Rattle.w4_blit.specs.Strips.{HasValue, Swaps, partner};

use crate::masks::Bits;
use crate::strips::{chosen, moved};

/// The digits in the other order.
pub(crate) fn reversed(word: u32) -> u32
    ensures { (k : ℕ) → k < 16 → result / 4 ^ k % 4 ≡ word / 4 ^ (15 - k) % 4 }
{
    let ones = swapped(word, 1, 0xCCCC_CCCC);
    let twos = swapped(ones, 2, 0xF0F0_F0F0);
    let fours = swapped(twos, 4, 0xFF00_FF00);
    swapped(fours, 8, 0xFFFF_0000)
}

/// The word whose digits have changed places with those that stand `by` away. The mask has those that come
/// from below.
fn swapped(word: u32, by: u32, mask: u32) -> u32
    requires some { 0 < by }
    requires by { by ≤ 8 }
    requires mask { Swaps by mask }
    ensures { (k : ℕ) → k < 16 → result / 4 ^ k % 4 ≡ word / 4 ^ partner by k % 4 }
{
    chosen(mask, moved(word, by, 0), moved(word, 0, by))
}

/// The low and the high bits of sixteen values.
pub(crate) fn bits_of(values: u32) -> Bits
    ensures { (k : ℕ) → k < 16 → HasValue result k (values / 4 ^ k % 4) }
{
    Bits {
        low: low_bits(values),
        high: high_bits(values),
    }
}

/// The low bit of each digit, in both of its places.
fn low_bits(values: u32) -> u32
    ensures { (k : ℕ) → k < 16 → result / 4 ^ k % 4 ≡ 3 * (values / 4 ^ k % 4 % 2) }
{
    values ^ (0xAAAA_AAAA & (values ^ (values << 1)))
}

/// The high bit of each digit, in both of its places.
fn high_bits(values: u32) -> u32
    ensures { (k : ℕ) → k < 16 → result / 4 ^ k % 4 ≡ 3 * (values / 4 ^ k % 4 / 2) }
{
    values ^ (0x5555_5555 & (values ^ (values >> 1)))
}
