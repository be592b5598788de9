//! The page as it was when the call began, while the framebuffer is painted: the bytes outside are read where
//! they stand, those of the framebuffer from a copy of those that the call reads.

ghost use Rattle.std.specs.Prelude.{[], ◌∷◌, ◌+◌, ◌-◌, ◌-ℤ◌, ◌*◌, ◌/◌, ◌%◌, ◌<◌, ◌≡◌, ◌≤◌, ◌^◌, ℕ, length, pos, slice_index, true};
ghost use Rattle.w4_blit.specs.FramebufferCopy.{page_of};
ghost use Rattle.w4_defs.specs.Shapes.{natural};

use crate::kept::{Kept, Source};

/// The first byte of the framebuffer.
pub(crate) const FRAMEBUFFER: usize = 160;

/// The first byte behind the framebuffer. A source that begins there or further up is never painted, so
/// nothing of it is kept.
pub(crate) const FRAMEBUFFER_END: u32 = 6560;

/// What a byte past the page's end reads.
const PAST_THE_END: u8 = 0;

/// Eight bytes of the page when the call began, the first the highest.
pub(crate) fn eight_from(source: Source, at: u64) -> u64
    requires { at < 18446744073709551608 }
    ensures { (i : ℕ) → i < 8 → result / 2 ^ (8 * i) % 256
        ≡ slice_index (page_of source.entry) (at + (7 - i)) }
{
    if FRAMEBUFFER_END as u64 <= at && at <= 65528 {
        let page = source.page;
        eight_there(page, at as usize)
    } else {
        eight_inside(source, at)
    }
}

/// The same, where they may be of the framebuffer. It isn't inlined, since most sprites lie behind that.
#[inline(never)]
fn eight_inside(source: Source, at: u64) -> u64
    requires { at < 18446744073709551608 }
    ensures { (i : ℕ) → i < 8 → result / 2 ^ (8 * i) % 256
        ≡ slice_index (page_of source.entry) (at + (7 - i)) }
{
    let kept = source.kept;
    if has_eight(kept, at) {
        let bytes = kept.bytes;
        eight_there(bytes, at as usize - kept.first)
    } else {
        eight_read(source, at)
    }
}

/// Whether the eight bytes are of the framebuffer, and all among those that are kept.
fn has_eight(kept: Kept, at: u64) -> bool
    ensures { result ≡ true → (160 ≤ at) × (at + 8 ≤ 6560) × (kept.entry.first ≤ at)
        × (at - kept.entry.first + 8 ≤ length kept.entry.bytes.now) }
{
    FRAMEBUFFER as u64 <= at
        && at <= FRAMEBUFFER_END as u64 - 8
        && kept.first as u64 <= at
        && 8 <= kept.bytes.len()
        && at as usize - kept.first <= kept.bytes.len() - 8
}

fn eight_there(bytes: &[u8], at: usize) -> u64
    requires { at + 8 ≤ length bytes.now }
    ensures { (i : ℕ) → i < 8 → result / 2 ^ (8 * i) % 256 ≡ slice_index bytes.now (at + (7 - i)) }
{
    let first = four_of(bytes[at], bytes[at + 1], bytes[at + 2], bytes[at + 3]);
    let second = four_of(bytes[at + 4], bytes[at + 5], bytes[at + 6], bytes[at + 7]);
    first * 4294967296 + second
}

/// Each by itself, where they aren't all in one place.
fn eight_read(source: Source, at: u64) -> u64
    requires { at < 18446744073709551608 }
    ensures { (i : ℕ) → i < 8 → result / 2 ^ (8 * i) % 256
        ≡ slice_index (page_of source.entry) (at + (7 - i)) }
{
    let first = four_read(source, at);
    first * 4294967296 + four_read(source, at + 4)
}

fn four_read(source: Source, at: u64) -> u64
    requires { at < 18446744073709551612 }
    ensures bytes { (i : ℕ) → i < 4 → result / 2 ^ (8 * i) % 256
        ≡ slice_index (page_of source.entry) (at + (3 - i)) }
    ensures bound { result < 4294967296 }
{
    four_of(
        byte_at(source, at),
        byte_at(source, at + 1),
        byte_at(source, at + 2),
        byte_at(source, at + 3),
    )
}

/// Four bytes as a number, the first the highest.
fn four_of(a: u8, b: u8, c: u8, d: u8) -> u64
    ensures bytes { (i : ℕ) → i < 4 → result / 2 ^ (8 * i) % 256
        ≡ slice_index (d ∷ c ∷ b ∷ a ∷ []) i }
    ensures bound { result < 4294967296 }
{
    u64::from(d) + 256 * (u64::from(c) + 256 * (u64::from(b) + 256 * u64::from(a)))
}

/// Byte `i` of a number, counted from the lowest.
pub(crate) fn byte_of(word: u64, i: u32) -> u8
    requires { i < 8 }
    ensures { result ≡ word / 2 ^ (8 * i) % 256 }
{
    ((word >> (8 * i)) % 256) as u8
}

/// A byte of the page when the call began; 0 past its end.
pub(crate) fn byte_at(source: Source, at: u64) -> u8
    ensures { result ≡ slice_index (page_of source.entry) at }
{
    let (page, kept) = (source.page, source.kept);
    if 65536 <= at {
        PAST_THE_END
    } else if FRAMEBUFFER_END as u64 <= at {
        page[at as usize]
    } else if at < FRAMEBUFFER as u64 {
        page[at as usize]
    } else {
        copied_byte(kept.bytes, (at as usize).saturating_sub(kept.first))
    }
}

fn copied_byte(copy_bytes: &[u8], at: usize) -> u8
    ensures { result ≡ slice_index copy_bytes.now at }
{
    if at < copy_bytes.len() {
        copy_bytes[at]
    } else {
        PAST_THE_END
    }
}

/// How far column or row `u` of the screen is past `x`; 0 if it is before.
pub(crate) fn offset(u: usize, x: i64) -> u64
    requires { u < 160 }
    ensures value { result ≡ natural (pos u -ℤ x) }
    ensures bound { result < 9223372036854775968 }
{
    if x <= u as i64 {
        x.abs_diff(u as i64)
    } else {
        0
    }
}
