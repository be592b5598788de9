//! The codes of a text, read from the page as it was when the call began.

ghost use Rattle.std.specs.Prelude.{◌+◌, ◌-◌, ◌<◌, ◌==◌, ◌≡◌, ◌≤◌, ℕ, drop, length, min, not, slice_index, take_while};
ghost use Rattle.w4_blit.specs.FramebufferCopy.{IsAtHand, bytes_read, page_of, source_start};
ghost use Rattle.w4_defs.specs.Text.{text_codes};

use crate::kept::Source;
use crate::source::{FRAMEBUFFER, FRAMEBUFFER_END, byte_at};
use w4_defs::{PageBytes, TextSource};

/// How many codes a text has.
pub(crate) fn code_count(page: &PageBytes, source: TextSource) -> usize
    ensures value { result ≡ length (text_codes page.now source) }
    ensures bound { result ≤ 65536 }
{
    match source {
        TextSource::Cstr { ptr } => bytes_before_zero(page, ptr),
        TextSource::Utf8 { ptr, len } => bytes_there(ptr, len),
        TextSource::Utf16 { ptr, len } => bytes_there(ptr, len) / 2,
    }
}

/// Where a text begins.
pub(crate) fn start_of(source: TextSource) -> u32
    ensures { result ≡ source_start source }
{
    match source {
        TextSource::Cstr { ptr } => ptr,
        TextSource::Utf8 { ptr, .. } => ptr,
        TextSource::Utf16 { ptr, .. } => ptr,
    }
}

/// The first byte that is kept of a text of `count` codes, and how many are: all that are read of it in the
/// framebuffer.
pub(crate) fn part_kept(source: TextSource, count: usize) -> (usize, usize)
    requires { count ≤ 65536 }
    ensures bound { result.1 ≤ 6400 }
    ensures there { result.0 + result.1 ≤ 65536 }
    ensures at_hand { (i : ℕ) → i < bytes_read source count
        → IsAtHand result.0 result.1 (source_start source + i) }
{
    let start = start_of(source) as usize;
    let first = start.clamp(FRAMEBUFFER, FRAMEBUFFER_END as usize);
    let end = (start + bytes_read(source, count)).min(FRAMEBUFFER_END as usize);
    (first, end.saturating_sub(first))
}

/// How many bytes of a text of `count` codes are read: of a C string the 0 behind them too.
fn bytes_read(source: TextSource, count: usize) -> usize
    requires { count ≤ 65536 }
    ensures value { result ≡ bytes_read source count }
    ensures bound { result ≤ 65537 }
{
    match source {
        TextSource::Cstr { .. } => count + 1,
        TextSource::Utf8 { ptr, len } => bytes_there(ptr, len),
        TextSource::Utf16 { ptr, len } => bytes_there(ptr, len),
    }
}

/// The code of number `k` of a text: a byte, or a little-endian unit of 16 bits.
pub(crate) fn code_at(source: Source, text: TextSource, k: usize) -> u16
    requires there { k < length (text_codes (page_of source) text) }
    requires small { k < 65536 }
    ensures { result ≡ slice_index (text_codes (page_of source.entry) text) k }
{
    let k = k as u64;
    match text {
        TextSource::Cstr { ptr } => u16::from(byte_at(source, u64::from(ptr) + k)),
        TextSource::Utf8 { ptr, .. } => u16::from(byte_at(source, u64::from(ptr) + k)),
        TextSource::Utf16 { ptr, .. } => {
            let at = u64::from(ptr) + 2 * k;
            let low = byte_at(source, at);
            let high = byte_at(source, at + 1);
            u16::from(low) + 256 * u16::from(high)
        }
    }
}

/// How many of `len` bytes from `ptr` on stand before the page's end.
fn bytes_there(ptr: u32, len: u32) -> usize
    ensures value { result ≡ min len (65536 - ptr) }
    ensures bound { result ≤ 65536 }
{
    len.min(65536u32.saturating_sub(ptr)) as usize
}

/// How many bytes from `ptr` on stand before the first 0 or the page's end.
fn bytes_before_zero(page: &PageBytes, ptr: u32) -> usize
    ensures value { result ≡ length (take_while (λ b. not (b == 0)) (drop ptr page.now)) }
    ensures bound { result ≤ 65536 }
{
    let first = ptr.min(65536) as usize;
    for at in first..65536 {
        if page[at] == 0 {
            return at - first;
        }
    }
    65536 - first
}
