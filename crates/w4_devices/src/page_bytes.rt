//! What stands in the page from an address on; a byte past the page's end reads 0.

ghost use Rattle.std.specs.Prelude.{◌≡◌, ◌+◌, ◌<◌, ◌≤◌, ◌^◌, drop, length, slice_index, take};
ghost use Rattle.w4_defs.specs.Text.{before_zero};
ghost use Rattle.w4_defs.specs.Words.{word_at};

use w4_defs::PageBytes;

/// The page's bytes from an address on; none past its end.
pub fn bytes_from(page: &PageBytes, at: u32) -> &[u8]
    ensures bytes { result.now ≡ drop at page.now }
    ensures bound { length result.now ≤ 65536 }
{
    let start = (at as usize).min(page.len());
    &page[start..]
}

/// The first `count` bytes, or all if there are fewer.
pub fn first_bytes(bytes: &[u8], count: usize) -> &[u8]
    ensures { result.now ≡ take count bytes.now }
{
    &bytes[..count.min(bytes.len())]
}

/// The bytes before the first 0, or all.
pub fn before_zero(bytes: &[u8]) -> &[u8]
    ensures bytes { result.now ≡ before_zero bytes.now }
    ensures bound { length result.now ≤ length bytes.now }
{
    first_bytes(bytes, text_len(bytes))
}

fn text_len(bytes: &[u8]) -> usize
    ensures { result ≡ length (before_zero bytes.now) }
{
    bytes.iter().take_while(|byte| **byte != 0).count()
}

/// The number in the four bytes at an address, the lowest byte first.
pub fn word_at(page: &PageBytes, at: usize) -> u32
    requires { at < 2 ^ 40 }
    ensures { result ≡ word_at page.now at }
{
    byte_at(page, at)
        + 256
            * (byte_at(page, at + 1) + 256 * (byte_at(page, at + 2) + 256 * byte_at(page, at + 3)))
}

fn byte_at(page: &PageBytes, at: usize) -> u32
    ensures byte { result ≡ slice_index page.now at }
    ensures bound { result < 256 }
{
    if at < page.len() { page[at].into() } else { 0 }
}
