//! What an import weighs of the budget (project rule): a text 64 and a unit for each byte of its source.

ghost use Rattle.std.specs.Prelude.{◌≡◌, ◌≤◌, drop, length};
ghost use Rattle.w4_defs.specs.declared.console.TextSource.TheVariants.{Cstr};
ghost use Rattle.w4_defs.specs.Board.{text_weight};
ghost use Rattle.w4_defs.specs.Text.{source_bytes};

use w4_defs::{PageBytes, TextSource};

/// Units that a text takes besides those of its bytes.
const TEXT: u64 = 64;

/// What a text weighs.
pub(crate) fn text_weight(page: &PageBytes, source: TextSource) -> u64
    ensures { result ≡ text_weight page.now source }
{
    TEXT + source_len(page, source) as u64
}

/// How many bytes a source has: up to the first 0, or as many as are asked for, and none past the page's end.
fn source_len(page: &PageBytes, source: TextSource) -> usize
    ensures count { result ≡ length (source_bytes page.now source) }
    ensures bound { result ≤ 65536 }
{
    match source {
        TextSource::Cstr { ptr } => before_zero(page, ptr),
        TextSource::Utf8 { ptr, len } => (len as usize).min(bytes_from(page, ptr).len()),
        TextSource::Utf16 { ptr, len } => (len as usize).min(bytes_from(page, ptr).len()),
    }
}

/// How many bytes stand before the first 0 from an address on.
fn before_zero(page: &PageBytes, ptr: u32) -> usize
    ensures count { result ≡ length (source_bytes page.now (Cstr ptr)) }
    ensures bound { result ≤ 65536 }
{
    bytes_from(page, ptr)
        .iter()
        .take_while(|byte| **byte != 0)
        .count()
}

/// The page's bytes from an address on; none past its end.
fn bytes_from(page: &PageBytes, ptr: u32) -> &[u8]
    ensures bytes { result.now ≡ drop ptr page.now }
    ensures bound { length result.now ≤ 65536 }
{
    let start = (ptr as usize).min(page.len());
    &page[start..]
}
