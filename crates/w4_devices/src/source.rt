//! The line of `trace`, `traceUtf8` and `traceUtf16`.

ghost use Rattle.std.specs.Prelude.{◌≡◌, ◌+◌, ◌*◌, map};
ghost use Rattle.w4_defs.specs.Text.{units};
ghost use Rattle.w4_defs.specs.Traces.{line_of, trace_line, traced_unit};

use crate::line::Line;
use crate::page_bytes::{before_zero, bytes_from, first_bytes};
use w4_defs::{PageBytes, TextSource};

/// The line of a text in the page.
pub fn trace_line(page: &PageBytes, source: TextSource) -> Line
    ensures { result ≡ trace_line page.now source }
{
    match source {
        TextSource::Cstr { ptr } => Line::of(before_zero(bytes_from(page, ptr))),
        TextSource::Utf8 { ptr, len } => Line::of(first_bytes(bytes_from(page, ptr), len as usize)),
        TextSource::Utf16 { ptr, len } => units_line(first_bytes(
            bytes_from(page, ptr),
            len as usize,
        )),
    }
}

/// The line of little-endian 16-bit units: an odd last byte is ignored.
fn units_line(bytes: &[u8]) -> Line
    ensures { result ≡ line_of (map traced_unit (units bytes.now)) }
{
    let mut line = Line::new();
    let mut i = 0;
    while i + 1 < bytes.len() {
        line.add(traced_unit(bytes[i], bytes[i + 1]));
        i += 2;
    }
    line
}

/// The byte of a unit: the unit itself, or a question mark above 255.
fn traced_unit(low: u8, high: u8) -> u8
    ensures { result ≡ traced_unit (low + 256 * high) }
{
    if high == 0 { low } else { b'?' }
}
