//! The input of a house in memory, of which lines are taken from the front.

ghost use Rattle.std.specs.Prelude.{
  ◌≡◌,
  ◌<◌,
  ◌≤◌,
  ◌==◌,
  List,
  [],
  Some,
  IfSome,
  IsNone,
  length,
  take,
  drop,
};
ghost use Rattle.std.specs.List.{position};
ghost use Rattle.w4_house.specs.Lines.{GivesLine};

/// The place of the first byte 10.
fn line_end(bytes: &[u8]) -> Option<usize>
    ensures value { result ≡ position (λ byte. byte == 10) bytes.now }
    ensures within { IfSome result (λ at. at < length bytes.now) }
{
    bytes.iter().position(|byte| *byte == b'\n')
}

/// The rest of some bytes, after the first `passed`.
pub(crate) fn left(bytes: &[u8], passed: usize) -> &[u8]
    ensures { result.now ≡ drop passed bytes.now }
{
    &bytes[passed.min(bytes.len())..]
}

/// The first `most` of some bytes, or all if there are fewer.
fn front(bytes: &[u8], most: usize) -> &[u8]
    ensures { result.now ≡ take most bytes.now }
{
    &bytes[..most.min(bytes.len())]
}

/// The first `most` bytes of the first line of these, and the bytes after the line, or None where there are
/// no bytes.
pub(crate) fn first_line(bytes: &[u8], most: usize) -> Option<(&[u8], &[u8])>
    requires some { 0 < most }
    ensures line { IfSome result
        (λ found. GivesLine most (Some bytes.now) (Some found.1.now) (Some found.0.now)) }
    ensures most { IfSome result (λ found. length found.0.now ≤ most) }
    ensures end { IsNone result → bytes.now ≡ [] }
{
    if bytes.is_empty() {
        return None;
    }
    match line_end(bytes) {
        Some(at) => Some((front(&bytes[..at], most), &bytes[at + 1..])),
        None => Some((front(bytes, most), &[])),
    }
}
