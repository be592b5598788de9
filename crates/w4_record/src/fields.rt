//! Fields at the front of bytes: a value and the bytes after it, or None where the bytes don't have it.

ghost use Rattle.std.specs.Prelude.{◌≡◌, length, option_map, IfSome};
ghost use Rattle.std.specs.Int.{w16, w32};
ghost use Rattle.w4_defs.specs.Reading.{front_at, little_endian_at};

/// The first `len` bytes.
pub fn front(bytes: &[u8], len: usize) -> Option<(&[u8], &[u8])>
    ensures len { IfSome result (λ p. length p.0.now ≡ len) }
    ensures parts { option_map (λ p. (p.0.now, p.1.now)) result ≡ front_at len bytes.now }
{
    if bytes.len() < len {
        return None;
    }
    Some(bytes.split_at(len))
}

/// A little-endian number of two bytes.
pub fn u16_at(bytes: &[u8]) -> Option<(u16, &[u8])>
    ensures { option_map (λ p. (p.0, p.1.now)) result ≡ little_endian_at w16 bytes.now }
{
    if bytes.len() < 2 {
        return None;
    }
    let (front, rest) = bytes.split_at(2);
    Some((u16::from_le_bytes([front[0], front[1]]), rest))
}

/// A little-endian number of four bytes.
pub fn u32_at(bytes: &[u8]) -> Option<(u32, &[u8])>
    ensures { option_map (λ p. (p.0, p.1.now)) result ≡ little_endian_at w32 bytes.now }
{
    if bytes.len() < 4 {
        return None;
    }
    let (front, rest) = bytes.split_at(4);
    Some((
        u32::from_le_bytes([front[0], front[1], front[2], front[3]]),
        rest,
    ))
}
