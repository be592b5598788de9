//! Numbers: LEB128, and fixed widths with the lowest byte first (Core Specification, section 5.2).

ghost use Rattle.std.specs.Prelude.{IfSome, None, Some, if◌then◌else◌, nat_le, nat_lt, option_map, ◌*◌, ◌+◌, ◌-◌, ◌<◌, ◌^◌, ◌≡◌, ◌≤◌};
ghost use Rattle.std.specs.Int.{w32, w64};
ghost use Rattle.w4_defs.specs.Reading.{little_endian_at};
ghost use Rattle.wasm_read.specs.ReadNumber.{last_signed, last_unsigned, leb_at, signed_at, unsigned_at};

fn is_below_power(value: u64, width: u32) -> bool
    ensures { result ≡ nat_lt value (2 ^ width) }
{
    if width >= 64 {
        return true;
    }
    value < 1 << width
}

/// The byte, where it is a number of this many bits.
fn last_unsigned(width: u32, byte: u8) -> Option<u64>
    ensures { result ≡ last_unsigned width byte }
{
    let value = u64::from(byte);
    if is_below_power(value, width) {
        Some(value)
    } else {
        None
    }
}

/// The number of `width` bits whose last byte has the sign bit set, modulo 2^width.
fn last_negative(width: u32, byte: u8) -> Option<u64>
    requires positive { 0 < width }
    requires width { width ≤ 64 }
    requires byte { byte < 128 }
    ensures { result ≡ (if nat_le 256 (2 * byte + 2 ^ width) then Some (byte + 2 ^ width - 128) else None) }
{
    let value = u64::from(byte);
    if width == 64 {
        return Some(u64::MAX - (127 - value));
    }
    let power = 1 << width;
    if 2 * value + power >= 256 {
        Some(value + power - 128)
    } else {
        None
    }
}

/// The byte, where it is a signed number of this many bits, modulo 2^width.
fn last_signed(width: u32, byte: u8) -> Option<u64>
    requires positive { 0 < width }
    requires width { width ≤ 64 }
    requires byte { byte < 128 }
    ensures { result ≡ last_signed width byte }
{
    if byte >= 64 {
        return last_negative(width, byte);
    }
    let value = u64::from(byte);
    if is_below_power(2 * value, width) {
        Some(value)
    } else {
        None
    }
}

/// An unsigned LEB128 of at most `width` bits, and the bytes after it.
fn unsigned_at(width: u32, bytes: &[u8]) -> Option<(u64, &[u8])>
    requires { width ≤ 64 }
    ensures exact { option_map (λ x. (x.0, x.1.now)) result ≡ leb_at last_unsigned width bytes.now }
    ensures fits { IfSome result (λ x. x.0 < 2 ^ width) }
{
    let [byte, rest @ ..] = bytes else {
        return None;
    };
    if *byte < 128 {
        return Some((last_unsigned(width, *byte)?, rest));
    }
    if width <= 7 {
        return None;
    }
    let (high, after) = unsigned_at(width - 7, rest)?;
    Some((u64::from(*byte) - 128 + 128 * high, after))
}

/// A signed LEB128 of at most `width` bits, modulo 2^width, and the bytes after it.
fn signed_at(width: u32, bytes: &[u8]) -> Option<(u64, &[u8])>
    requires positive { 0 < width }
    requires width { width ≤ 64 }
    ensures exact { option_map (λ x. (x.0, x.1.now)) result ≡ leb_at last_signed width bytes.now }
    ensures fits { IfSome result (λ x. x.0 < 2 ^ width) }
{
    let [byte, rest @ ..] = bytes else {
        return None;
    };
    if *byte < 128 {
        return Some((last_signed(width, *byte)?, rest));
    }
    if width <= 7 {
        return None;
    }
    let (high, after) = signed_at(width - 7, rest)?;
    Some((u64::from(*byte) - 128 + 128 * high, after))
}

/// An unsigned number of 32 bits, and the bytes after it.
#[tactic(auto, unfolding(crate::specs::ReadNumber::unsigned_at))]
pub fn index_at(bytes: &[u8]) -> Option<(u32, &[u8])>
    ensures { option_map (λ x. (x.0, x.1.now)) result ≡ unsigned_at 32 bytes.now }
{
    let (value, rest) = unsigned_at(32, bytes)?;
    Some((value as u32, rest))
}

/// A signed number of 32 bits, modulo 2^32, and the bytes after it.
#[tactic(auto, unfolding(crate::specs::ReadNumber::signed_at))]
pub fn word_at(bytes: &[u8]) -> Option<(u32, &[u8])>
    ensures { option_map (λ x. (x.0, x.1.now)) result ≡ signed_at 32 bytes.now }
{
    let (value, rest) = signed_at(32, bytes)?;
    Some((value as u32, rest))
}

/// A signed number of 64 bits, modulo 2^64, and the bytes after it.
#[tactic(auto, unfolding(crate::specs::ReadNumber::signed_at))]
pub fn long_word_at(bytes: &[u8]) -> Option<(u64, &[u8])>
    ensures { option_map (λ x. (x.0, x.1.now)) result ≡ signed_at 64 bytes.now }
{
    signed_at(64, bytes)
}

/// Four bytes, the lowest first, and the bytes after them.
pub fn bits32_at(bytes: &[u8]) -> Option<(u32, &[u8])>
    ensures { option_map (λ x. (x.0, x.1.now)) result ≡ little_endian_at w32 bytes.now }
{
    let [a, b, c, d, rest @ ..] = bytes else {
        return None;
    };
    Some((u32::from_le_bytes([*a, *b, *c, *d]), rest))
}

/// Eight bytes, the lowest first, and the bytes after them.
pub fn bits64_at(bytes: &[u8]) -> Option<(u64, &[u8])>
    ensures { option_map (λ x. (x.0, x.1.now)) result ≡ little_endian_at w64 bytes.now }
{
    let [a, b, c, d, e, f, g, h, rest @ ..] = bytes else {
        return None;
    };
    Some((u64::from_le_bytes([*a, *b, *c, *d, *e, *f, *g, *h]), rest))
}
