//! Numbers in their shortest encodings (Core Specification, section 5.2.2).

ghost use Rattle.std.specs.Prelude.{IfOk, true, ◌*◌, ◌+◌, ◌++◌, ◌<◌, ◌^◌, ◌≡◌, ◌≤◌};
ghost use Rattle.w4_defs.specs.EncodeNumber.{is_last, last_byte, signed_bytes, unsigned_bytes};

use w4_defs::OutOfMemory;

/// An unsigned number, as LEB128.
pub fn unsigned(out: &mut Vec<u8>, value: u64) -> Result<(), OutOfMemory>
    ensures { IfOk result (λ _. out.new.items ≡ out.old.items ++ unsigned_bytes value) }
{
    let mut left = value;
    while left >= 128 {
        out.push((left % 128 + 128) as u8)?;
        left /= 128;
    }
    out.push(left as u8)?;
    Ok(())
}

/// The greatest number of this many bits.
fn greatest(width: u32) -> u64
    requires positive { 0 < width }
    requires width { width ≤ 64 }
    ensures { result + 1 ≡ 2 ^ width }
{
    if width == 64 {
        return u64::MAX;
    }
    (1 << width) - 1
}

/// Whether one byte holds the signed number of `width` bits, which is given modulo 2^width.
fn is_last(width: u32, value: u64) -> bool
    requires positive { 0 < width }
    requires width { width ≤ 64 }
    requires fits { value < 2 ^ width }
    ensures { result ≡ is_last width value }
{
    let most = greatest(width);
    if value <= most / 2 {
        value < 64
    } else {
        most - value < 64
    }
}

/// The byte that holds it, if one does.
fn last_byte(width: u32, value: u64) -> u8
    requires positive { 0 < width }
    requires width { width ≤ 64 }
    requires fits { value < 2 ^ width }
    requires last { is_last width value ≡ true }
    ensures { result ≡ last_byte width value }
{
    let most = greatest(width);
    if value <= most / 2 {
        value as u8
    } else {
        127 - (most - value) as u8
    }
}

/// A signed number of `width` bits, which is given modulo 2^width, as LEB128.
pub fn signed(out: &mut Vec<u8>, width: u32, value: u64) -> Result<(), OutOfMemory>
    requires positive { 0 < width }
    requires width { width ≤ 64 }
    requires fits { value < 2 ^ width }
    ensures { IfOk result (λ _. out.new.items ≡ out.old.items ++ signed_bytes width value) }
{
    let mut bits = width;
    let mut left = value;
    while !is_last(bits, left) {
        out.push((left % 128 + 128) as u8)?;
        left /= 128;
        bits -= 7;
    }
    out.push(last_byte(bits, left))?;
    Ok(())
}
