//! Sign extension of a number's lowest bytes, into the width of a type.

ghost use Rattle.std.specs.Prelude.{◌≡◌, ◌*◌, ◌%◌, ◌^◌, ◌<◌, ◌⊎◌};
ghost use Rattle.w4_defs.specs.Integers.{as_signed, extended};

/// From 1 or 2 bytes to 32 bits.
#[inline(always)]
pub fn extend_32(bytes: usize, number: u64) -> u64
    requires { (bytes ≡ 1) ⊎ (bytes ≡ 2) }
    ensures value { result ≡ extended (8 * bytes) 32 number }
    ensures fits { result < 2 ^ 32 }
{
    match bytes {
        1 => u64::from(i32::from(low_byte(number)).cast_unsigned()),
        _ => u64::from(i32::from(low_half(number)).cast_unsigned()),
    }
}

/// From 1, 2 or 4 bytes to 64 bits.
#[inline(always)]
pub fn extend_64(bytes: usize, number: u64) -> u64
    requires { (bytes ≡ 1) ⊎ (bytes ≡ 2) ⊎ (bytes ≡ 4) }
    ensures { result ≡ extended (8 * bytes) 64 number }
{
    match bytes {
        1 => i64::from(low_byte(number)).cast_unsigned(),
        2 => i64::from(low_half(number)).cast_unsigned(),
        _ => i64::from(low_word(number)).cast_unsigned(),
    }
}

#[inline(always)]
fn low_byte(number: u64) -> i8
    ensures { result ≡ as_signed 8 (number % 2 ^ 8) }
{
    ((number % 0x100) as u8).cast_signed()
}

#[inline(always)]
fn low_half(number: u64) -> i16
    ensures { result ≡ as_signed 16 (number % 2 ^ 16) }
{
    ((number % 0x1_0000) as u16).cast_signed()
}

#[inline(always)]
fn low_word(number: u64) -> i32
    ensures { result ≡ as_signed 32 (number % 2 ^ 32) }
{
    ((number % 0x1_0000_0000) as u32).cast_signed()
}
