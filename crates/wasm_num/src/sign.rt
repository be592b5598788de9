//! The two readings of a number of 32 or 64 bits: as it stands, and as signed.

ghost use Rattle.std.specs.Prelude.{◌≡◌};
ghost use Rattle.w4_defs.specs.Integers.{as_signed, wrapped};

/// The number read as signed.
pub fn signed32(a: u32) -> i32
    ensures { result ≡ as_signed 32 a }
{
    a.cast_signed()
}

/// The number read as signed.
pub fn signed64(a: u64) -> i64
    ensures { result ≡ as_signed 64 a }
{
    a.cast_signed()
}

/// The signed number modulo 2^32.
pub fn wrapped32(a: i32) -> u32
    ensures { result ≡ wrapped 32 a }
{
    a.cast_unsigned()
}

/// The signed number modulo 2^64.
pub fn wrapped64(a: i64) -> u64
    ensures { result ≡ wrapped 64 a }
{
    a.cast_unsigned()
}
