//! Quotients and remainders. DivideByZero if and only if the divisor is 0.

ghost use Rattle.std.specs.Prelude.{◌≡◌};
ghost use Rattle.w4_defs.specs.Integers.{div_s, div_u, rem_s, rem_u};

use crate::sign::{signed32, signed64, wrapped32, wrapped64};
use w4_defs::Cause;

/// The signed quotient, cut toward zero. Overflow for the least number by -1.
pub fn div_s32(a: u32, b: u32) -> Result<u32, Cause>
    ensures { result ≡ div_s 32 a b }
{
    if b == 0 {
        return Err(Cause::DivideByZero);
    }
    let (dividend, divisor) = (signed32(a), signed32(b));
    if dividend == i32::MIN && divisor == -1 {
        return Err(Cause::Overflow);
    }
    Ok(wrapped32(dividend / divisor))
}

pub fn div_u32(a: u32, b: u32) -> Result<u32, Cause>
    ensures { result ≡ div_u a b }
{
    if b == 0 {
        Err(Cause::DivideByZero)
    } else {
        Ok(a / b)
    }
}

/// The signed remainder, with the sign of the dividend. 0 for the least number by -1.
pub fn rem_s32(a: u32, b: u32) -> Result<u32, Cause>
    ensures { result ≡ rem_s 32 a b }
{
    if b == 0 {
        return Err(Cause::DivideByZero);
    }
    Ok(wrapped32(signed32(a).wrapping_rem(signed32(b))))
}

pub fn rem_u32(a: u32, b: u32) -> Result<u32, Cause>
    ensures { result ≡ rem_u a b }
{
    if b == 0 {
        Err(Cause::DivideByZero)
    } else {
        Ok(a % b)
    }
}

/// The signed quotient, cut toward zero. Overflow for the least number by -1.
pub fn div_s64(a: u64, b: u64) -> Result<u64, Cause>
    ensures { result ≡ div_s 64 a b }
{
    if b == 0 {
        return Err(Cause::DivideByZero);
    }
    let (dividend, divisor) = (signed64(a), signed64(b));
    if dividend == i64::MIN && divisor == -1 {
        return Err(Cause::Overflow);
    }
    Ok(wrapped64(dividend / divisor))
}

pub fn div_u64(a: u64, b: u64) -> Result<u64, Cause>
    ensures { result ≡ div_u a b }
{
    if b == 0 {
        Err(Cause::DivideByZero)
    } else {
        Ok(a / b)
    }
}

/// The signed remainder, with the sign of the dividend. 0 for the least number by -1.
pub fn rem_s64(a: u64, b: u64) -> Result<u64, Cause>
    ensures { result ≡ rem_s 64 a b }
{
    if b == 0 {
        return Err(Cause::DivideByZero);
    }
    Ok(wrapped64(signed64(a).wrapping_rem(signed64(b))))
}

pub fn rem_u64(a: u64, b: u64) -> Result<u64, Cause>
    ensures { result ≡ rem_u a b }
{
    if b == 0 {
        Err(Cause::DivideByZero)
    } else {
        Ok(a % b)
    }
}
