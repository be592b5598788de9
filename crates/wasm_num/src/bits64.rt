//! The operations at 64 bits, one table a shape, in the order of the standard's tables. Counts of shifts
//! and rotations are taken modulo 64.

ghost use Rattle.std.specs.Prelude.{◌≡◌, ◌%◌};
ghost use Rattle.w4_defs.specs.Integers.{unary, binary, compare, rotl, rotr};

use crate::division::{div_s64, div_u64, rem_s64, rem_u64};
use crate::sign::{signed64, wrapped64};
use w4_defs::{Binary, Cause, Compare, Unary};

/// A count of the operand's binary digits. The counts of zeros of 0 are 64.
pub fn unary64(op: Unary, a: u64) -> u64
    ensures { result ≡ unary 64 op a }
{
    match op {
        Unary::Clz => u64::from(a.leading_zeros()),
        Unary::Ctz => u64::from(a.trailing_zeros()),
        Unary::Popcnt => u64::from(a.count_ones()),
    }
}

/// The operation's value modulo 2^64. DivideByZero where a division or a remainder has the divisor 0,
/// Overflow where the least signed number is divided by -1.
pub fn binary64(op: Binary, a: u64, b: u64) -> Result<u64, Cause>
    ensures { result ≡ binary 64 op a b }
{
    match op {
        Binary::Add => Ok(a.wrapping_add(b)),
        Binary::Sub => Ok(a.wrapping_sub(b)),
        Binary::Mul => Ok(a.wrapping_mul(b)),
        Binary::DivS => div_s64(a, b),
        Binary::DivU => div_u64(a, b),
        Binary::RemS => rem_s64(a, b),
        Binary::RemU => rem_u64(a, b),
        Binary::And => Ok(a & b),
        Binary::Or => Ok(a | b),
        Binary::Xor => Ok(a ^ b),
        Binary::Shl => Ok(a << (b % 64)),
        Binary::ShrS => Ok(wrapped64(signed64(a) >> (b % 64))),
        Binary::ShrU => Ok(a >> (b % 64)),
        Binary::Rotl => Ok(rotl64(a, b)),
        Binary::Rotr => Ok(rotr64(a, b)),
    }
}

/// Whether the comparison holds.
pub fn compare64(op: Compare, a: u64, b: u64) -> bool
    ensures { result ≡ compare 64 op a b }
{
    match op {
        Compare::Eq => a == b,
        Compare::Ne => a != b,
        Compare::LtS => signed64(a) < signed64(b),
        Compare::LtU => a < b,
        Compare::GtS => signed64(a) > signed64(b),
        Compare::GtU => a > b,
        Compare::LeS => signed64(a) <= signed64(b),
        Compare::LeU => a <= b,
        Compare::GeS => signed64(a) >= signed64(b),
        Compare::GeU => a >= b,
    }
}

fn rotl64(a: u64, b: u64) -> u64
    ensures { result ≡ rotl 64 a (b % 64) }
{
    a.rotate_left((b % 64) as u32)
}

fn rotr64(a: u64, b: u64) -> u64
    ensures { result ≡ rotr 64 a (b % 64) }
{
    a.rotate_right((b % 64) as u32)
}
