//! The operations at 32 bits, one table a shape, in the order of the standard's tables. Counts of shifts
//! and rotations are taken modulo 32.

ghost use Rattle.std.specs.Prelude.{◌≡◌, ◌%◌};
ghost use Rattle.w4_defs.specs.Integers.{unary, binary, compare, rotl, rotr};

use crate::division::{div_s32, div_u32, rem_s32, rem_u32};
use crate::sign::{signed32, wrapped32};
use w4_defs::{Binary, Cause, Compare, Unary};

/// A count of the operand's binary digits. The counts of zeros of 0 are 32.
pub fn unary32(op: Unary, a: u32) -> u32
    ensures { result ≡ unary 32 op a }
{
    match op {
        Unary::Clz => a.leading_zeros(),
        Unary::Ctz => a.trailing_zeros(),
        Unary::Popcnt => a.count_ones(),
    }
}

/// The operation's value modulo 2^32. DivideByZero where a division or a remainder has the divisor 0,
/// Overflow where the least signed number is divided by -1.
pub fn binary32(op: Binary, a: u32, b: u32) -> Result<u32, Cause>
    ensures { result ≡ binary 32 op a b }
{
    match op {
        Binary::Add => Ok(a.wrapping_add(b)),
        Binary::Sub => Ok(a.wrapping_sub(b)),
        Binary::Mul => Ok(a.wrapping_mul(b)),
        Binary::DivS => div_s32(a, b),
        Binary::DivU => div_u32(a, b),
        Binary::RemS => rem_s32(a, b),
        Binary::RemU => rem_u32(a, b),
        Binary::And => Ok(a & b),
        Binary::Or => Ok(a | b),
        Binary::Xor => Ok(a ^ b),
        Binary::Shl => Ok(a << (b % 32)),
        Binary::ShrS => Ok(wrapped32(signed32(a) >> (b % 32))),
        Binary::ShrU => Ok(a >> (b % 32)),
        Binary::Rotl => Ok(rotl32(a, b)),
        Binary::Rotr => Ok(rotr32(a, b)),
    }
}

/// Whether the comparison holds.
pub fn compare32(op: Compare, a: u32, b: u32) -> bool
    ensures { result ≡ compare 32 op a b }
{
    match op {
        Compare::Eq => a == b,
        Compare::Ne => a != b,
        Compare::LtS => signed32(a) < signed32(b),
        Compare::LtU => a < b,
        Compare::GtS => signed32(a) > signed32(b),
        Compare::GtU => a > b,
        Compare::LeS => signed32(a) <= signed32(b),
        Compare::LeU => a <= b,
        Compare::GeS => signed32(a) >= signed32(b),
        Compare::GeU => a >= b,
    }
}

fn rotl32(a: u32, b: u32) -> u32
    ensures { result ≡ rotl 32 a (b % 32) }
{
    a.rotate_left(b)
}

fn rotr32(a: u32, b: u32) -> u32
    ensures { result ≡ rotr 32 a (b % 32) }
{
    a.rotate_right(b)
}
