//! Samples as bytes.

ghost use Rattle.std.specs.Prelude.{◌≡◌, ◌+◌, ◌++◌, ◌+ℤ◌, ◌≤◌, FitsSigned};
ghost use Rattle.std.specs.Int.{cast_unsigned, to_le_bytes, w16};
ghost use Rattle.w4_defs.specs.Bytes.{replaced};

use crate::output::TICKS;

/// The bytes of a frame: at each tick, a sample of two bytes for the left and one for the right.
pub const FRAME_LEN: usize = 4 * TICKS;

pub fn put_sample(out: &mut [u8; FRAME_LEN], at: usize, sample: [u8; 4])
    requires { at + 4 ≤ 2940 }
    ensures { out.new ≡ replaced out.old at 4 sample }
{
    out[at..at + 4].copy_from_slice(&sample);
}

/// The bytes of one sample of each side.
pub fn sample(left: i32, right: i32) -> [u8; 4]
    requires left { FitsSigned w16 left }
    requires right { FitsSigned w16 right }
    ensures { result ≡ to_le_bytes w16 (cast_unsigned w16 left) ++ to_le_bytes w16 (cast_unsigned w16 right) }
{
    let [l0, l1] = (left as i16).to_le_bytes();
    let [r0, r1] = (right as i16).to_le_bytes();
    [l0, l1, r0, r1]
}

pub fn sum(first: i16, second: i16, third: i16, fourth: i16) -> i32
    ensures { result ≡ first +ℤ second +ℤ third +ℤ fourth }
{
    i32::from(first) + i32::from(second) + i32::from(third) + i32::from(fourth)
}
