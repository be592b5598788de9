//! Bytes on standard output.

ghost use Rattle.w4_defs.specs.World.{LeavesWriting};
ghost use Rattle.w4_answers.specs.Writing.{Written};

use std::alloc::Global;
use w4_defs::Refusal;
use w4_house::House;

/// Writes bytes to standard output.
pub fn write_bytes<H: House>(alloc: Global, house: &mut H, bytes: &[u8]) -> Result<(), Refusal>
    ensures out { Written (H.world house.old) (H.world house.new) result
        bytes.now }
    ensures rest { LeavesWriting (H.world house.old) (H.world house.new) }
{
    house.write_out(alloc, bytes)?;
    Ok(())
}
