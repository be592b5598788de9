//! Files that are replaced whole.

ghost use Rattle.w4_defs.specs.Recording.{encoding};
ghost use Rattle.w4_defs.specs.World.{LeavesSaving};
ghost use Rattle.w4_editor.specs.Editor.{current_recording};
ghost use Rattle.w4_answers.specs.Saving.{Replaces};

use crate::desk::Desk;
use std::alloc::Global;
use std::sync::ledger::Ledger;
use w4_defs::Refusal;
use w4_house::House;
use w4_record::write_recording;

/// Replaces the file with the recording as it is, in version 2.
pub fn save_recording<L: Ledger, H: House>(
    alloc: Global,
    house: &mut H,
    desk: &Desk<L>,
    out: &str,
) -> Result<(), Refusal>
    ensures saved { Replaces (H.world house.old) (H.world house.new) result out.now
        (encoding 2 (current_recording desk.now.counted.editor)) }
    ensures rest { LeavesSaving (H.world house.old) (H.world house.new) }
{
    let bytes = write_recording(alloc, desk.counted.editor.recording())?;
    save(alloc, house, out, bytes.as_slice())
}

/// Makes a file of exactly these bytes, replaced whole.
fn save<H: House>(alloc: Global, house: &mut H, name: &str, bytes: &[u8]) -> Result<(), Refusal>
    ensures saved { Replaces (H.world house.old) (H.world house.new) result name.now bytes.now }
    ensures rest { LeavesSaving (H.world house.old) (H.world house.new) }
{
    house.write_file(alloc, name, bytes)?;
    Ok(())
}
