//! The line of a refused order.

ghost use Rattle.std.specs.Prelude.{◌≢◌, ◌⊎◌};
ghost use Rattle.w4_defs.specs.declared.editing.EditRefusal.TheVariants.{OutOfMemory as MemoryRefused};
ghost use Rattle.w4_defs.specs.World.{LeavesWriting};
ghost use Rattle.w4_defs.specs.ScriptAnswers.{refusal_words, refused_line};
ghost use Rattle.w4_answers.specs.Writing.{Written, WritesNothing};

use crate::shape::Shape;
use std::alloc::Global;
use w4_defs::{EditRefusal, Refusal};
use w4_house::House;

/// Writes the line of an order that is refused. If memory ran out, the run ends.
pub fn refuse<S: Shape, H: House>(
    alloc: Global,
    house: &mut H,
    refusal: EditRefusal,
) -> Result<(), Refusal>
    ensures out { Written (H.world house.old) (H.world house.new) result
        (S.form (refused_line (refusal_words refusal))) }
    ensures cause { (refusal ≢ MemoryRefused)
        ⊎ WritesNothing (H.world house.old) (H.world house.new) result }
    ensures rest { LeavesWriting (H.world house.old) (H.world house.new) }
{
    match refusal {
        EditRefusal::NoFrame => S::write(alloc, house, b"refused no frame\n"),
        EditRefusal::FullRecording => S::write(alloc, house, b"refused full\n"),
        EditRefusal::NothingToUndo => S::write(alloc, house, b"refused nothing to undo\n"),
        EditRefusal::NothingToRedo => S::write(alloc, house, b"refused nothing to redo\n"),
        EditRefusal::Kept => S::write(alloc, house, b"refused kept\n"),
        EditRefusal::NotKept => S::write(alloc, house, b"refused not kept\n"),
        EditRefusal::FullSnapshots => S::write(alloc, house, b"refused full\n"),
        EditRefusal::OutOfMemory => Err(Refusal::OutOfMemory),
    }
}
