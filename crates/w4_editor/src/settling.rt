//! Bringing a kept list up to date.

ghost use Rattle.std.specs.Prelude.{◌≡◌, ◌+◌, ◌-◌, ◌<◌, true, IsOk, OnErr, OnOk, length, Some};
ghost use Rattle.w4_defs.specs.KeptList.{IsSettled, SamePlaces, computed, doubtful, linked_at};
ghost use Rattle.w4_defs.specs.KeptList.{place_at, HasTrueLinks};
ghost use Rattle.w4_defs.specs.FramesRun.{RunsAtMost};
ghost use Rattle.w4_defs.specs.State.{HasGlobals};
ghost use Rattle.w4_editor.specs.Player.{in_state, player_setup};
ghost use Rattle.w4_editor.specs.Settling.{AreLinked, IsComputed, StaysConsistent};

use crate::kept::Kept;
use crate::kept_list::{entry_at, link_at, replace_at};
use crate::player::Player;
use std::alloc::Global;
use std::sync::ledger::Ledger;
use w4_defs::{Input, OutOfMemory, Steps};

/// Puts the state that the inputs between entries `i` and `i + 1` make of the state of entry `i`.
fn compute<L: Ledger>(
    player: &mut Player,
    inputs: &[Input],
    kept: &[Kept],
    i: usize,
    steps: &mut Steps<L>,
)
    requires there { i + 1 < length kept.now }
    requires kept { HasTrueLinks (player_setup player.old) inputs.now kept.now }
    ensures computed { computed (player_setup player.old) inputs.now kept.now i ≡ Some player.new.state }
    ensures same { player.new ≡ in_state player.old player.new.state }
    ensures globals { HasGlobals player.new.cart player.new.state }
    ensures ticks { steps.new ≡ steps.old + (place_at kept.now (i + 1) - place_at kept.now i) }
{
    let from = entry_at(kept, i);
    let to = entry_at(kept, i + 1);
    player.restore(from.snap());
    player.run(&inputs[from.place()..to.place()], steps);
}

/// Brings entry `i + 1` up to date. If its state is found unchanged it is linked, and the replay may end;
/// otherwise the new state is put and the entry after it unlinked.
fn settle_one<L: Ledger>(
    alloc: Global,
    player: &mut Player,
    inputs: &[Input],
    kept: &mut [Kept],
    i: usize,
    steps: &mut Steps<L>,
) -> Result<(), OutOfMemory>
    requires there { i + 1 < length kept.old }
    requires kept { HasTrueLinks (player_setup player.old) inputs.now kept.old }
    ensures ok { OnOk result (IsComputed (player_setup player.old) inputs.now i kept.old kept.new) }
    ensures err { OnErr result (kept.new ≡ kept.old) }
    ensures same { player.new ≡ in_state player.old player.new.state }
    ensures ticks { steps.new ≡ steps.old + (place_at kept.old (i + 1) - place_at kept.old i) }
{
    compute(player, inputs, kept, i, steps);
    if entry_at(kept, i + 1).snap().same(player.state()) {
        link_at(kept, i + 1);
        return Ok(());
    }
    let (snap, _copied) = player.capture(alloc, Some(entry_at(kept, i).snap()))?;
    replace_at(kept, i + 1, snap);
    Ok(())
}

/// Brings the entries up to `last` up to date, in order. If memory is refused, those before are done and the
/// list is still true.
pub(crate) fn settle<L: Ledger>(
    alloc: Global,
    player: &mut Player,
    inputs: &[Input],
    kept: &mut [Kept],
    last: usize,
    steps: &mut Steps<L>,
) -> Result<(), OutOfMemory>
    requires there { last < length kept.old }
    requires first { linked_at kept.old 0 ≡ true }
    requires kept { HasTrueLinks (player_setup player.old) inputs.now kept.old }
    ensures kept { HasTrueLinks (player_setup player.old) inputs.now kept.new }
    ensures places { SamePlaces kept.old kept.new }
    ensures consistent { StaysConsistent (player_setup player.old) inputs.now kept.old kept.new }
    ensures settled { OnOk result (IsSettled last kept.old kept.new) }
    ensures frames_run { OnOk result (RunsAtMost steps.old steps.new (doubtful kept.old kept.new last)) }
    ensures same { player.new ≡ in_state player.old player.new.state }
    ensures linked { AreLinked last kept.old → IsOk result }
{
    for i in 0..last {
        if !entry_at(kept, i + 1).linked() {
            settle_one(alloc, player, inputs, kept, i, steps)?;
        }
    }
    Ok(())
}
