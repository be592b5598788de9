//! What is done to a recording's kept list and to the player: showing, moving on, settling and keeping.

ghost use Rattle.std.specs.Prelude.{◌≡◌, ℕ, ◌+◌, ◌-◌, ◌<◌, ◌≤◌, ◌↔◌, true, IfNone, IfOk, IfSome, IsOk, IsTrue};
ghost use Rattle.std.specs.Prelude.{OnErr, OnOk};
ghost use Rattle.std.specs.Prelude.{length, Some};
ghost use Rattle.w4_console.specs.Calls.{moment};
ghost use Rattle.w4_defs.specs.KeptList.{IsSettled, SamePlaces, kept_entries, last_up_to, linked_at};
ghost use Rattle.w4_defs.specs.KeptList.{HasTrueLinks};
ghost use Rattle.w4_defs.specs.KeptList.{place_at, relinked_at, replaced_at, settle_frames, show_frames};
ghost use Rattle.w4_defs.specs.FramesRun.{RunsAtMost};
ghost use Rattle.w4_defs.specs.State.{HasGlobals};
ghost use Rattle.w4_defs.specs.Session.{keep_refusal, with_kept};
ghost use Rattle.w4_editor.specs.Player.{in_state, player_setup};
ghost use Rattle.w4_editor.specs.Settling.{AreLinked, StaysConsistent};
ghost use Rattle.w4_editor.specs.Showing.{IsOfRun, MovesOn, ShowsFrom, TakesOn, copied_beside, linked_entry};

use crate::kept::Kept;
use crate::kept_list::{entry_at, first_above, insert_entry, is_kept, link_at, replace_at};
use crate::player::{Player, capture_alone};
use crate::settling::settle;
use std::alloc::Global;
use std::sync::ledger::Ledger;
use w4_console::FrameTaken;
use w4_defs::{EditRefusal, Input, OutOfMemory, Steps};
use w4_devices::FrameRecord;
use w4_map::State;
use w4_record::Recording;

/// How many places may be kept, place 0 among them.
pub const MOST_KEPT: usize = 1_024;

/// Puts the state at place `p`, from the last kept place up to it, which is brought up to date first.
pub(crate) fn show<L: Ledger>(
    alloc: Global,
    player: &mut Player,
    recording: &Recording,
    kept: &mut Vec<Kept>,
    p: usize,
    steps: &mut Steps<L>,
) -> Result<(), OutOfMemory>
    requires place { p ≤ length recording.now.frames }
    requires some { 0 < length kept.old.items }
    requires begin { place_at kept.old.items 0 ≡ 0 }
    requires first { linked_at kept.old.items 0 ≡ true }
    requires kept { HasTrueLinks (player_setup player.old) recording.now.frames kept.old.items }
    ensures consistent { StaysConsistent (player_setup player.old) recording.now.frames
        kept.old.items kept.new.items }
    ensures places { SamePlaces kept.old.items kept.new.items }
    ensures settled { OnOk result (IsSettled (last_up_to p kept.old.items) kept.old.items kept.new.items) }
    ensures state { OnOk result
        (IsOfRun (player_setup player.old) recording.now.frames kept.old.items p player.new.state) }
    ensures frames_run { OnOk result
        (RunsAtMost steps.old steps.new (show_frames p kept.old.items kept.new.items)) }
    ensures same { player.new ≡ in_state player.old player.new.state }
    ensures linked { AreLinked (last_up_to p kept.old.items) kept.old.items → IsOk result }
{
    let inputs = recording.frames.as_slice();
    show_place(alloc, player, inputs, kept.as_mut_slice(), p, steps)
}

/// Brings all entries up to date.
pub(crate) fn settle_all<L: Ledger>(
    alloc: Global,
    player: &mut Player,
    recording: &Recording,
    kept: &mut Vec<Kept>,
    steps: &mut Steps<L>,
) -> Result<(), OutOfMemory>
    requires some { 0 < length kept.old.items }
    requires first { linked_at kept.old.items 0 ≡ true }
    requires kept { HasTrueLinks (player_setup player.old) recording.now.frames kept.old.items }
    ensures consistent { StaysConsistent (player_setup player.old) recording.now.frames
        kept.old.items kept.new.items }
    ensures places { SamePlaces kept.old.items kept.new.items }
    ensures settled { OnOk result (IsSettled (length kept.old.items - 1) kept.old.items kept.new.items) }
    ensures frames_run { OnOk result
        (RunsAtMost steps.old steps.new (settle_frames kept.old.items kept.new.items)) }
    ensures same { player.new ≡ in_state player.old player.new.state }
    ensures linked { AreLinked (length kept.old.items - 1) kept.old.items → IsOk result }
{
    let inputs = recording.frames.as_slice();
    let last = kept.len() - 1;
    settle(alloc, player, inputs, kept.as_mut_slice(), last, steps)
}

/// Puts the state at place `p`, from the last entry up to it, which is brought up to date first.
fn show_place<L: Ledger>(
    alloc: Global,
    player: &mut Player,
    inputs: &[Input],
    kept: &mut [Kept],
    p: usize,
    steps: &mut Steps<L>,
) -> Result<(), OutOfMemory>
    requires place { p ≤ length inputs.now }
    requires some { 0 < length kept.old }
    requires begin { place_at kept.old 0 ≡ 0 }
    requires first { linked_at kept.old 0 ≡ true }
    requires kept { HasTrueLinks (player_setup player.old) inputs.now kept.old }
    ensures consistent { StaysConsistent (player_setup player.old) inputs.now kept.old kept.new }
    ensures places { SamePlaces kept.old kept.new }
    ensures settled { OnOk result (IsSettled (last_up_to p kept.old) kept.old kept.new) }
    ensures state { OnOk result (IsOfRun (player_setup player.old) inputs.now kept.old p player.new.state) }
    ensures frames_run { OnOk result (RunsAtMost steps.old steps.new (show_frames p kept.old kept.new)) }
    ensures same { player.new ≡ in_state player.old player.new.state }
    ensures linked { AreLinked (last_up_to p kept.old) kept.old → IsOk result }
{
    let last = last_up_to(kept, p);
    settle(alloc, player, inputs, kept, last, steps)?;
    run_from_entry(player, inputs, kept, last, p, steps);
    Ok(())
}

/// Whether the entries up to place `p` are linked; the first always is.
pub(crate) fn are_linked_up_to(kept: &[Kept], p: usize) -> bool
    requires some { 0 < length kept.now }
    requires first { linked_at kept.now 0 ≡ true }
    ensures { IsTrue result ↔ AreLinked (last_up_to p kept.now) kept.now }
{
    let last = last_up_to(kept, p);
    for i in 0..last {
        if !entry_at(kept, i + 1).linked() {
            return false;
        }
    }
    true
}

/// The last entry up to place `p`.
fn last_up_to(kept: &[Kept], p: usize) -> usize
    ensures { result ≡ last_up_to p kept.now }
{
    first_above(kept, p).saturating_sub(1)
}

/// Puts the state at place `p`, from entry `i`.
fn run_from_entry<L: Ledger>(
    player: &mut Player,
    inputs: &[Input],
    kept: &[Kept],
    i: usize,
    p: usize,
    steps: &mut Steps<L>,
)
    requires there { i < length kept.now }
    requires from { place_at kept.now i ≤ p }
    requires place { p ≤ length inputs.now }
    requires kept { HasTrueLinks (player_setup player.old) inputs.now kept.now }
    ensures state { ShowsFrom (player_setup player.old) inputs.now kept.now i p player.new.state }
    ensures same { player.new ≡ in_state player.old player.new.state }
    ensures ticks { steps.new ≡ steps.old + (p - place_at kept.now i) }
{
    let from = entry_at(kept, i);
    player.restore(from.snap());
    player.run(&inputs[from.place()..p], steps);
}

/// Goes on from place `p` to the next. What the frame took.
pub(crate) fn move_on<L: Ledger>(
    player: &mut Player,
    recording: &Recording,
    p: usize,
    frame_record: &mut FrameRecord,
    steps: &mut Steps<L>,
) -> FrameTaken
    requires { p < length recording.now.frames }
    ensures moment { MovesOn (player_setup player.old) recording.now.frames p
        player.old.state (moment player.new.state frame_record.new) }
    ensures taken { TakesOn (player_setup player.old) recording.now.frames p player.old.state result }
    ensures same { player.new ≡ in_state player.old player.new.state }
    ensures ticks { steps.new ≡ steps.old + 1 }
{
    player.frame(&recording.frames[p], frame_record, steps)
}

/// Why place `p` may not be kept.
pub(crate) fn keep_refusal(recording: &Recording, kept: &Vec<Kept>, p: usize) -> Option<EditRefusal>
    ensures { result ≡ keep_refusal kept_entries p
        (record { inputs = recording.now.frames; kept = kept.now.items }) }
{
    if p > recording.frames.len() {
        return Some(EditRefusal::NoFrame);
    }
    if is_kept(kept.as_slice(), p) {
        return Some(EditRefusal::Kept);
    }
    if kept.len() >= MOST_KEPT {
        return Some(EditRefusal::FullSnapshots);
    }
    None
}

/// Keeps the state that is shown, as that of place `p`, and says how many chunks were copied. Errors:
/// OutOfMemory, and then nothing has changed.
pub(crate) fn keep(
    alloc: Global,
    player: &Player,
    kept: &mut Vec<Kept>,
    p: usize,
) -> Result<u32, OutOfMemory>
    requires { 0 < length kept.old.items }
    ensures ok { OnOk result (kept.new.items
        ≡ with_kept kept_entries (linked_entry p player.now.state) kept.old.items) }
    ensures copied { IfOk result (λ copied. copied ≡ copied_beside p player.now.state kept.old.items) }
    ensures err { OnErr result (kept.new.items ≡ kept.old.items) }
    ensures globals { HasGlobals player.now.cart player.now.state }
{
    let last = last_up_to(kept.as_slice(), p);
    let before = entry_at(kept.as_slice(), last);
    let (snap, copied) = player.capture(alloc, Some(before.snap()))?;
    insert_entry(kept, Kept::new(p, snap))?;
    Ok(copied)
}

/// Links entry `i`, which keeps its state.
pub(crate) fn link(kept: &mut Vec<Kept>, i: usize)
    requires { i < length kept.old.items }
    ensures { kept.new.items ≡ relinked_at i kept.old.items }
{
    link_at(kept.as_mut_slice(), i);
}

/// Puts another state into entry `i` of 1 or more and links it; the entry after it, if there is one, is
/// unlinked. Errors: OutOfMemory, and then nothing has changed.
pub(crate) fn replace(
    alloc: Global,
    kept: &mut Vec<Kept>,
    i: usize,
    state: &State,
) -> Result<(), OutOfMemory>
    requires there { i < length kept.old.items }
    requires some { 1 ≤ i }
    ensures ok { OnOk result (kept.new.items ≡ replaced_at i state.now kept.old.items) }
    ensures err { OnErr result (kept.new.items ≡ kept.old.items) }
{
    let before = entry_at(kept.as_slice(), i - 1);
    let (snap, _copied) = capture_alone(alloc, Some(before.snap()), state)?;
    replace_at(kept.as_mut_slice(), i, snap);
    Ok(())
}

/// The place that is shown, if it isn't the last.
pub(crate) fn shown_before_end(at: Option<usize>, recording: &Recording) -> Option<usize>
    ensures some { IfSome result (λ p. (at ≡ Some p) × (p < length recording.now.frames)) }
    ensures none { IfNone result ((p : ℕ) → at ≡ Some p → length recording.now.frames ≤ p) }
{
    let end = recording.frames.len();
    match at {
        Some(p) if p < end => Some(p),
        _ => None,
    }
}
