//! Settling by many workers.

ghost use Rattle.std.specs.Prelude.{◌≡◌, ◌-◌, ◌<◌, ◌⊎◌, IsOk, None, OnErr, OnOk, length};
ghost use Rattle.w4_defs.specs.FramesRun.{RunsAtMost};
ghost use Rattle.w4_editor.specs.Settling.{AreLinked};
ghost use Rattle.w4_editor.specs.Playing.{KeepsRecording};
ghost use Rattle.w4_console.specs.Counting.{IsBlankOf};
ghost use Rattle.w4_segments.specs.Filming.{KeepsShown};
ghost use Rattle.w4_segments.specs.Settling.{AreAllLinked, IsPartlySettled, IsSettledWide};

use crate::gate::Gate;
use crate::resources::Resources;
use crate::rounds::{is_consistent, settle_rounds, unlinked};
use crate::worker::new_workers;
use crate::workers::Workers;
use std::alloc::Global;
use std::marker::Brand;
use std::sync::ledger::{Blank, Ledger};
use std::thread::Threads;
use w4_defs::{OutOfMemory, Steps};
use w4_editor::Editor;

/// Brings all kept places up to date, as `Editor::settle` does, by this many workers; a piece of a round is
/// one segment that isn't linked. No place is shown then. Takes no memory where they are linked. Errors:
/// OutOfMemory, and then kept states and links may be newer, and the place that was shown still is, or none
/// is.
pub fn settle_wide<R: Threads + Sync, G: Gate + Sync>(
    resources: &Resources<'_, R, G>,
    editor: &mut Editor,
    workers: Workers,
) -> Result<(), OutOfMemory>
    ensures ok { OnOk result (IsSettledWide editor.old editor.new) }
    ensures err { OnErr result (IsPartlySettled editor.old editor.new) }
    ensures linked { AreAllLinked editor.old → IsOk result }
{
    settle_alone::<R, G, Brand>(resources, editor, workers, Blank::new(1))
}

/// The same work under a counter of its own.
fn settle_alone<R: Threads + Sync, G: Gate + Sync, L: Ledger>(
    resources: &Resources<'_, R, G>,
    editor: &mut Editor,
    workers: Workers,
    blank: Blank,
) -> Result<(), OutOfMemory>
    requires { IsBlankOf L.name L.parts blank }
    ensures ok { OnOk result (IsSettledWide editor.old editor.new) }
    ensures err { OnErr result (IsPartlySettled editor.old editor.new) }
    ensures linked { AreAllLinked editor.old → IsOk result }
{
    settle_wide_counted(resources, editor, workers, &mut Steps::<L>::new(blank))
}

/// The same work as `settle_wide`, where each round is one step: there are fewer rounds than kept places, and
/// none where these are linked.
pub fn settle_wide_counted<R: Threads + Sync, G: Gate + Sync, L: Ledger>(
    resources: &Resources<'_, R, G>,
    editor: &mut Editor,
    workers: Workers,
    rounds: &mut Steps<L>,
) -> Result<(), OutOfMemory>
    ensures ok { OnOk result (IsSettledWide editor.old editor.new) }
    ensures err { OnErr result (IsPartlySettled editor.old editor.new) }
    ensures linked { AreAllLinked editor.old → IsOk result }
    ensures rounds { RunsAtMost rounds.old rounds.new (length editor.old.session.current.kept - 1) }
    ensures idle { AreAllLinked editor.old → rounds.new ≡ rounds.old }
{
    let settled = settle_by_rounds(resources, editor, workers, rounds);
    editor.session_is_consistent();
    settled
}

/// Links all entries, and then settles.
fn settle_by_rounds<R: Threads + Sync, G: Gate + Sync, L: Ledger>(
    resources: &Resources<'_, R, G>,
    editor: &mut Editor,
    workers: Workers,
    rounds: &mut Steps<L>,
) -> Result<(), OutOfMemory>
    ensures ok { OnOk result (IsSettledWide editor.old editor.new) }
    ensures err { OnErr result (KeepsRecording editor.old editor.new) }
    ensures at { OnErr result ((editor.new.at ≡ editor.old.at) ⊎ (editor.new.at ≡ None)) }
    ensures linked { AreAllLinked editor.old → IsOk result }
    ensures rounds { RunsAtMost rounds.old rounds.new (length editor.old.session.current.kept - 1) }
    ensures idle { AreAllLinked editor.old → rounds.new ≡ rounds.old }
{
    link_all(resources, editor, workers, rounds)?;
    settle::<Brand>(resources.alloc, editor, Blank::new(1))
}

/// Links all entries. Takes no memory and no round if they are linked.
fn link_all<R: Threads + Sync, G: Gate + Sync, L: Ledger>(
    resources: &Resources<'_, R, G>,
    editor: &mut Editor,
    workers: Workers,
    rounds: &mut Steps<L>,
) -> Result<(), OutOfMemory>
    ensures linked { OnOk result (AreLinked (length editor.old.session.current.kept - 1)
        editor.new.session.current.kept) }
    ensures keeps { KeepsShown editor.old editor.new }
    ensures all_linked { AreAllLinked editor.old → IsOk result }
    ensures rounds { RunsAtMost rounds.old rounds.new (length editor.old.session.current.kept - 1) }
    ensures idle { AreAllLinked editor.old → rounds.new ≡ rounds.old }
{
    let last = last_entry(editor);
    let owed = unlinked(editor, last);
    if owed == 0 {
        return Ok(());
    }
    let mut worker_list = new_workers(resources.alloc, editor.cart(), owed.min(workers.count))?;
    settle_rounds(resources, editor, last, worker_list.as_mut_slice(), rounds)
}

/// The last entry; entry 0 is always there.
fn last_entry(editor: &Editor) -> usize
    ensures last { result ≡ length editor.now.session.current.kept - 1 }
    ensures there { result < length editor.now.session.current.kept }
{
    is_consistent(editor);
    editor.kept_count() - 1
}

/// Settles under a counter of its own. If all is linked it runs no frame.
fn settle<L: Ledger>(alloc: Global, editor: &mut Editor, blank: Blank) -> Result<(), OutOfMemory>
    requires { IsBlankOf L.name L.parts blank }
    ensures ok { OnOk result (IsSettledWide editor.old editor.new) }
    ensures err { OnErr result (KeepsRecording editor.old editor.new) }
    ensures at { OnErr result (editor.new.at ≡ None) }
    ensures linked { AreAllLinked editor.old → IsOk result }
{
    editor
        .settle(alloc, &mut Steps::<L>::new(blank))
        .map_err(|_| OutOfMemory)
}
