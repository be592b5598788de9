//! Rounds of settling. A round runs segments that aren't linked side by side, each from the state that is
//! kept before it, and the calling thread alone compares what came of them with what is kept.

ghost use Rattle.std.specs.Prelude.{◌≡◌, ℕ, ◌+◌, ◌-◌, ◌<◌, ◌≤◌, All, IfOk, IsFalse, IsTrue, None, OnOk, Some, length, slice_index_or, true};
ghost use Rattle.w4_defs.specs.KeptList.{IsDraft, computed, linked_at};
ghost use Rattle.w4_defs.specs.FramesRun.{RunsAtMost};
ghost use Rattle.w4_defs.specs.State.{HasGlobals};
ghost use Rattle.w4_console.specs.Calls.{setup_of};
ghost use Rattle.w4_editor.specs.Editor.{editing_setup};
ghost use Rattle.w4_editor.specs.Settling.{AreLinked};
ghost use Rattle.w4_segments.specs.Filming.{KeepsShown};
ghost use Rattle.w4_segments.specs.Rounds.{
  AreComputed,
  AreDealt,
  CanTake,
  IsDealt,
  LinksNext,
  IsTaken,
  LengthensFront,
  CanPlay,
  HasPlayed,
};
ghost use Rattle.w4_segments.specs.declared.worker.Task.{Task};
ghost use Rattle.w4_segments.specs.declared.worker.Worker.{Worker};
ghost use Rattle.w4_segments.specs.Worker.{EachDid, HasCartTypes};

use crate::gate::Gate;
use crate::resources::Resources;
use crate::worker::{Task, Worker};
use std::alloc::Global;
use std::sync::ledger::Ledger;
use std::thread;
use std::thread::Threads;
use w4_console::Setup;
use w4_defs::{OutOfMemory, Steps};
use w4_editor::Editor;
use w4_map::State;
use w4_record::Recording;

/// Links all entries up to `last`, in at most `last` rounds, each of which is one step: each one lengthens
/// the linked front of the list.
pub(crate) fn settle_rounds<R: Threads + Sync, G: Gate + Sync, L: Ledger>(
    resources: &Resources<'_, R, G>,
    editor: &mut Editor,
    last: usize,
    worker_list: &mut [Worker],
    rounds: &mut Steps<L>,
) -> Result<(), OutOfMemory>
    requires there { last < length editor.old.session.current.kept }
    requires some { 0 < length worker_list.old }
    requires types { All (HasCartTypes editor.old.cart) worker_list.old }
    ensures linked { OnOk result (AreLinked last editor.new.session.current.kept) }
    ensures keeps { KeepsShown editor.old editor.new }
    ensures many { length worker_list.new ≡ length worker_list.old }
    ensures types { OnOk result (All (HasCartTypes editor.old.cart) worker_list.new) }
    ensures rounds { RunsAtMost rounds.old rounds.new last }
{
    is_consistent(editor);
    for _ in 0..last {
        if !settle_round(resources, editor, last, worker_list, rounds)? {
            return Ok(());
        }
    }
    Ok(())
}

/// One round, which is one step; whether there was anything to do.
fn settle_round<R: Threads + Sync, G: Gate + Sync, L: Ledger>(
    resources: &Resources<'_, R, G>,
    editor: &mut Editor,
    last: usize,
    worker_list: &mut [Worker],
    rounds: &mut Steps<L>,
) -> Result<bool, OutOfMemory>
    requires there { last < length editor.old.session.current.kept }
    requires some { 0 < length worker_list.old }
    requires types { All (HasCartTypes editor.old.cart) worker_list.old }
    ensures none { IfOk result (λ found. IsFalse found → AreLinked last editor.new.session.current.kept) }
    ensures front { IfOk result (λ found. IsTrue found → (m : ℕ) → m < last →
        AreLinked m editor.old.session.current.kept
        → AreLinked (m + 1) editor.new.session.current.kept) }
    ensures keeps { KeepsShown editor.old editor.new }
    ensures many { length worker_list.new ≡ length worker_list.old }
    ensures types { OnOk result (All (HasCartTypes editor.old.cart) worker_list.new) }
    ensures round { rounds.new ≡ rounds.old + 1 }
{
    rounds.tick();
    is_consistent(editor);
    deal_segments(editor, last, worker_list);
    if is_idle(worker_list) {
        return Ok(false);
    }
    play_all(
        resources.rt,
        resources.gate,
        &editor.setup(),
        editor.recording(),
        worker_list,
    );
    take_all(resources.alloc, editor, last, worker_list)?;
    Ok(true)
}

/// Whether the workers have nothing to do: the first of them is the first to have a task.
fn is_idle(worker_list: &[Worker]) -> bool
    requires { 0 < length worker_list.now }
    ensures idle { IsTrue result → (d : Worker) → (slice_index_or worker_list.now 0 d).task ≡ None }
    ensures busy { IsFalse result → (task : Task) × ((d : Worker)
        → (slice_index_or worker_list.now 0 d).task ≡ Some task) }
{
    worker_list[0].task.is_none()
}

/// Gives each worker a segment that isn't linked, in order, as long as there are any.
fn deal_segments(editor: &Editor, last: usize, worker_list: &mut [Worker])
    requires there { last < length editor.now.session.current.kept }
    requires types { All (HasCartTypes editor.now.cart) worker_list.old }
    ensures { AreDealt editor.now last worker_list.old worker_list.new }
{
    let mut next = 0;
    for worker_index in 0..worker_list.len() {
        next = deal_segment(
            editor,
            worker_index,
            next,
            last,
            &mut worker_list[worker_index],
        );
    }
}

/// Gives a worker the first segment from entry `from` on that isn't linked; returns the entry after it.
fn deal_segment(
    editor: &Editor,
    number: usize,
    from: usize,
    last: usize,
    worker: &mut Worker,
) -> usize
    requires there { last < length editor.now.session.current.kept }
    requires from { from ≤ last }
    requires types { HasCartTypes editor.now.cart worker.old }
    ensures { IsDealt editor.now from last result worker.new }
{
    let entry = first_unlinked(editor, from, last);
    if entry == last {
        worker.task = None;
        return last;
    }
    is_consistent(editor);
    let end = editor.kept_place(entry + 1);
    editor.kept_restore(entry, worker.console.state_mut());
    worker.task = Some(Task {
        number,
        entry,
        place: editor.kept_place(entry),
        first: end,
        end,
    });
    entry + 1
}

/// A fact for callers, which costs nothing: the kept list is consistent, and the recording within its limits.
pub(crate) fn is_consistent(editor: &Editor)
    ensures { IsDraft (editing_setup editor.now) editor.now.disk editor.now.session.current }
{
    editor.session_is_consistent();
}

/// How many of the entries up to `last` aren't linked.
pub(crate) fn unlinked(editor: &Editor, last: usize) -> usize
    requires { last < length editor.now.session.current.kept }
    ensures none { result ≡ 0 → AreLinked last editor.now.session.current.kept }
    ensures all { AreLinked last editor.now.session.current.kept → result ≡ 0 }
    ensures few { result ≤ last }
{
    is_consistent(editor);
    let mut count = 0;
    for entry in 0..last {
        if !editor.kept_linked(entry + 1) {
            count += 1;
        }
    }
    count
}

/// The first entry from `from` on after which there is no link, or `last`.
fn first_unlinked(editor: &Editor, from: usize, last: usize) -> usize
    requires there { last < length editor.now.session.current.kept }
    requires from { from ≤ last }
    ensures order { (from ≤ result) × (result ≤ last) }
    ensures before { (i : ℕ) → from ≤ i → i < result
        → linked_at editor.now.session.current.kept (i + 1) ≡ true }
    ensures here { result < last → IsFalse (linked_at editor.now.session.current.kept (result + 1)) }
{
    for entry in from..last {
        if !editor.kept_linked(entry + 1) {
            return entry;
        }
    }
    last
}

/// All workers play their segments, side by side.
fn play_all<R: Threads + Sync, G: Gate + Sync>(
    rt: &R,
    gate: &G,
    setup: &Setup<'_>,
    recording: &Recording,
    worker_list: &mut [Worker],
)
    requires { All (CanPlay setup.now.cart.now recording.now.frames) worker_list.old }
    ensures { EachDid (HasPlayed (setup_of setup.now) recording.now.frames) worker_list.old worker_list.new }
{
    let worker_count = worker_list.len().max(1);
    thread::for_each_mut(
        rt,
        worker_list,
        worker_count,
        &|_, worker| play_one(gate, setup, recording, worker),
    );
}

/// A worker plays its segment, if it has one.
fn play_one<G: Gate>(gate: &G, setup: &Setup<'_>, recording: &Recording, worker: &mut Worker)
    requires { CanPlay setup.now.cart.now recording.now.frames worker.old }
    ensures { HasPlayed (setup_of setup.now) recording.now.frames worker.old worker.new }
{
    if let Some(task) = worker.task {
        gate.pass(task.number);
        worker
            .console
            .play(setup, &recording.frames[task.place..task.end]);
    }
}

/// Takes over what the workers played, in order. What was played from a state that has been replaced since
/// is thrown away.
fn take_all(
    alloc: Global,
    editor: &mut Editor,
    last: usize,
    worker_list: &[Worker],
) -> Result<(), OutOfMemory>
    requires there { last < length editor.old.session.current.kept }
    requires played { AreComputed editor.old last worker_list.now }
    ensures keeps { KeepsShown editor.old editor.new }
    ensures front { OnOk result (LengthensFront worker_list.now editor.old editor.new) }
{
    let mut replaced = None;
    for worker_index in 0..worker_list.len() {
        replaced = take_one(alloc, editor, &worker_list[worker_index], replaced)?;
    }
    Ok(())
}

/// Takes over what a worker played, unless its first state was replaced in this round; returns the entry
/// whose state was replaced last.
fn take_one(
    alloc: Global,
    editor: &mut Editor,
    worker: &Worker,
    replaced: Option<usize>,
) -> Result<Option<usize>, OutOfMemory>
    requires { CanTake editor.old replaced worker.now }
    ensures keeps { KeepsShown editor.old editor.new }
    ensures taken { IfOk result (λ last. IsTaken worker.now replaced last editor.old editor.new) }
{
    match worker.task {
        Some(task) if replaced != Some(task.entry) => {
            link_or_replace(alloc, editor, task.entry, worker.console.state(), replaced)
        }
        _ => Ok(replaced),
    }
}

/// Links the entry after `entry`. If another state was found than is kept, it is put in its place, and this
/// entry is returned as the one that was replaced last.
fn link_or_replace(
    alloc: Global,
    editor: &mut Editor,
    entry: usize,
    found: &State,
    replaced: Option<usize>,
) -> Result<Option<usize>, OutOfMemory>
    requires there { entry + 1 < length editor.old.session.current.kept }
    requires found { computed (editing_setup editor.old) editor.old.session.current.inputs
        editor.old.session.current.kept entry ≡ Some found.now }
    requires globals { HasGlobals editor.old.cart found.now }
    ensures keeps { KeepsShown editor.old editor.new }
    ensures put { IfOk result (λ last. LinksNext entry replaced last editor.old editor.new) }
{
    is_consistent(editor);
    if editor.kept_same(entry + 1, found) {
        editor.link(entry + 1);
        return Ok(replaced);
    }
    editor.replace(alloc, entry + 1, found)?;
    Ok(Some(entry + 1))
}
