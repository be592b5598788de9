//! Showing, stepping, settling and keeping.

ghost use Rattle.std.specs.Prelude.{◌≡◌, ◌≢◌, ℕ, ◌+◌, ◌-◌, ◌<◌, ◌≤◌, ◌↔◌, IfErr, IfOk, IsOk, IsTrue, None};
ghost use Rattle.std.specs.Prelude.{OnErr, OnOk, Some, length};
ghost use Rattle.w4_defs.specs.KeptList.{computed, kept_entries, last_up_to, relinked_at, replaced_at};
ghost use Rattle.w4_defs.specs.KeptList.{state_at};
ghost use Rattle.w4_defs.specs.Run.{run_state};
ghost use Rattle.w4_defs.specs.Session.{keep_refusal, place_refusal, with_list};
ghost use Rattle.w4_defs.specs.declared.editing.EditRefusal.TheVariants.{NoFrame, OutOfMemory as NoMemory};
ghost use Rattle.w4_console.specs.Taken.{TellsUnits};
ghost use Rattle.w4_devices.specs.Records.{record_of};
ghost use Rattle.w4_editor.specs.Editor.{editing_setup, with_session};
ghost use Rattle.w4_editor.specs.Settling.{AreLinked};
ghost use Rattle.w4_editor.specs.Playing.{
  AreOfRun,
  CanKeep,
  IsAllSettled,
  IsAtEnd,
  IsKeptAt,
  IsPut,
  IsCauseOrMemory,
  IsShown,
  IsStepped,
  KeepsRecording,
};

use crate::editor::Editor;
use crate::kept_list::entry_at;
use crate::player::has_types;
use crate::showing::{
    are_linked_up_to, keep, keep_refusal, link, move_on, replace, settle_all, show,
    shown_before_end,
};
use std::alloc::Global;
use std::sync::ledger::Ledger;
use w4_console::FrameTaken;
use w4_defs::{EditRefusal, OutOfMemory, Steps};
use w4_devices::FrameRecord;
use w4_map::State;

/// Showing.
impl Editor {
    ghost use Rattle.std.specs.Borrow.{sem};
    ghost use Rattle.w4_editor.specs.Playing.{LendsShown, LendsStepped};

    /// The state at place `p`, which is shown then. Kept places up to it are brought up to date first, if
    /// that is owed; each frame is one tick. Where it is shown already, and they are up to date, no frame is
    /// run. Takes no memory if the kept places up to `p` are linked. Errors:
    /// NoFrame if there is no such place, and then nothing has changed; OutOfMemory, and then no place is
    /// shown, kept states and links may be newer, and recording, history and kept places are unchanged.
    pub fn show<L: Ledger>(
        &mut self,
        alloc: Global,
        p: usize,
        steps: &mut Steps<L>,
    ) -> Result<&State, EditRefusal>
        ensures* frames_run { sem 𝓛 (LendsShown p steps.old steps.new self.entry result) }
        ensures state { IfOk result (λ state. run_state (editing_setup self.old) self.old.disk
            self.old.session.current.inputs p ≡ Some state.now) }
        ensures refused { IfErr result (IsCauseOrMemory (place_refusal p self.old.session.current)) }
        ensures accepted { OnOk result (place_refusal p self.old.session.current ≡ None) }
        ensures linked { p ≤ length self.old.session.current.inputs
            → AreLinked (last_up_to p self.old.session.current.kept) self.old.session.current.kept
            → IsOk result }
        ensures idle { self.old.at ≡ Some p
            → AreLinked (last_up_to p self.old.session.current.kept) self.old.session.current.kept
            → steps.new ≡ steps.old }
    {
        if p > self.recording.frames.len() {
            return Err(EditRefusal::NoFrame);
        }
        self.go_to(alloc, p, steps)?;
        Ok(self.state())
    }

    /// Shows a place that is there, as `show` does. Errors: OutOfMemory, and then no place is shown, kept
    /// states and links may be newer, and recording, history and kept places are unchanged.
    pub fn go_to<L: Ledger>(
        &mut self,
        alloc: Global,
        p: usize,
        steps: &mut Steps<L>,
    ) -> Result<(), OutOfMemory>
        requires { p ≤ length self.old.session.current.inputs }
        ensures ok { OnOk result (IsShown p steps.old steps.new self.old self.new) }
        ensures err { OnErr result (KeepsRecording self.old self.new) }
        ensures at { OnErr result (self.new.at ≡ None) }
        ensures linked { AreLinked (last_up_to p self.old.session.current.kept) self.old.session.current.kept
            → IsOk result }
        ensures idle { self.old.at ≡ Some p
            → AreLinked (last_up_to p self.old.session.current.kept) self.old.session.current.kept
            → steps.new ≡ steps.old }
    {
        if self.stands_at(p) {
            return Ok(());
        }
        self.play_to(alloc, p, steps)
    }

    /// Whether place `p` is shown and the kept places up to it are linked: nothing is left to do for it.
    fn stands_at(&self, p: usize) -> bool
        ensures { IsTrue result ↔ ((self.now.at ≡ Some p)
            × AreLinked (last_up_to p self.now.session.current.kept) self.now.session.current.kept) }
    {
        match self.at {
            Some(at) if at == p => are_linked_up_to(self.kept.as_slice(), p),
            _ => false,
        }
    }

    /// Goes to a place that is there, from the last kept place up to it. Errors: OutOfMemory, and then no
    /// place is shown.
    fn play_to<L: Ledger>(
        &mut self,
        alloc: Global,
        p: usize,
        steps: &mut Steps<L>,
    ) -> Result<(), OutOfMemory>
        requires { p ≤ length self.old.session.current.inputs }
        ensures ok { OnOk result (IsShown p steps.old steps.new self.old self.new) }
        ensures err { OnErr result (KeepsRecording self.old self.new) }
        ensures at { OnErr result (self.new.at ≡ None) }
        ensures linked { AreLinked (last_up_to p self.old.session.current.kept) self.old.session.current.kept
            → IsOk result }
    {
        self.at = None;
        show(
            alloc,
            &mut self.player,
            &self.recording,
            &mut self.kept,
            p,
            steps,
        )?;
        self.at = Some(p);
        Ok(())
    }

    /// The state at the place that is shown; where none is, a state of which nothing is said.
    pub fn state(&self) -> &State
        ensures { (p : ℕ) → self.now.at ≡ Some p
            → run_state (editing_setup self.now) self.now.disk self.now.session.current.inputs p
            ≡ Some result.now }
    {
        self.player.state()
    }

    /// The state at the place after the one that is shown, and in `frame_record` its record. That place is
    /// shown then. Runs one frame, and takes no memory. Errors: NoFrame if no place is shown, or the last
    /// one, and then nothing has changed.
    pub fn step<L: Ledger>(
        &mut self,
        frame_record: &mut FrameRecord,
        steps: &mut Steps<L>,
    ) -> Result<&State, EditRefusal>
        ensures* stepped { sem 𝓛 (LendsStepped (record_of frame_record.new) self.entry result) }
        ensures state { IfOk result (λ state. (p : ℕ) → self.old.at ≡ Some p
            → run_state (editing_setup self.old) self.old.disk self.old.session.current.inputs (p + 1)
            ≡ Some state.now) }
        ensures ticks { OnOk result (steps.new ≡ steps.old + 1) }
        ensures idle { OnErr result ((steps.new ≡ steps.old) × (frame_record.new ≡ frame_record.old)) }
        ensures refused { IfErr result (λ refusal. (refusal ≡ NoFrame) × IsAtEnd self.old) }
    {
        self.step_units(frame_record, steps)?;
        Ok(self.state())
    }

    /// What the frame takes that leads to the place after the one that is shown, and in `frame_record` its
    /// record. That place is shown then. Runs one frame, and takes no memory. Errors: NoFrame if no place is
    /// shown, or the last one, and then nothing has changed.
    pub fn step_units<L: Ledger>(
        &mut self,
        frame_record: &mut FrameRecord,
        steps: &mut Steps<L>,
    ) -> Result<FrameTaken, EditRefusal>
        ensures ok { OnOk result (IsStepped (record_of frame_record.new) self.old self.new) }
        ensures taken { IfOk result (λ taken. (p : ℕ) → self.old.at ≡ Some p
            → TellsUnits (editing_setup self.old) self.old.disk self.old.session.current.inputs p taken) }
        ensures ticks { OnOk result (steps.new ≡ steps.old + 1) }
        ensures idle { OnErr result ((steps.new ≡ steps.old) × (frame_record.new ≡ frame_record.old)) }
        ensures refused { IfErr result (λ refusal. (refusal ≡ NoFrame) × IsAtEnd self.old) }
        ensures unchanged { OnErr result (self.new ≡ self.old) }
    {
        let Some(p) = shown_before_end(self.at, &self.recording) else {
            return Err(EditRefusal::NoFrame);
        };
        let taken = move_on(&mut self.player, &self.recording, p, frame_record, steps);
        self.at = Some(p + 1);
        Ok(taken)
    }

    /// Brings all kept places up to date; each frame is one tick. No place is shown then. Takes no memory
    /// where they are linked. Errors: OutOfMemory, and then no place is shown either, kept states and links
    /// may be newer, and recording, history and kept places are unchanged.
    pub fn settle<L: Ledger>(
        &mut self,
        alloc: Global,
        steps: &mut Steps<L>,
    ) -> Result<(), EditRefusal>
        ensures ok { OnOk result (IsAllSettled steps.old steps.new self.old self.new) }
        ensures states { OnOk result (AreOfRun self.new) }
        ensures err { OnErr result (KeepsRecording self.old self.new) }
        ensures at { OnErr result (self.new.at ≡ None) }
        ensures refused { IfErr result (λ refusal. refusal ≡ NoMemory) }
        ensures linked { AreLinked (length self.old.session.current.kept - 1) self.old.session.current.kept
            → IsOk result }
    {
        self.at = None;
        settle_all(
            alloc,
            &mut self.player,
            &self.recording,
            &mut self.kept,
            steps,
        )?;
        Ok(())
    }
}

/// Keeping.
impl Editor {
    /// Shows place `p` and keeps it, and says how many chunks of 1,024 bytes were copied. Errors: NoFrame if
    /// there is no such place; Kept if it is kept; FullSnapshots if 1,024 places are; after these nothing has
    /// changed. OutOfMemory, and then no place is shown, kept states and links may be newer, and recording,
    /// history and kept places are unchanged.
    pub fn keep<L: Ledger>(
        &mut self,
        alloc: Global,
        p: usize,
        steps: &mut Steps<L>,
    ) -> Result<u32, EditRefusal>
        ensures ok { IfOk result (λ copied. IsKeptAt p steps.old steps.new copied self.old self.new) }
        ensures err { OnErr result (KeepsRecording self.old self.new) }
        ensures at { IfErr result (λ refusal. refusal ≡ NoMemory → self.new.at ≡ None) }
        ensures refused { IfErr result
            (IsCauseOrMemory (keep_refusal kept_entries p self.old.session.current)) }
        ensures accepted { OnOk result (keep_refusal kept_entries p self.old.session.current ≡ None) }
        ensures unchanged { IfErr result (λ refusal. refusal ≢ NoMemory → self.new ≡ self.old) }
        ensures idle { IfErr result (λ refusal. refusal ≢ NoMemory → steps.new ≡ steps.old) }
    {
        if let Some(refusal) = keep_refusal(&self.recording, &self.kept, p) {
            return Err(refusal);
        }
        self.go_to(alloc, p, steps)?;
        Ok(self.keep_shown(alloc, p)?)
    }

    /// Keeps the place that is shown, where the entries below it are linked. Errors: OutOfMemory, and then no
    /// place is shown.
    fn keep_shown(&mut self, alloc: Global, p: usize) -> Result<u32, OutOfMemory>
        requires { CanKeep p self.old }
        ensures ok { IfOk result (λ copied. IsPut p copied self.old self.new) }
        ensures err { OnErr result (self.new ≡ with_session self.old self.old.session None) }
    {
        self.at = None;
        let copied = keep(alloc, &self.player, &mut self.kept, p)?;
        self.at = Some(p);
        Ok(copied)
    }

    /// Makes a state that of entry `i`.
    pub fn kept_restore(&self, i: usize, into: &mut State)
        requires there { i < length self.now.session.current.kept }
        requires globals { length into.old.globals ≡ length self.now.cart.globals }
        ensures { into.new ≡ state_at self.now.session.current.kept i }
    {
        entry_at(self.kept.as_slice(), i).snap().restore(into);
    }

    /// Whether a state is that of entry `i`.
    pub fn kept_same(&self, i: usize, state: &State) -> bool
        requires { i < length self.now.session.current.kept }
        ensures { IsTrue result ↔ (state_at self.now.session.current.kept i ≡ state.now) }
    {
        entry_at(self.kept.as_slice(), i).snap().same(state)
    }

    /// Links entry `i` of 1 or more, whose state is what the inputs between make of that of the entry before.
    pub fn link(&mut self, i: usize)
        requires there { i < length self.old.session.current.kept }
        requires some { 1 ≤ i }
        requires state { computed (editing_setup self.old) self.old.session.current.inputs
            self.old.session.current.kept (i - 1)
            ≡ Some (state_at self.old.session.current.kept i) }
        ensures { self.new ≡ with_session self.old
            (with_list self.old.session (relinked_at i self.old.session.current.kept)) self.old.at }
    {
        link(&mut self.kept, i);
    }

    /// Puts into entry `i` of 1 or more the state that the inputs between make of that of the entry before.
    /// The entry is linked, and the one after it unlinked. Errors: OutOfMemory, and then nothing has
    /// changed.
    pub fn replace(&mut self, alloc: Global, i: usize, state: &State) -> Result<(), OutOfMemory>
        requires there { i < length self.old.session.current.kept }
        requires some { 1 ≤ i }
        requires state { computed (editing_setup self.old) self.old.session.current.inputs
            self.old.session.current.kept (i - 1)
            ≡ Some state.now }
        ensures ok { OnOk result (self.new ≡ with_session self.old
            (with_list self.old.session (replaced_at i state.now self.old.session.current.kept))
            self.old.at) }
        ensures err { OnErr result (self.new ≡ self.old) }
    {
        has_types(&self.player);
        replace(alloc, &mut self.kept, i, state)?;
        Ok(())
    }
}
