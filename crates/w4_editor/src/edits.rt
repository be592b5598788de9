//! Edits of an editor's recording: each makes a new draft of inputs and kept places, and changes nothing
//! before all its memory is taken.

ghost use Rattle.std.specs.Prelude.{◌≡◌, IfErr, None, OnErr, OnOk, Ok};
ghost use Rattle.w4_defs.specs.KeptList.{IsDraft, kept_entries};
ghost use Rattle.w4_defs.specs.Session.{delete_input, edited, insert_input, set_input};
ghost use Rattle.w4_editor.specs.Edits.{IsErrorOrMemory, overwrite_inputs};
ghost use Rattle.w4_editor.specs.Editor.{editing_setup, with_session};

use crate::draft::{Draft, delete_draft, exchange, insert_draft, overwrite_draft, set_draft};
use crate::editor::Editor;
use std::alloc::Global;
use w4_defs::{EditRefusal, Input};
use w4_record::MOST_FRAMES;

impl Editor {
    /// Replaces input `k`. No place is shown then. Errors: NoFrame if there is no input `k`; OutOfMemory.
    /// After either nothing has changed.
    pub fn set(&mut self, alloc: Global, k: usize, input: Input) -> Result<(), EditRefusal>
        ensures ok { OnOk result (set_input kept_entries k input self.old.session ≡ Ok self.new.session) }
        ensures others { OnOk result (self.new ≡ with_session self.old self.new.session None) }
        ensures refused { IfErr result (IsErrorOrMemory (set_input kept_entries k input self.old.session)) }
        ensures unchanged { OnErr result (self.new ≡ self.old) }
    {
        let inputs = self.recording.frames.as_slice();
        if k >= inputs.len() {
            return Err(EditRefusal::NoFrame);
        }
        let draft = set_draft(alloc, inputs, self.kept.as_slice(), k, input)?;
        self.accept(draft);
        Ok(())
    }

    /// Makes these the inputs from `k` on: over those that are there, and then behind the last. Only kept
    /// places with one of them between and the place before lose their link. No place is shown then. Errors:
    /// NoFrame if `k` is past the end; FullRecording if there would be more than 36,000 inputs; OutOfMemory.
    /// After each of them nothing has changed.
    pub fn overwrite(
        &mut self,
        alloc: Global,
        k: usize,
        inputs: &[Input],
    ) -> Result<(), EditRefusal>
        ensures ok { OnOk result (overwrite_inputs k inputs.now self.old.session ≡ Ok self.new.session) }
        ensures others { OnOk result (self.new ≡ with_session self.old self.new.session None) }
        ensures refused { IfErr result
            (IsErrorOrMemory (overwrite_inputs k inputs.now self.old.session)) }
        ensures unchanged { OnErr result (self.new ≡ self.old) }
    {
        let frames = self.recording.frames.as_slice();
        if k > frames.len() {
            return Err(EditRefusal::NoFrame);
        }
        if inputs.len() > MOST_FRAMES - k {
            return Err(EditRefusal::FullRecording);
        }
        let draft = overwrite_draft(alloc, frames, self.kept.as_slice(), k, inputs)?;
        self.accept(draft);
        Ok(())
    }

    /// Puts an input before input `k`, or after the last one. No place is shown then. Errors: NoFrame if `k`
    /// is past the end; FullRecording if there are 36,000 inputs; OutOfMemory. After each of them nothing has
    /// changed.
    pub fn insert(&mut self, alloc: Global, k: usize, input: Input) -> Result<(), EditRefusal>
        ensures ok { OnOk result (insert_input kept_entries k input self.old.session ≡ Ok self.new.session) }
        ensures others { OnOk result (self.new ≡ with_session self.old self.new.session None) }
        ensures refused { IfErr result
            (IsErrorOrMemory (insert_input kept_entries k input self.old.session)) }
        ensures unchanged { OnErr result (self.new ≡ self.old) }
    {
        let inputs = self.recording.frames.as_slice();
        if k > inputs.len() {
            return Err(EditRefusal::NoFrame);
        }
        if inputs.len() >= MOST_FRAMES {
            return Err(EditRefusal::FullRecording);
        }
        let draft = insert_draft(alloc, inputs, self.kept.as_slice(), k, input)?;
        self.accept(draft);
        Ok(())
    }

    /// Removes input `k`. No place is shown then. Errors: NoFrame if there is no input `k`; OutOfMemory.
    /// After either nothing has changed.
    pub fn delete(&mut self, alloc: Global, k: usize) -> Result<(), EditRefusal>
        ensures ok { OnOk result (delete_input kept_entries k self.old.session ≡ Ok self.new.session) }
        ensures others { OnOk result (self.new ≡ with_session self.old self.new.session None) }
        ensures refused { IfErr result (IsErrorOrMemory (delete_input kept_entries k self.old.session)) }
        ensures unchanged { OnErr result (self.new ≡ self.old) }
    {
        let inputs = self.recording.frames.as_slice();
        if k >= inputs.len() {
            return Err(EditRefusal::NoFrame);
        }
        let draft = delete_draft(alloc, inputs, self.kept.as_slice(), k)?;
        self.accept(draft);
        Ok(())
    }

    /// Makes a draft the current one, as an edit does. Takes no memory.
    fn accept(&mut self, draft: Draft)
        requires { IsDraft (editing_setup self.old) self.old.disk draft }
        ensures { self.new ≡ with_session self.old (edited self.old.session draft) None }
    {
        let before = exchange(&mut self.recording, &mut self.kept, draft);
        self.older.push_back(before);
        self.newer.clear();
        self.at = None;
    }
}
