//! The history of an editor's drafts.

ghost use Rattle.std.specs.Prelude.{◌≡◌, Err, IfErr, None, OnErr, OnOk, Ok};
ghost use Rattle.w4_defs.specs.Session.{redo, undo};
ghost use Rattle.w4_editor.specs.Editor.{with_session};

use crate::draft::exchange;
use crate::editor::Editor;
use std::alloc::Global;
use w4_defs::EditRefusal;

impl Editor {
    /// Goes one draft back: its inputs, kept places, states and links. No place is shown then. Takes no
    /// memory. Errors: NothingToUndo if there is none, and then nothing has changed.
    pub fn undo(&mut self, _alloc: Global) -> Result<(), EditRefusal>
        ensures ok { OnOk result (undo self.old.session ≡ Ok self.new.session) }
        ensures others { OnOk result (self.new ≡ with_session self.old self.new.session None) }
        ensures refused { IfErr result (λ refusal. undo self.old.session ≡ Err refusal) }
        ensures unchanged { OnErr result (self.new ≡ self.old) }
    {
        let Some(draft) = self.older.pop_back() else {
            return Err(EditRefusal::NothingToUndo);
        };
        let undone = exchange(&mut self.recording, &mut self.kept, draft);
        self.newer.push_back(undone);
        self.at = None;
        Ok(())
    }

    /// Goes one draft on: its inputs, kept places, states and links. No place is shown then. Takes no memory.
    /// Errors: NothingToRedo if there is none, and then nothing has changed.
    pub fn redo(&mut self, _alloc: Global) -> Result<(), EditRefusal>
        ensures ok { OnOk result (redo self.old.session ≡ Ok self.new.session) }
        ensures others { OnOk result (self.new ≡ with_session self.old self.new.session None) }
        ensures refused { IfErr result (λ refusal. redo self.old.session ≡ Err refusal) }
        ensures unchanged { OnErr result (self.new ≡ self.old) }
    {
        let Some(draft) = self.newer.pop_back() else {
            return Err(EditRefusal::NothingToRedo);
        };
        let redone = exchange(&mut self.recording, &mut self.kept, draft);
        self.older.push_back(redone);
        self.at = None;
        Ok(())
    }
}
