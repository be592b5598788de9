//! The places of an editor's recording.

ghost use Rattle.std.specs.Prelude.{◌≡◌, ◌≤◌, length};
ghost use Rattle.w4_defs.specs.Session.{is_kept, places_alone};
ghost use Rattle.w4_editor.specs.Editor.{place_session};

use crate::editor::Editor;

/// The last place, which is how many inputs there are.
pub fn last_place(editor: &Editor) -> usize
    ensures last { result ≡ length editor.now.session.current.inputs }
    ensures few { result ≤ 36000 }
{
    editor.session_is_consistent();
    editor.recording().frames.len()
}

/// Whether a place is kept.
pub fn is_kept(editor: &Editor, place: usize) -> bool
    ensures { result ≡ is_kept places_alone place (place_session editor.now).current.kept }
{
    for i in 0..editor.kept_count() {
        if editor.kept_place(i) == place {
            return true;
        }
    }
    false
}
