//! An editor, and the count of the frames that are run in it.

use std::sync::ledger::Ledger;
use w4_defs::Steps;
use w4_editor::Editor;

/// An editor, and the count of the frames that are run in it.
#[derive(Drop)]
pub struct CountedEditor<L: Ledger> {
    pub editor: Editor,
    pub steps: Steps<L>,
}
