//! An editor, with the buffers for its answers.

ghost use Rattle.std.specs.Prelude.{◌≡◌, ◌+◌, ◌-◌, ◌<◌, ◌≤◌, ◌↔◌, IfOk, IsTrue, OnOk, Some, length, option_map};
ghost use Rattle.w4_defs.specs.KeptList.{state_at};
ghost use Rattle.w4_defs.specs.PlaceTexts.{as_it_stands};
ghost use Rattle.w4_defs.specs.Run.{run};
ghost use Rattle.w4_defs.specs.State.{Moment};
ghost use Rattle.w4_devices.specs.Records.{record_of};
ghost use Rattle.w4_editor.specs.Editor.{current_recording, editing_setup, new_editing};
ghost use Rattle.w4_console.specs.Taken.{TellsUnits};
ghost use Rattle.w4_console.specs.Counting.{IsBlankOf};
ghost use Rattle.w4_answers.specs.Desk.{IsMade, RunsOn, StepsOn, OnlyShows, text_by};
ghost use Rattle.w4_answers.specs.RecordText.{text_of_place};
ghost use Rattle.w4_defs.specs.declared.place_text.PlaceText.TheVariants.{Image};

use crate::counted_editor::CountedEditor;
use crate::record_text::{RecordText, record_text};
use std::alloc::Global;
use std::sync::ledger::{Blank, Ledger};
use w4_console::FrameTaken;
use w4_defs::{OutOfMemory, Steps};
use w4_devices::FrameRecord;
use w4_editor::Editor;
use w4_font::Font;
use w4_image::{IMAGE_LEN, ppm_into};
use w4_record::Recording;
use wasm_register::Cart;

/// An editor with its count, the record of the frame that it stepped last, and the buffer of an image.
#[derive(Drop)]
pub struct Desk<L: Ledger> {
    pub counted: CountedEditor<L>,
    frame_record: FrameRecord,
    image: Box<[u8; IMAGE_LEN]>,
}

impl<L: Ledger> Desk<L> {
    /// A desk whose editor shows place 0 of a recording, the only one that is kept, and has run no frame.
    pub fn new(
        alloc: Global,
        cart: Cart,
        font: Font,
        recording: Recording,
        blank: Blank,
    ) -> Result<Desk<L>, OutOfMemory>
        requires { IsBlankOf L.name L.parts blank }
        ensures { IfOk result (λ desk. desk.counted.editor ≡ new_editing cart font recording
            (state_at desk.counted.editor.session.current.kept 0)) }
    {
        let editor = Editor::new(alloc, cart, font, recording)?;
        let Ok(image) = Box::new(alloc, [0; IMAGE_LEN]) else {
            editor.close();
            return Err(OutOfMemory);
        };
        let steps: Steps<L> = Steps::new(blank);
        Ok(Desk {
            counted: CountedEditor { editor, steps },
            frame_record: FrameRecord::new(),
            image,
        })
    }

    /// Gives its memory back. A function of its own, since each place at which an editor may be dropped costs
    /// much to prove.
    pub fn close(self) {
        self.counted.editor.close();
    }

    /// Shows a place, by one frame if the place before it is shown.
    pub fn go_on(&mut self, alloc: Global, place: usize) -> Result<(), OutOfMemory>
        requires place { place ≤ length self.old.counted.editor.session.current.inputs }
        ensures shows { OnOk result (OnlyShows self.old.counted.editor self.new.counted.editor) }
        ensures recording { current_recording self.new.counted.editor
            ≡ current_recording self.old.counted.editor }
        ensures at { OnOk result (self.new.counted.editor.at ≡ Some place) }
        ensures made { OnOk result (IsMade 0 place self.old.counted.steps self.new.counted.steps
            self.old.counted.editor self.new.counted.editor) }
        ensures steps { OnOk result (StepsOn place self.old.counted.steps self.new.counted.steps
            self.old.counted.editor self.new.counted.editor) }
    {
        let counted = &mut self.counted;
        if is_next(&counted.editor, place) {
            step_from(counted, &mut self.frame_record, place - 1);
            return Ok(());
        }
        counted.editor.go_to(alloc, place, &mut counted.steps)
    }

    /// Makes the image of a place, which is shown then.
    pub fn make_image(&mut self, alloc: Global, place: usize) -> Result<(), OutOfMemory>
        requires place { place ≤ length self.old.counted.editor.session.current.inputs }
        ensures shows { OnOk result (OnlyShows self.old.counted.editor self.new.counted.editor) }
        ensures recording { current_recording self.new.counted.editor
            ≡ current_recording self.old.counted.editor }
        ensures image { OnOk result (text_by as_it_stands self.old.counted.editor Image place
            ≡ Some self.new.image.value) }
        ensures made { OnOk result (IsMade 0 place self.old.counted.steps self.new.counted.steps
            self.old.counted.editor self.new.counted.editor) }
        ensures steps { OnOk result (StepsOn place self.old.counted.steps self.new.counted.steps
            self.old.counted.editor self.new.counted.editor) }
    {
        self.go_on(alloc, place)?;
        ppm_into(self.counted.editor.state(), &mut self.image);
        Ok(())
    }

    /// The image that was made last.
    pub fn made_image(&self) -> &[u8]
        ensures { result.now ≡ self.now.image.value }
    {
        self.image.as_slice()
    }

    /// Makes the record of the frame from a place; the place after it is shown then. What the frame took of
    /// its budget.
    pub fn frame_taken(&mut self, alloc: Global, place: usize) -> Result<FrameTaken, OutOfMemory>
        requires place { place < length self.old.counted.editor.session.current.inputs }
        ensures shows { OnOk result (OnlyShows self.old.counted.editor self.new.counted.editor) }
        ensures recording { current_recording self.new.counted.editor
            ≡ current_recording self.old.counted.editor }
        ensures frame_record { OnOk result (option_map (λ (moment : Moment). moment.frame_record)
            (run (editing_setup self.old.counted.editor) self.old.counted.editor.disk
            self.old.counted.editor.session.current.inputs (place + 1))
            ≡ Some (record_of self.new.frame_record)) }
        ensures taken { IfOk result (λ taken. TellsUnits (editing_setup self.old.counted.editor)
            self.old.counted.editor.disk
            self.old.counted.editor.session.current.inputs place taken) }
        ensures made { OnOk result (IsMade 1 (place + 1) self.old.counted.steps self.new.counted.steps
            self.old.counted.editor self.new.counted.editor) }
        ensures steps { OnOk result (StepsOn (place + 1) self.old.counted.steps self.new.counted.steps
            self.old.counted.editor self.new.counted.editor) }
    {
        go_unless_shown(alloc, &mut self.counted, place)?;
        Ok(step_from(&mut self.counted, &mut self.frame_record, place))
    }

    /// A text of the frame that leads to a place; at place 0 it is the reset's.
    pub fn frame_text(
        &mut self,
        alloc: Global,
        wanted: RecordText,
        place: usize,
    ) -> Result<Vec<u8>, OutOfMemory>
        requires place { place ≤ length self.old.counted.editor.session.current.inputs }
        ensures shows { OnOk result (OnlyShows self.old.counted.editor self.new.counted.editor) }
        ensures recording { current_recording self.new.counted.editor
            ≡ current_recording self.old.counted.editor }
        ensures text { IfOk result (λ text.
            text_by as_it_stands self.old.counted.editor (text_of_place wanted) place ≡ Some text.items) }
        ensures made { OnOk result (IsMade 1 place self.old.counted.steps self.new.counted.steps
            self.old.counted.editor self.new.counted.editor) }
        ensures steps { OnOk result (StepsOn place self.old.counted.steps self.new.counted.steps
            self.old.counted.editor self.new.counted.editor) }
    {
        if place == 0 {
            return record_text(alloc, wanted, place, self.counted.editor.reset_frame());
        }
        self.frame_taken(alloc, place - 1)?;
        record_text(alloc, wanted, place, &self.frame_record)
    }
}

/// Whether a place is shown.
fn is_shown(editor: &Editor, place: usize) -> bool
    ensures { IsTrue result ↔ (editor.now.at ≡ Some place) }
{
    match editor.at() {
        Some(shown) => shown == place,
        None => false,
    }
}

/// Whether the place before this one is shown.
fn is_next(editor: &Editor, place: usize) -> bool
    ensures { IsTrue result ↔ ((1 ≤ place) × (editor.now.at ≡ Some (place - 1))) }
{
    place > 0 && is_shown(editor, place - 1)
}

/// Shows a place, unless it is shown.
fn go_unless_shown<L: Ledger>(
    alloc: Global,
    counted: &mut CountedEditor<L>,
    place: usize,
) -> Result<(), OutOfMemory>
    requires place { place ≤ length counted.old.editor.session.current.inputs }
    ensures shows { OnOk result (OnlyShows counted.old.editor counted.new.editor) }
    ensures recording { current_recording counted.new.editor ≡ current_recording counted.old.editor }
    ensures at { OnOk result (counted.new.editor.at ≡ Some place) }
    ensures frames_run { OnOk result (RunsOn place 0 counted.old.steps counted.new.steps
        counted.old.editor counted.new.editor) }
    ensures stays { OnOk result (counted.old.editor.at ≡ Some place
        → (counted.new.steps ≡ counted.old.steps) × (counted.new.editor ≡ counted.old.editor)) }
{
    if is_shown(&counted.editor, place) {
        return Ok(());
    }
    counted.editor.go_to(alloc, place, &mut counted.steps)
}

/// Runs the one frame from a place, which is shown, and makes its record. What it took of the budget.
fn step_from<L: Ledger>(
    counted: &mut CountedEditor<L>,
    frame_record: &mut FrameRecord,
    place: usize,
) -> FrameTaken
    requires place { place < length counted.old.editor.session.current.inputs }
    requires at { counted.old.editor.at ≡ Some place }
    ensures shows { OnlyShows counted.old.editor counted.new.editor }
    ensures recording { current_recording counted.new.editor ≡ current_recording counted.old.editor }
    ensures frame_record { option_map (λ (moment : Moment). moment.frame_record)
        (run (editing_setup counted.old.editor) counted.old.editor.disk
        counted.old.editor.session.current.inputs (place + 1))
        ≡ Some (record_of frame_record.new) }
    ensures taken { TellsUnits (editing_setup counted.old.editor) counted.old.editor.disk
        counted.old.editor.session.current.inputs place result }
    ensures at { counted.new.editor.at ≡ Some (place + 1) }
    ensures ticks { counted.new.steps ≡ counted.old.steps + 1 }
    ensures kept { counted.new.editor.session ≡ counted.old.editor.session }
{
    match counted.editor.step_units(frame_record, &mut counted.steps) {
        Ok(taken) => taken,
        Err(_) => unreachable!(),
    }
}
