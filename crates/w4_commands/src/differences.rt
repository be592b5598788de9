//! The first places at which two runs differ.

ghost use Rattle.std.specs.Prelude.{◌≡◌, ◌↔◌, ◌∷◌, ◌++◌, [], IfOk, IsTrue, None, OnOk};
ghost use Rattle.std.specs.Str.{bytes_eq};
ghost use Rattle.w4_defs.specs.Comparison.{compared_by, respect_line};
ghost use Rattle.w4_defs.specs.FrameTexts.{numbered};
ghost use Rattle.w4_defs.specs.Image.{image};
ghost use Rattle.w4_defs.specs.RecordingOutputs.{finish_of};
ghost use Rattle.w4_defs.specs.SameState.{same_state};
ghost use Rattle.w4_answers.specs.RecordText.{record_text};
ghost use Rattle.w4_commands.specs.Differences.{after_place, both_stages, if_differs, listed, noted};
ghost use Rattle.w4_commands.specs.Stage.{stage_moment};

use crate::stage::Stage;
use std::alloc::Global;
use w4_answers::record_text::RecordText;
use w4_answers::record_text::RecordText::{Schedule, Traces};
use w4_defs::editing_laws::states_are_compared;
use w4_defs::{Finish, OutOfMemory};
use w4_devices::text_parts::{add_number, add_words};
use w4_map::State;
use w4_snap::equality::{equal_channels, equal_globals};

/// The first places at which two runs differ, None if there is none so far.
#[derive(Clone, Copy)]
pub struct Differences {
    pub state: Option<usize>,
    pub image: Option<usize>,
    pub tones: Option<usize>,
    pub traces: Option<usize>,
    pub disk: Option<usize>,
}

impl Differences {
    /// No differences yet.
    pub fn none() -> Differences
        ensures { result ≡ record { state = None; image = None; tones = None; traces = None; disk = None } }
    {
        Differences {
            state: None,
            image: None,
            tones: None,
            traces: None,
            disk: None,
        }
    }

    /// Notes where two stages at the same place differ.
    pub fn note_place(
        &mut self,
        alloc: Global,
        one: &mut Stage,
        other: &mut Stage,
        place: usize,
    ) -> Result<(), OutOfMemory>
        ensures found { OnOk result (self.new ≡ noted (both_stages place one.old other.old) self.old) }
        ensures one { stage_moment one.new ≡ stage_moment one.old }
        ensures other { stage_moment other.new ≡ stage_moment other.old }
    {
        note_text(alloc, one, other, Schedule, place, &mut self.tones)?;
        note_text(alloc, one, other, Traces, place, &mut self.traces)?;
        note_state(one, other, place, &mut self.state);
        note_disk(one, other, place, &mut self.disk);
        note_image(one, other, place, &mut self.image);
        Ok(())
    }

    /// The six lines of runs of that many inputs.
    pub fn text(&self, alloc: Global, n: usize, m: usize) -> Result<Vec<u8>, OutOfMemory>
        ensures { IfOk result (λ text. text.items ≡ (compared_by n m (listed self.now)).text) }
    {
        let mut text = Vec::new(alloc);
        add_respect(&mut text, b"state", self.state)?;
        add_respect(&mut text, b"image", self.image)?;
        add_respect(&mut text, b"tones", self.tones)?;
        add_respect(&mut text, b"traces", self.traces)?;
        add_respect(&mut text, b"disk", self.disk)?;
        add_words(&mut text, b"places")?;
        add_number(&mut text, n as u64)?;
        add_number(&mut text, m as u64)?;
        add_words(&mut text, b"\n")?;
        Ok(text)
    }

    /// Whether they report a difference.
    pub fn finish(&self, n: usize, m: usize) -> Finish
        ensures { result ≡ finish_of (compared_by n m (listed self.now)) }
    {
        let same = self.state.is_none()
            && self.image.is_none()
            && self.tones.is_none()
            && self.traces.is_none()
            && self.disk.is_none();
        if same && n == m {
            Finish::Done
        } else {
            Finish::Different
        }
    }
}

/// This place, unless the two are the same there.
fn if_differs(same: bool, place: usize) -> Option<usize>
    ensures { result ≡ if_differs same place }
{
    if same { None } else { Some(place) }
}

/// Notes whether the states differ, unless they are noted to differ already.
fn note_state(one: &Stage, other: &Stage, place: usize, found: &mut Option<usize>)
    ensures { found.new ≡ after_place found.old
        (same_state (stage_moment one.now).state (stage_moment other.now).state) place }
{
    if found.is_none() {
        *found = if_differs(same_states(one.state(), other.state()), place);
    }
}

/// Whether two states are equal in page, globals, channels, disk and halt.
fn same_states(one: &State, other: &State) -> bool
    ensures { result ≡ same_state one.now other.now }
{
    states_are_compared();
    equal_states(one, other)
}

/// Whether two states are equal. Ends at the first difference; the page, which takes longest, comes last.
fn equal_states(one: &State, other: &State) -> bool
    ensures { IsTrue result ↔ (one.now ≡ other.now) }
{
    one.halt == other.halt
        && equal_channels(&one.channels, &other.channels)
        && equal_globals(one.globals.as_slice(), other.globals.as_slice())
        && one.disk.bytes() == other.disk.bytes()
        && one.page.bytes() == other.page.bytes()
}

/// Notes whether the disks differ, unless they are noted to differ already.
fn note_disk(one: &Stage, other: &Stage, place: usize, found: &mut Option<usize>)
    ensures { found.new ≡ after_place found.old
        (bytes_eq (stage_moment one.now).state.disk (stage_moment other.now).state.disk) place }
{
    if found.is_none() {
        *found = if_differs(one.disk() == other.disk(), place);
    }
}

/// Notes whether the images differ, unless they are noted to differ already.
fn note_image(one: &mut Stage, other: &mut Stage, place: usize, found: &mut Option<usize>)
    ensures found { found.new ≡ after_place found.old (bytes_eq (image (stage_moment one.old).state.page)
        (image (stage_moment other.old).state.page)) place }
    ensures one { stage_moment one.new ≡ stage_moment one.old }
    ensures other { stage_moment other.new ≡ stage_moment other.old }
{
    if found.is_none() {
        *found = if_differs(same_images(one, other), place);
    }
}

/// Whether the images are the same. Equal pages have equal images, so that few are painted.
fn same_images(one: &mut Stage, other: &mut Stage) -> bool
    ensures same { result ≡ bytes_eq (image (stage_moment one.old).state.page)
        (image (stage_moment other.old).state.page) }
    ensures one { stage_moment one.new ≡ stage_moment one.old }
    ensures other { stage_moment other.new ≡ stage_moment other.old }
{
    if one.state().page.bytes() == other.state().page.bytes() {
        return true;
    }
    one.paint();
    other.paint();
    one.painted() == other.painted()
}

/// Notes whether texts of the frames differ, unless they are noted to differ already.
fn note_text(
    alloc: Global,
    one: &Stage,
    other: &Stage,
    wanted: RecordText,
    place: usize,
    found: &mut Option<usize>,
) -> Result<(), OutOfMemory>
    ensures { OnOk result (found.new ≡ after_place found.old
        (bytes_eq (record_text wanted place (stage_moment one.now).frame_record)
        (record_text wanted place (stage_moment other.now).frame_record)) place) }
{
    if found.is_none() {
        let text = one.frame_text(alloc, wanted, place)?;
        let other_text = other.frame_text(alloc, wanted, place)?;
        *found = if_differs(text.as_slice() == other_text.as_slice(), place);
    }
    Ok(())
}

/// Adds the line of one respect.
fn add_respect(text: &mut Vec<u8>, word: &[u8], found: Option<usize>) -> Result<(), OutOfMemory>
    ensures { OnOk result (text.new.items ≡ text.old.items ++ respect_line word.now found) }
{
    add_words(text, word)?;
    match found {
        None => add_words(text, b" same\n"),
        Some(place) => add_place(text, place),
    }
}

/// Adds a place and the line's end.
fn add_place(text: &mut Vec<u8>, place: usize) -> Result<(), OutOfMemory>
    ensures { OnOk result (text.new.items ≡ text.old.items ++ numbered [] (place ∷ [])) }
{
    add_number(text, place as u64)?;
    add_words(text, b"\n")
}
