//! The pages at places of a recording, read once for many watches.

ghost use Rattle.std.specs.Prelude.{◌≡◌, ◌+◌, ◌-◌, ◌<◌, ◌≤◌, IfErr, IfOk, IsTrue, None, OnErr, OnOk, Some, length, map};
ghost use Rattle.std.specs.List.{range_with_len};
ghost use Rattle.w4_defs.specs.AllThere.{all_some};
ghost use Rattle.w4_defs.specs.Bytes.{number_at};
ghost use Rattle.w4_editor.specs.Editor.{Editing, with_session};
ghost use Rattle.w4_editor.specs.Playing.{IsShown, KeepsRecording};
ghost use Rattle.w4_inspect.specs.PlacePages.{page_at, AreOf, outside_refusal};
ghost use Rattle.w4_inspect.specs.Refusal.{IsRefusal};
ghost use Rattle.w4_inspect.specs.Watching.{IsWatched, watched};
ghost use Rattle.w4_inspect.specs.Values.{IsWidth};

use crate::refusal::RamRefusal;
use crate::search::copy_of;
use crate::values::{PageValue, Width, value_in};
use crate::watching::{PAGE_LEN, Places};
use std::alloc::Global;
use std::marker::Model;
use std::sync::ledger::Ledger;
use w4_defs::{OutOfMemory, Steps};
use w4_devices::FrameRecord;
use w4_editor::Editor;
use wasm_page::Page;

/// The pages at places `a` to `b` of a recording.
#[derive(Drop)]
pub struct PlacePages {
    a: usize,
    b: usize,
    pages: Vec<Page>,
}

impl Model for PlacePages {
    ghost use Rattle.w4_inspect.specs.PlacePages.{ReadPages};

    ghost Value = { ReadPages };

    ghost view = { λ p. record {
      first = p.a;
      last = p.b;
      pages = p.pages.items;
    } };
}

impl PlacePages {
    /// The pages at places `a` to `b`, which are there; `a` is at most `b`. Place `b` is shown then. Each
    /// frame that is run is one tick. Takes 64 KiB for each place.
    pub fn read<L: Ledger>(
        alloc: Global,
        editor: &mut Editor,
        a: usize,
        b: usize,
        steps: &mut Steps<L>,
    ) -> Result<PlacePages, OutOfMemory>
        requires order { a ≤ b }
        requires place { b ≤ length editor.old.session.current.inputs }
        requires few { b ≤ 36000 }
        ensures pages { IfOk result (λ read. AreOf editor.old read) }
        ensures first { IfOk result (λ read. read.first ≡ a) }
        ensures last { IfOk result (λ read. read.last ≡ b) }
        ensures shown { OnOk result (IsWatched a b steps.old steps.new editor.old editor.new) }
        ensures err { OnErr result (KeepsRecording editor.old editor.new) }
    {
        let mut pages = Vec::with_capacity(alloc, b - a + 1)?;
        let first = shown_page(alloc, editor, a, steps)?;
        pages.push(first)?;
        add_pages(alloc, editor, Places { a, b }, &mut pages, steps)?;
        Ok(PlacePages { a, b, pages })
    }

    /// Whether they are the pages at places `a` to `b`.
    pub fn are_at(&self, a: usize, b: usize) -> bool
        ensures first { IsTrue result → self.now.first ≡ a }
        ensures last { IsTrue result → self.now.last ≡ b }
    {
        self.a == a && self.b == b
    }

    /// The values of `width` bytes, 1, 2 or 4, from `address` on, at each place: those that `watch` gives,
    /// without a frame. Errors: Outside where the bytes pass the end of the page; OutOfMemory.
    pub fn watch(&self, alloc: Global, address: u32, width: u32) -> Result<Vec<u32>, RamRefusal>
        requires { IsWidth width }
        ensures values { IfOk result (λ values. (e : Editing) → AreOf e self.now
            → watched e address width self.now.first self.now.last ≡ Some values.items) }
        ensures accepted { OnOk result (outside_refusal address width ≡ None) }
        ensures refused { IfErr result (IsRefusal (outside_refusal address width)) }
    {
        if address as usize + width as usize > PAGE_LEN {
            return Err(RamRefusal::Outside);
        }
        let width = Width::of(width);
        let what = PageValue { address, width };
        let values = values_in(alloc, self.pages.as_slice(), what)?;
        Ok(values)
    }
}

/// The value in each page.
fn values_in(alloc: Global, pages: &[Page], what: PageValue) -> Result<Vec<u32>, OutOfMemory>
    ensures { IfOk result (λ values. values.items
        ≡ map (λ page. number_at page what.address what.width.bytes) pages.now) }
{
    let mut values = Vec::with_capacity(alloc, pages.len())?;
    for page in pages {
        values.push(value_in(page.bytes(), what))?;
    }
    Ok(values)
}

/// Adds the pages at the places after the first, which is shown.
fn add_pages<L: Ledger>(
    alloc: Global,
    editor: &mut Editor,
    places: Places,
    pages: &mut Vec<Page>,
    steps: &mut Steps<L>,
) -> Result<(), OutOfMemory>
    requires at { editor.old.at ≡ Some places.a }
    requires place { places.b ≤ length editor.old.session.current.inputs }
    requires first { all_some (map (page_at editor.old) (range_with_len places.a 1)) ≡ Some pages.old.items }
    ensures pages { OnOk result
        (all_some (map (page_at editor.old) (range_with_len places.a (places.b + 1 - places.a)))
        ≡ Some pages.new.items) }
    ensures same { OnOk result (editor.new ≡ with_session editor.old editor.old.session (Some places.b)) }
    ensures ticks { OnOk result (steps.new ≡ steps.old + (places.b - places.a)) }
    ensures err { OnErr result (KeepsRecording editor.old editor.new) }
{
    let mut frame_record = FrameRecord::new();
    for p in places.a..places.b {
        let page = next_page(alloc, editor, &mut frame_record, p, steps)?;
        pages.push(page)?;
    }
    Ok(())
}

/// Shows a place, and copies the page there.
fn shown_page<L: Ledger>(
    alloc: Global,
    editor: &mut Editor,
    p: usize,
    steps: &mut Steps<L>,
) -> Result<Page, OutOfMemory>
    requires place { p ≤ length editor.old.session.current.inputs }
    ensures page { IfOk result (λ page. page_at editor.old p ≡ Some page) }
    ensures shown { OnOk result (IsShown p steps.old steps.new editor.old editor.new) }
    ensures err { OnErr result (KeepsRecording editor.old editor.new) }
{
    editor.go_to(alloc, p, steps)?;
    copy_of(alloc, editor.state().page.bytes())
}

/// Goes on to the place after `p`, which is shown, and copies the page there.
fn next_page<L: Ledger>(
    alloc: Global,
    editor: &mut Editor,
    frame_record: &mut FrameRecord,
    p: usize,
    steps: &mut Steps<L>,
) -> Result<Page, OutOfMemory>
    requires at { editor.old.at ≡ Some p }
    requires place { p < length editor.old.session.current.inputs }
    ensures page { IfOk result (λ page. page_at editor.old (p + 1) ≡ Some page) }
    ensures same { editor.new ≡ with_session editor.old editor.old.session (Some (p + 1)) }
    ensures ticks { steps.new ≡ steps.old + 1 }
{
    match editor.step(frame_record, steps) {
        Ok(state) => copy_of(alloc, state.page.bytes()),
        Err(_) => unreachable!(),
    }
}
