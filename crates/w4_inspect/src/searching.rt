//! Searches over the places of a recording.

ghost use Rattle.std.specs.Prelude.{◌≡◌, ◌≢◌, ◌≤◌, IfErr, IfOk, None, OnErr, OnOk, Some, length, option_map};
ghost use Rattle.w4_defs.specs.Search.{begin, narrow};
ghost use Rattle.w4_editor.specs.Playing.{IsShown, KeepsRecording};
ghost use Rattle.w4_inspect.specs.PlacePages.{page_at};
ghost use Rattle.w4_inspect.specs.Refusal.{IsRefusal, no_frame_refusal};
ghost use Rattle.w4_inspect.specs.Values.{IsWidth};
ghost use Rattle.w4_inspect.specs.declared.refusal.RamRefusal.TheVariants.{OutOfMemory as NoMemory};

use crate::refusal::RamRefusal;
use crate::search::Search;
use crate::values::Width;
use std::alloc::Global;
use std::sync::ledger::Ledger;
use w4_defs::inspect::Test;
use w4_defs::{OutOfMemory, Steps};
use w4_editor::Editor;
use w4_editor::places::last_place;

impl Search {
    /// A search for values of `width` bytes, 1, 2 or 4, that begins with the page at place `p` and all
    /// addresses of such values. Place `p` is shown then. Each frame that is run is one tick. Errors: NoFrame
    /// if there is no such place; OutOfMemory.
    pub fn start<L: Ledger>(
        alloc: Global,
        editor: &mut Editor,
        width: u32,
        p: usize,
        steps: &mut Steps<L>,
    ) -> Result<Search, RamRefusal>
        requires { IsWidth width }
        ensures begun { IfOk result (λ search.
            option_map (begin width) (page_at editor.old p) ≡ Some search) }
        ensures shown { OnOk result (IsShown p steps.old steps.new editor.old editor.new) }
        ensures accepted { OnOk result (no_frame_refusal editor.old p ≡ None) }
        ensures refused { IfErr result (IsRefusal (no_frame_refusal editor.old p)) }
        ensures err { OnErr result (KeepsRecording editor.old editor.new) }
        ensures unchanged { IfErr result (λ refusal. refusal ≢ NoMemory → editor.new ≡ editor.old) }
    {
        if p > last_place(editor) {
            return Err(RamRefusal::NoFrame);
        }
        let search = begin_at(alloc, editor, Width::of(width), p, steps)?;
        Ok(search)
    }

    /// Keeps the addresses at which the test holds between the value at place `p` and the value at the last
    /// call. Place `p` is shown then. Each frame that is run is one tick, and the search itself takes no
    /// memory. Errors: NoFrame if there is no such place; OutOfMemory.
    pub fn narrow<L: Ledger>(
        &mut self,
        alloc: Global,
        editor: &mut Editor,
        p: usize,
        test: Test,
        steps: &mut Steps<L>,
    ) -> Result<(), RamRefusal>
        ensures narrowed { OnOk result (option_map (λ page. narrow self.old (page, test))
            (page_at editor.old p) ≡ Some self.new) }
        ensures shown { OnOk result (IsShown p steps.old steps.new editor.old editor.new) }
        ensures accepted { OnOk result (no_frame_refusal editor.old p ≡ None) }
        ensures refused { IfErr result (IsRefusal (no_frame_refusal editor.old p)) }
        ensures same_search { OnErr result (self.new ≡ self.old) }
        ensures err { OnErr result (KeepsRecording editor.old editor.new) }
        ensures unchanged { IfErr result (λ refusal. refusal ≢ NoMemory → editor.new ≡ editor.old) }
    {
        if p > last_place(editor) {
            return Err(RamRefusal::NoFrame);
        }
        narrow_at(alloc, self, editor, p, test, steps)?;
        Ok(())
    }
}

/// A search that begins at a place that is there.
fn begin_at<L: Ledger>(
    alloc: Global,
    editor: &mut Editor,
    width: Width,
    p: usize,
    steps: &mut Steps<L>,
) -> Result<Search, OutOfMemory>
    requires { p ≤ length editor.old.session.current.inputs }
    ensures begun { IfOk result (λ search. option_map (begin width.bytes) (page_at editor.old p)
        ≡ Some search) }
    ensures shown { OnOk result (IsShown p steps.old steps.new editor.old editor.new) }
    ensures err { OnErr result (KeepsRecording editor.old editor.new) }
{
    editor.go_to(alloc, p, steps)?;
    Search::begin(alloc, width, editor.state().page.bytes())
}

/// Narrows a search at a place that is there.
fn narrow_at<L: Ledger>(
    alloc: Global,
    search: &mut Search,
    editor: &mut Editor,
    p: usize,
    test: Test,
    steps: &mut Steps<L>,
) -> Result<(), OutOfMemory>
    requires { p ≤ length editor.old.session.current.inputs }
    ensures narrowed { OnOk result (option_map (λ page. narrow search.old (page, test))
        (page_at editor.old p) ≡ Some search.new) }
    ensures shown { OnOk result (IsShown p steps.old steps.new editor.old editor.new) }
    ensures same { OnErr result (search.new ≡ search.old) }
    ensures err { OnErr result (KeepsRecording editor.old editor.new) }
{
    editor.go_to(alloc, p, steps)?;
    search.keep(editor.state().page.bytes(), test);
    Ok(())
}
