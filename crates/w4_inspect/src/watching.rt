//! The values at an address, over places of a recording.

ghost use Rattle.std.specs.Prelude.{◌≡◌, ◌≢◌, ◌+◌, ◌-◌, ◌<◌, ◌≤◌, IfErr, IfOk, None, OnErr, OnOk, Some, length, map};
ghost use Rattle.std.specs.List.{range_with_len};
ghost use Rattle.w4_defs.specs.AllThere.{all_some, joined};
ghost use Rattle.w4_editor.specs.Editor.{with_session};
ghost use Rattle.w4_editor.specs.Playing.{IsShown, KeepsRecording};
ghost use Rattle.w4_inspect.specs.Values.{IsWidth};
ghost use Rattle.w4_inspect.specs.Refusal.{IsRefusal, watch_refusal};
ghost use Rattle.w4_inspect.specs.Watching.{IsWatched, value_at, watched};
ghost use Rattle.w4_inspect.specs.declared.refusal.RamRefusal.TheVariants.{OutOfMemory as NoMemory};

use crate::refusal::RamRefusal;
use crate::values::{PageValue, Width, value_in};
use std::alloc::Global;
use std::sync::ledger::Ledger;
use w4_defs::{OutOfMemory, Steps};
use w4_devices::FrameRecord;
use w4_editor::Editor;
use w4_editor::places::last_place;

/// How many bytes the page has.
pub(crate) const PAGE_LEN: usize = 65_536;

/// The bytes of a value: `width` of them, from `address` on.
#[derive(Clone, Copy)]
pub struct ValueBytes {
    pub address: u32,
    pub width: u32,
}

/// The places from `a` to `b` of a recording.
#[derive(Clone, Copy)]
pub(crate) struct Places {
    pub a: usize,
    pub b: usize,
    pub ghost order: { a ≤ b },
}

/// The values of 1, 2 or 4 bytes at each place from `a` to `b`, where `a` is at most `b`: numbers whose
/// lowest byte is first. Place `b` is shown then. Each frame that is run is one tick.
/// Errors: NoFrame if there is no place `b`; Outside if the bytes pass the end of the page; OutOfMemory.
pub fn watch<L: Ledger>(
    alloc: Global,
    editor: &mut Editor,
    what: ValueBytes,
    a: usize,
    b: usize,
    steps: &mut Steps<L>,
) -> Result<Vec<u32>, RamRefusal>
    requires width { IsWidth what.width }
    requires order { a ≤ b }
    ensures values { IfOk result (λ values.
        watched editor.old what.address what.width a b ≡ Some values.items) }
    ensures shown { OnOk result (IsWatched a b steps.old steps.new editor.old editor.new) }
    ensures accepted { OnOk result (watch_refusal editor.old what.address what.width b ≡ None) }
    ensures refused { IfErr result (IsRefusal (watch_refusal editor.old what.address what.width b)) }
    ensures err { OnErr result (KeepsRecording editor.old editor.new) }
    ensures unchanged { IfErr result (λ refusal. refusal ≢ NoMemory → editor.new ≡ editor.old) }
{
    if b > last_place(editor) {
        return Err(RamRefusal::NoFrame);
    }
    if what.address as usize + what.width as usize > PAGE_LEN {
        return Err(RamRefusal::Outside);
    }
    let what = PageValue {
        address: what.address,
        width: Width::of(what.width),
    };
    let values = values(alloc, editor, what, Places { a, b }, steps)?;
    Ok(values)
}

/// The values at places that are there.
fn values<L: Ledger>(
    alloc: Global,
    editor: &mut Editor,
    what: PageValue,
    places: Places,
    steps: &mut Steps<L>,
) -> Result<Vec<u32>, OutOfMemory>
    requires place { places.b ≤ length editor.old.session.current.inputs }
    requires few { places.b ≤ 36000 }
    ensures values { IfOk result (λ values. watched editor.old what.address what.width.bytes places.a places.b
        ≡ Some values.items) }
    ensures shown { OnOk result (IsWatched places.a places.b steps.old steps.new editor.old editor.new) }
    ensures err { OnErr result (KeepsRecording editor.old editor.new) }
{
    let mut values = Vec::with_capacity(alloc, places.b - places.a + 1)?;
    let first = shown_value(alloc, editor, what, places.a, steps)?;
    values.push(first)?;
    add_values(editor, what, places, &mut values, steps)?;
    Ok(values)
}

/// Adds the values at the places after the first, which is shown.
fn add_values<L: Ledger>(
    editor: &mut Editor,
    what: PageValue,
    places: Places,
    values: &mut Vec<u32>,
    steps: &mut Steps<L>,
) -> Result<(), OutOfMemory>
    requires at { editor.old.at ≡ Some places.a }
    requires place { places.b ≤ length editor.old.session.current.inputs }
    ensures values { OnOk result (joined (Some values.old.items)
        (all_some (map (value_at editor.old what.address what.width.bytes)
        (range_with_len (places.a + 1) (places.b - places.a))))
        ≡ Some values.new.items) }
    ensures same { OnOk result (editor.new ≡ with_session editor.old editor.old.session (Some places.b)) }
    ensures ticks { OnOk result (steps.new ≡ steps.old + (places.b - places.a)) }
    ensures err { OnErr result (KeepsRecording editor.old editor.new) }
{
    let mut frame_record = FrameRecord::new();
    for p in places.a..places.b {
        let value = next_value(editor, &mut frame_record, what, p, steps);
        values.push(value)?;
    }
    Ok(())
}

/// Shows a place, and reads the value there.
fn shown_value<L: Ledger>(
    alloc: Global,
    editor: &mut Editor,
    what: PageValue,
    p: usize,
    steps: &mut Steps<L>,
) -> Result<u32, OutOfMemory>
    requires place { p ≤ length editor.old.session.current.inputs }
    ensures value { IfOk result (λ value. value_at editor.old what.address what.width.bytes p ≡ Some value) }
    ensures shown { OnOk result (IsShown p steps.old steps.new editor.old editor.new) }
    ensures err { OnErr result (KeepsRecording editor.old editor.new) }
{
    editor.go_to(alloc, p, steps)?;
    Ok(value_in(editor.state().page.bytes(), what))
}

/// Goes on to the place after `p`, which is shown, and reads the value there.
fn next_value<L: Ledger>(
    editor: &mut Editor,
    frame_record: &mut FrameRecord,
    what: PageValue,
    p: usize,
    steps: &mut Steps<L>,
) -> u32
    requires at { editor.old.at ≡ Some p }
    requires place { p < length editor.old.session.current.inputs }
    ensures value { value_at editor.old what.address what.width.bytes (p + 1) ≡ Some result }
    ensures same { editor.new ≡ with_session editor.old editor.old.session (Some (p + 1)) }
    ensures ticks { steps.new ≡ steps.old + 1 }
{
    match editor.step(frame_record, steps) {
        Ok(state) => value_in(state.page.bytes(), what),
        Err(_) => unreachable!(),
    }
}
