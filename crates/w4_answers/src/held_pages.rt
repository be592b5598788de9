//! Watches of a query, of which those over the same places, one after another, run these once.

ghost use Rattle.std.specs.Prelude.{◌≤◌, OnOk};
ghost use Rattle.std.specs.Option.{ForSome};
ghost use Rattle.w4_defs.specs.PlaceTexts.{as_it_stands};
ghost use Rattle.w4_defs.specs.QueryAnswers.{watch_text};
ghost use Rattle.w4_defs.specs.World.{LeavesWriting};
ghost use Rattle.w4_editor.specs.Editor.{Editing};
ghost use Rattle.w4_inspect.specs.PlacePages.{AreOf};
ghost use Rattle.w4_inspect.specs.Values.{IsWidth};
ghost use Rattle.w4_answers.specs.Writing.{Written};
ghost use Rattle.w4_answers.specs.HeldPages.{AreHeld};
ghost use Rattle.w4_answers.specs.RamAnswers.{editor_pages};
ghost use Rattle.w4_answers.specs.Desk.{OnlyShows};

use crate::counted_editor::CountedEditor;
use crate::ram_answers::{Watched, answer_watch, watched_line};
use crate::shape::{Plain, Shape};
use std::alloc::Global;
use std::sync::ledger::Ledger;
use w4_defs::{OutOfMemory, Refusal};
use w4_editor::places::last_place;
use w4_house::House;
use w4_inspect::{PlacePages, RamRefusal};

/// At how many places pages are held at most: at 256 they take 16 MiB.
const MOST_PLACES: usize = 256;

/// Writes the values at an address. Where the next line watches the same places (`again`) their pages are
/// held, and where they are held already no frame is run.
pub fn answer_held<L: Ledger, H: House>(
    alloc: Global,
    house: &mut H,
    counted: &mut CountedEditor<L>,
    held: &mut Option<PlacePages>,
    watched: Watched,
    again: bool,
) -> Result<(), Refusal>
    requires known { IsWidth watched.width }
    requires held { AreHeld counted.old.editor held.old }
    ensures out { ForSome (watch_text as_it_stands (editor_pages counted.old.editor) watched.address
        watched.width watched.a watched.b)
        (λ text. Written (H.world house.old) (H.world house.new) result text) }
    ensures shows { OnOk result (OnlyShows counted.old.editor counted.new.editor) }
    ensures held { OnOk result (AreHeld counted.new.editor held.new) }
    ensures rest { LeavesWriting (H.world house.old) (H.world house.new) }
{
    let (a, b) = (watched.a as usize, watched.b as usize);
    hold_pages(alloc, counted, held, a, b, again)?;
    match held {
        Some(pages) if pages.are_at(a, b) => {
            answer_from_pages(alloc, house, pages, watched.address, watched.width)
        }
        _ => answer_watch::<Plain, L, H>(alloc, house, counted, watched),
    }
}

/// Holds the pages at places `a` to `b` where they are wanted, unless they are held, aren't there or are too
/// many.
fn hold_pages<L: Ledger>(
    alloc: Global,
    counted: &mut CountedEditor<L>,
    held: &mut Option<PlacePages>,
    a: usize,
    b: usize,
    wanted: bool,
) -> Result<(), OutOfMemory>
    requires order { a ≤ b }
    requires held { AreHeld counted.old.editor held.old }
    ensures shows { OnOk result (OnlyShows counted.old.editor counted.new.editor) }
    ensures held { OnOk result (AreHeld counted.new.editor held.new) }
{
    if !wanted || are_held(held, a, b) || b > last_place(&counted.editor) || b - a >= MOST_PLACES {
        return Ok(());
    }
    *held = None;
    let pages = PlacePages::read(alloc, &mut counted.editor, a, b, &mut counted.steps)?;
    *held = Some(pages);
    Ok(())
}

/// Whether the pages at places `a` to `b` are held.
fn are_held(held: &Option<PlacePages>, a: usize, b: usize) -> bool {
    match held {
        Some(pages) => pages.are_at(a, b),
        None => false,
    }
}

/// Writes the values at an address, from the pages at the places that are watched.
fn answer_from_pages<H: House>(
    alloc: Global,
    house: &mut H,
    pages: &PlacePages,
    address: u32,
    width: u32,
) -> Result<(), Refusal>
    requires { IsWidth width }
    ensures out { (e : Editing) → AreOf e pages.now → ForSome
        (watch_text as_it_stands (editor_pages e) address width pages.now.first pages.now.last)
        (λ text. Written (H.world house.old) (H.world house.new) result text) }
    ensures rest { LeavesWriting (H.world house.old) (H.world house.new) }
{
    match pages.watch(alloc, address, width) {
        Ok(values) => {
            let line = watched_line(alloc, address, values.as_slice())?;
            Plain::write(alloc, house, line.as_slice())
        }
        Err(RamRefusal::Outside) => Plain::write(alloc, house, b"refused outside\n"),
        Err(RamRefusal::OutOfMemory) => Err(Refusal::OutOfMemory),
        Err(RamRefusal::NoFrame) => unreachable!(),
    }
}
