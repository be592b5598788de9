//! The answer of one request of a query.

ghost use Rattle.std.specs.Prelude.{◌≡◌, ◌≢◌, ◌⊎◌, ◌++◌, ◌∷◌, ◌≤◌, IfOk, OnOk, codes, decimal};
ghost use Rattle.std.specs.Option.{ForSome};
ghost use Rattle.w4_defs.specs.FrameTexts.{line_end, numbered};
ghost use Rattle.w4_editor.specs.Editor.{current_recording};
ghost use Rattle.w4_defs.specs.World.{LeavesWriting};
ghost use Rattle.w4_script.specs.Query.{IsRequest};
ghost use Rattle.w4_inspect.specs.Values.{IsWidth};
ghost use Rattle.w4_inspect.specs.declared.refusal.RamRefusal.TheVariants.{OutOfMemory as MemoryRefused};
ghost use Rattle.w4_defs.specs.ScriptAnswers.{no_frame};
ghost use Rattle.w4_answers.specs.Writing.{Written, WritesNothing};
ghost use Rattle.w4_answers.specs.Desk.{OnlyShows};
ghost use Rattle.w4_answers.specs.RamAnswers.{GivesLineAnswer, ask_answer, editor_pages};
ghost use Rattle.w4_defs.specs.QueryAnswers.{answer_narrow, answer_start, found_text, list_text, watch_text};

use crate::counted_editor::CountedEditor;
use crate::shape::Shape;
use std::alloc::Global;
use std::sync::ledger::Ledger;
use w4_defs::inspect::{Ask, Test};
use w4_defs::{OutOfMemory, Refusal};
use w4_devices::text_parts::{add_decimal, add_number, add_numbered, add_words};
use w4_house::House;
use w4_inspect::{RamRefusal, Search, ValueBytes, watch};

/// What is watched: the value of so many bytes at an address, at the places `a` to `b`.
#[derive(Clone, Copy)]
pub struct Watched {
    pub address: u32,
    pub width: u32,
    pub a: u32,
    pub b: u32,
    ghost order: { a ≤ b },
}

/// Answers one request.
pub fn answer_line<S: Shape, L: Ledger, H: House>(
    alloc: Global,
    house: &mut H,
    counted: &mut CountedEditor<L>,
    search: &mut Option<Search>,
    line: &Ask,
) -> Result<(), Refusal>
    requires { IsRequest line.now }
    ensures told { GivesLineAnswer (H.world house.old) (H.world house.new) result
        counted.old.editor counted.new.editor search.new
        (ask_answer S.form counted.old.editor search.old line.now) }
    ensures rest { LeavesWriting (H.world house.old) (H.world house.new) }
{
    match *line {
        Ask::Watch {
            address,
            width,
            a,
            b,
        } => {
            let watched = Watched {
                address,
                width,
                a,
                b,
            };
            answer_watch::<S, L, H>(alloc, house, counted, watched)
        }
        Ask::Start { width, p } => {
            answer_start::<S, L, H>(alloc, house, counted, search, width, p)
        }
        Ask::Narrow { p, test } => {
            answer_narrow::<S, L, H>(alloc, house, counted, search, p, test)
        }
        Ask::List => answer_list::<S, H>(alloc, house, search),
    }
}

/// Writes the values at an address.
pub(crate) fn answer_watch<S: Shape, L: Ledger, H: House>(
    alloc: Global,
    house: &mut H,
    counted: &mut CountedEditor<L>,
    watched: Watched,
) -> Result<(), Refusal>
    requires known { IsWidth watched.width }
    ensures out { ForSome (watch_text S.form (editor_pages counted.old.editor) watched.address watched.width
        watched.a watched.b)
        (λ text. Written (H.world house.old) (H.world house.new) result text) }
    ensures shows { OnOk result (OnlyShows counted.old.editor counted.new.editor) }
    ensures recording { current_recording counted.new.editor ≡ current_recording counted.old.editor }
    ensures rest { LeavesWriting (H.world house.old) (H.world house.new) }
{
    let Watched {
        address,
        width,
        a,
        b,
    } = watched;
    let CountedEditor { editor, steps } = counted;
    let what = ValueBytes { address, width };
    match watch(alloc, editor, what, a as usize, b as usize, steps) {
        Ok(values) => {
            let line = watched_line(alloc, address, values.as_slice())?;
            S::write(alloc, house, line.as_slice())
        }
        Err(RamRefusal::NoFrame) => S::write(alloc, house, b"refused no frame\n"),
        Err(RamRefusal::Outside) => S::write(alloc, house, b"refused outside\n"),
        Err(RamRefusal::OutOfMemory) => Err(Refusal::OutOfMemory),
    }
}

/// The line of the values at an address.
pub(crate) fn watched_line(
    alloc: Global,
    address: u32,
    values: &[u32],
) -> Result<Vec<u8>, OutOfMemory>
    ensures { IfOk result (λ line. line.items ≡ numbered (codes "watch") (address ∷ values.now)) }
{
    let mut line = Vec::new(alloc);
    add_words(&mut line, b"watch")?;
    add_number(&mut line, u64::from(address))?;
    for value in values {
        add_number(&mut line, u64::from(*value))?;
    }
    add_words(&mut line, b"\n")?;
    Ok(line)
}

/// Writes the line of a place that isn't there. If memory ran out, the run ends.
fn refuse_place<S: Shape, H: House>(
    alloc: Global,
    house: &mut H,
    refusal: RamRefusal,
) -> Result<(), Refusal>
    ensures out { Written (H.world house.old) (H.world house.new) result (S.form no_frame) }
    ensures cause { (refusal ≢ MemoryRefused)
        ⊎ WritesNothing (H.world house.old) (H.world house.new) result }
    ensures rest { LeavesWriting (H.world house.old) (H.world house.new) }
{
    match refusal {
        RamRefusal::OutOfMemory => Err(Refusal::OutOfMemory),
        RamRefusal::NoFrame | RamRefusal::Outside => {
            S::write(alloc, house, b"refused no frame\n")
        }
    }
}

/// Begins a search, unless it is refused.
fn answer_start<S: Shape, L: Ledger, H: House>(
    alloc: Global,
    house: &mut H,
    counted: &mut CountedEditor<L>,
    search: &mut Option<Search>,
    width: u32,
    p: u32,
) -> Result<(), Refusal>
    requires { IsWidth width }
    ensures told { GivesLineAnswer (H.world house.old) (H.world house.new) result
        counted.old.editor counted.new.editor search.new
        (answer_start S.form (editor_pages counted.old.editor) search.old width p) }
    ensures rest { LeavesWriting (H.world house.old) (H.world house.new) }
{
    match Search::start(
        alloc,
        &mut counted.editor,
        width,
        p as usize,
        &mut counted.steps,
    ) {
        Ok(begun) => {
            *search = Some(begun);
            Ok(())
        }
        Err(refusal) => refuse_place::<S, H>(alloc, house, refusal),
    }
}

/// Narrows the search that stands, unless there is none or it is refused.
fn answer_narrow<S: Shape, L: Ledger, H: House>(
    alloc: Global,
    house: &mut H,
    counted: &mut CountedEditor<L>,
    search: &mut Option<Search>,
    p: u32,
    test: Test,
) -> Result<(), Refusal>
    ensures told { GivesLineAnswer (H.world house.old) (H.world house.new) result
        counted.old.editor counted.new.editor search.new
        (answer_narrow S.form (editor_pages counted.old.editor) search.old p test) }
    ensures rest { LeavesWriting (H.world house.old) (H.world house.new) }
{
    match search {
        None => S::write(alloc, house, b"refused no search\n"),
        Some(standing) => match standing.narrow(
            alloc,
            &mut counted.editor,
            p as usize,
            test,
            &mut counted.steps,
        ) {
            Ok(()) => Ok(()),
            Err(refusal) => refuse_place::<S, H>(alloc, house, refusal),
        },
    }
}

/// Writes the addresses that the search has left, unless there is none.
fn answer_list<S: Shape, H: House>(
    alloc: Global,
    house: &mut H,
    search: &Option<Search>,
) -> Result<(), Refusal>
    ensures out { Written (H.world house.old) (H.world house.new) result
        (S.form (list_text search.now)) }
    ensures rest { LeavesWriting (H.world house.old) (H.world house.new) }
{
    match search {
        None => S::write(alloc, house, b"refused no search\n"),
        Some(standing) => {
            let lines = found_lines(alloc, standing.found())?;
            S::write(alloc, house, lines.as_slice())
        }
    }
}

/// How many addresses there are, and a line of each.
fn found_lines(alloc: Global, addresses: &[u32]) -> Result<Vec<u8>, OutOfMemory>
    ensures { IfOk result (λ lines. lines.items ≡ found_text addresses.now) }
{
    let mut lines = Vec::new(alloc);
    add_numbered(&mut lines, b"found", &[addresses.len() as u64])?;
    for address in addresses {
        add_address(&mut lines, *address)?;
    }
    Ok(lines)
}

/// Adds a line with an address.
fn add_address(lines: &mut Vec<u8>, address: u32) -> Result<(), OutOfMemory>
    ensures { OnOk result (lines.new.items ≡ lines.old.items ++ (decimal address ++ line_end)) }
{
    add_decimal(lines, u64::from(address))?;
    add_words(lines, b"\n")
}
