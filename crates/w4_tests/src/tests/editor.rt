//! An editor that one function owns, since each place where one may be dropped costs much to prove, and what
//! tests do with it while it is lent to them.

ghost use Rattle.w4_console.specs.Counting.{IsBlankOf};

use super::segments::{check_film, check_settling};
use crate::carts::{IDLE, cart, font, pad};
use std::alloc::Global;
use std::marker::Brand;
use std::process::Abort;
use std::sync::ledger::{Blank, Ledger};
use std::test::Fail;
use std::thread::Threads;
use w4_defs::{EditRefusal, Steps};
use w4_editor::Editor;
use w4_inspect::{RamRefusal, Search, Test, ValueBytes, watch};
use w4_record::Recording;

/// What a test does with an editor that is lent to it.
#[derive(Clone, Copy)]
pub enum Trial {
    Memory,
    Film,
    Settling,
}

/// An editor of two frames of zeros.
fn editor(alloc: Global) -> Result<Editor, Fail> {
    let inputs = Vec::from_slice(alloc, &[pad(0), pad(0)])?;
    let recording = Recording::new([7; 32], 100_000, Vec::new(alloc), inputs);
    let font = font()?;
    let cart = cart(alloc, &IDLE)?;
    let editor = Editor::new(alloc, cart, font, recording)?;
    Ok(editor)
}

/// Tests one thing with an editor of its own.
pub fn check<R: Threads + Sync + Abort>(rt: &R, alloc: Global, trial: Trial) -> Result<(), Fail> {
    let mut editor = editor(alloc)?;
    let end = check_lent::<R, Brand>(rt, alloc, &mut editor, trial, Blank::new(1));
    editor.close();
    end
}

/// Tests one thing with an editor whose places are all kept.
fn check_lent<R: Threads + Sync + Abort, L: Ledger>(
    rt: &R,
    alloc: Global,
    editor: &mut Editor,
    trial: Trial,
    blank: Blank,
) -> Result<(), Fail>
    requires { IsBlankOf L.name L.parts blank }
{
    let steps = &mut Steps::<L>::new(blank);
    keep_both(alloc, editor, steps)?;
    match trial {
        Trial::Memory => check_memory(rt, alloc, editor, steps),
        Trial::Film => check_film(rt, alloc, editor),
        Trial::Settling => check_settling(rt, alloc, editor),
    }
}

/// Keeps places 1 and 2.
fn keep_both<L: Ledger>(
    alloc: Global,
    editor: &mut Editor,
    steps: &mut Steps<L>,
) -> Result<(), EditRefusal> {
    editor.keep(alloc, 1, steps)?;
    editor.keep(alloc, 2, steps)?;
    Ok(())
}

/// Input 0 is set, so that the settling captures another state of place 1.
fn set_and_settle<L: Ledger>(
    alloc: Global,
    editor: &mut Editor,
    steps: &mut Steps<L>,
) -> Result<(), EditRefusal> {
    editor.set(alloc, 0, pad(1))?;
    editor.settle(alloc, steps)
}

/// How many bytes have risen from place 0 to place 1.
fn count_risen<L: Ledger>(
    alloc: Global,
    editor: &mut Editor,
    steps: &mut Steps<L>,
) -> Result<usize, RamRefusal> {
    let mut search = Search::start(alloc, editor, 1, 0, steps)?;
    search.narrow(alloc, editor, 1, Test::More, steps)?;
    Ok(search.found().len())
}

/// Tests that a settling, a watch of the first pad and a search for it succeed.
fn check_memory<R: Abort, L: Ledger>(
    rt: &R,
    alloc: Global,
    editor: &mut Editor,
    steps: &mut Steps<L>,
) -> Result<(), Fail> {
    set_and_settle(alloc, editor, steps)?;
    let pad = ValueBytes {
        address: 22,
        width: 1,
    };
    let values = watch(alloc, editor, pad, 0, 2, steps).map_err(|_| "no values")?;
    assert!(rt; values.as_slice() == [0, 1, 0].as_slice());
    assert!(rt; count_risen(alloc, editor, steps) == Ok(1));
    Ok(())
}

#[test]
fn calls_succeed_with_ample_memory(rt: HostRuntime) -> Result<(), Fail> {
    check(&rt, rt.alloc(), Trial::Memory)
}
