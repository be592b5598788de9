//! The line of a state.

ghost use Rattle.std.specs.Prelude.{◌≡◌, ◌++◌, flat_map, length, IfOk, OnOk};
ghost use Rattle.w4_defs.specs.FrameTexts.{cause_words, halt_words, spaced, state_line};
ghost use Rattle.w4_defs.specs.State.{State};
ghost use Rattle.w4_editor.specs.Editor.{place_session};

use std::alloc::Global;
use w4_defs::{Cause, Halt, OutOfMemory};
use w4_devices::text_parts::{add_number, add_words};
use w4_editor::Editor;

fn add_cause(text: &mut Vec<u8>, cause: Cause) -> Result<(), OutOfMemory>
    ensures { OnOk result (text.new.items ≡ text.old.items ++ cause_words cause) }
{
    match cause {
        Cause::Unreachable => add_words(text, b"unreachable"),
        Cause::DivideByZero => add_words(text, b"divide by zero"),
        Cause::Overflow => add_words(text, b"overflow"),
        Cause::Memory => add_words(text, b"memory"),
        Cause::Table => add_words(text, b"table"),
        Cause::EmptyEntry => add_words(text, b"empty entry"),
        Cause::Type_ => add_words(text, b"type"),
        Cause::Stack => add_words(text, b"stack"),
    }
}

fn add_trap(text: &mut Vec<u8>, cause: Cause) -> Result<(), OutOfMemory>
    ensures { OnOk result (text.new.items ≡ text.old.items ++ halt_words (Halt.Trapped cause)) }
{
    add_words(text, b"trap ")?;
    add_cause(text, cause)
}

/// Adds the words of a halt.
pub fn add_halt(text: &mut Vec<u8>, halt: Halt) -> Result<(), OutOfMemory>
    ensures { OnOk result (text.new.items ≡ text.old.items ++ halt_words halt) }
{
    match halt {
        Halt::Running => add_words(text, b"running"),
        Halt::Trapped(cause) => add_trap(text, cause),
        Halt::Spent => add_words(text, b"spent"),
    }
}

/// Adds the places that an editor keeps.
fn add_kept(text: &mut Vec<u8>, editor: &Editor) -> Result<(), OutOfMemory>
    ensures { OnOk result (text.new.items
        ≡ text.old.items ++ flat_map spaced (place_session editor.now).current.kept) }
{
    for i in 0..editor.kept_count() {
        add_number(text, editor.kept_place(i) as u64)?;
    }
    Ok(())
}

/// The line of a state.
#[derive(Clone, Copy)]
pub struct Facts {
    pub halt: Halt,
    pub disk_len: usize,
}

/// The line of the state at a place of `count` inputs, with the places that the editor keeps.
#[tactic(auto, unfolding(w4_defs::specs::FrameTexts::state_line))]
pub fn state_line(
    alloc: Global,
    editor: &Editor,
    place: usize,
    count: usize,
    facts: Facts,
) -> Result<Vec<u8>, OutOfMemory>
    ensures { IfOk result (λ line. (state : State) → state.halt ≡ facts.halt
        → length state.disk ≡ facts.disk_len
        → line.items ≡ state_line place count state (place_session editor.now).current.kept) }
{
    let mut text = Vec::new(alloc);
    add_words(&mut text, b"state")?;
    add_number(&mut text, place as u64)?;
    add_words(&mut text, b" of")?;
    add_number(&mut text, count as u64)?;
    add_words(&mut text, b" halt ")?;
    add_halt(&mut text, facts.halt)?;
    add_words(&mut text, b" disk")?;
    add_number(&mut text, facts.disk_len as u64)?;
    add_words(&mut text, b" kept")?;
    add_kept(&mut text, editor)?;
    add_words(&mut text, b"\n")?;
    Ok(text)
}
