//! The lines that tell of units (project rule). Each ends with byte 10.

ghost use Rattle.std.specs.Prelude.{◌≡◌, ◌++◌, OnErr, OnOk, option_map};
ghost use Rattle.w4_defs.specs.Units.{after_reset, start_line, taken_words};
ghost use Rattle.w4_console.specs.Taken.{frame_line, taken_of};

use crate::taken::{FrameTaken, Taken};
use std::alloc::Global;
use w4_defs::OutOfMemory;
use w4_devices::text_parts::{add_decimal, add_words};

/// Appends the line of the frame from place `k` on. If memory is refused, `out` is unchanged.
pub fn units_line(
    alloc: Global,
    k: usize,
    taken: FrameTaken,
    out: &mut Vec<u8>,
) -> Result<(), OutOfMemory>
    ensures text { OnOk result (out.new.items ≡ out.old.items ++ frame_line k taken) }
    ensures unchanged { OnErr result (out.new.items ≡ out.old.items) }
{
    let mut text = Vec::new(alloc);
    add_frame(&mut text, k, taken)?;
    out.extend_from_slice(&text)?;
    Ok(())
}

/// Appends the line of a reset. If memory is refused, `out` is unchanged.
pub fn start_line(alloc: Global, taken: Taken, out: &mut Vec<u8>) -> Result<(), OutOfMemory>
    ensures text { OnOk result (out.new.items ≡ out.old.items ++ start_line (taken_of taken)) }
    ensures unchanged { OnErr result (out.new.items ≡ out.old.items) }
{
    let mut text = Vec::new(alloc);
    add_start(&mut text, taken)?;
    out.extend_from_slice(&text)?;
    Ok(())
}

fn add_frame(text: &mut Vec<u8>, k: usize, taken: FrameTaken) -> Result<(), OutOfMemory>
    ensures { OnOk result (text.new.items ≡ text.old.items ++ frame_line k taken) }
{
    text.extend_from_slice(b"units ")?;
    add_decimal(text, k as u64)?;
    text.push(b' ')?;
    add_taken(text, taken.update)?;
    add_reset(text, taken.start)?;
    text.push(b'\n')?;
    Ok(())
}

fn add_start(text: &mut Vec<u8>, taken: Taken) -> Result<(), OutOfMemory>
    ensures { OnOk result (text.new.items ≡ text.old.items ++ start_line (taken_of taken)) }
{
    text.extend_from_slice(b"start ")?;
    add_taken(text, taken)?;
    text.push(b'\n')?;
    Ok(())
}

/// Adds what the reset of a frame took, where it had one.
fn add_reset(text: &mut Vec<u8>, start: Option<Taken>) -> Result<(), OutOfMemory>
    ensures { OnOk result (text.new.items ≡ text.old.items ++ after_reset (option_map taken_of start)) }
{
    let Some(taken) = start else {
        return Ok(());
    };
    text.extend_from_slice(b" start ")?;
    add_taken(text, taken)
}

fn add_taken(text: &mut Vec<u8>, taken: Taken) -> Result<(), OutOfMemory>
    ensures { OnOk result (text.new.items ≡ text.old.items ++ taken_words (taken_of taken)) }
{
    match taken {
        Taken::Units(units) => add_decimal(text, units.into()),
        Taken::Halted => add_words(text, b"halted"),
        Taken::Trapped => add_words(text, b"trap"),
        Taken::Spent => add_words(text, b"spent"),
    }
}
