//! How a piece of an answer is written: as it stands, or with its length before it.

ghost use Rattle.std.specs.Prelude.{◌≡◌, ℕ, List, ◌++◌, ◌∷◌, IfOk, decimal, length};
ghost use Rattle.w4_defs.specs.FrameTexts.{line_end};
ghost use Rattle.w4_defs.specs.Live.{framed};
ghost use Rattle.w4_defs.specs.PlaceTexts.{as_it_stands};
ghost use Rattle.w4_defs.specs.World.{LeavesWriting};
ghost use Rattle.w4_answers.specs.Writing.{Written};

use crate::writing::write_bytes;
use std::alloc::Global;
use w4_defs::{OutOfMemory, Refusal};
use w4_devices::text_parts::{add_decimal, add_words};
use w4_house::House;

/// A form in which the pieces of answers are written.
pub trait Shape {
    ghost form: { List ℕ → List ℕ };

    /// Writes a piece in this form.
    fn write<H: House>(alloc: Global, house: &mut H, bytes: &[u8]) -> Result<(), Refusal>
        ensures out { Written (H.world house.old) (H.world house.new) result (form bytes.now) }
        ensures rest { LeavesWriting (H.world house.old) (H.world house.new) };
}

/// A piece as it stands.
pub struct Plain;

/// A piece after its length; nothing for an empty one.
pub struct Framed;

impl Shape for Plain {
    ghost form = { as_it_stands };

    fn write<H: House>(alloc: Global, house: &mut H, bytes: &[u8]) -> Result<(), Refusal> {
        write_bytes(alloc, house, bytes)
    }
}

impl Shape for Framed {
    ghost form = { framed };

    fn write<H: House>(alloc: Global, house: &mut H, bytes: &[u8]) -> Result<(), Refusal> {
        match bytes {
            [] => Ok(()),
            [_, ..] => write_framed(alloc, house, bytes),
        }
    }
}

/// The line with the length of a piece.
fn length_line(alloc: Global, piece: &[u8]) -> Result<Vec<u8>, OutOfMemory>
    ensures { IfOk result (λ line. line.items ≡ decimal (length piece.now) ++ line_end) }
{
    let mut line = Vec::new(alloc);
    add_decimal(&mut line, piece.len() as u64)?;
    add_words(&mut line, b"\n")?;
    Ok(line)
}

/// Writes a piece after its length.
fn write_framed<H: House>(alloc: Global, house: &mut H, piece: &[u8]) -> Result<(), Refusal>
    ensures out { Written (H.world house.old) (H.world house.new) result
        (decimal (length piece.now) ++ 10 ∷ piece.now) }
    ensures rest { LeavesWriting (H.world house.old) (H.world house.new) }
{
    let line = length_line(alloc, piece)?;
    write_bytes(alloc, house, line.as_slice())?;
    write_bytes(alloc, house, piece)
}
