//! A recording as text: comments, and a line for each input.

ghost use Rattle.std.specs.Prelude.{◌≡◌, ◌+◌, ◌^◌, ◌<◌, ◌++◌, ◌∷◌, [], OnOk, codes, flat_map, length};
ghost use Rattle.w4_defs.specs.FrameTexts.{line_end, numbered, spaced};
ghost use Rattle.w4_defs.specs.InputsText.{disk_remark, input_lines, input_words, reset_word_of, spaced_coordinate};

use w4_defs::{Input, OutOfMemory};
use w4_devices::text_parts::{add_decimal, add_hexadecimal, add_number, add_numbered, add_words};

/// Adds the comment with a budget.
pub fn add_budget(text: &mut Vec<u8>, budget: u32) -> Result<(), OutOfMemory>
    ensures { OnOk result (text.new.items ≡ text.old.items ++ numbered (codes "# budget") (budget ∷ [])) }
{
    add_numbered(text, b"# budget", &[u64::from(budget)])
}

/// Adds the comment with a disk.
pub fn add_disk(text: &mut Vec<u8>, disk: &[u8]) -> Result<(), OutOfMemory>
    ensures { OnOk result (text.new.items ≡ text.old.items ++ disk_remark disk.now) }
{
    if disk.is_empty() {
        return add_words(text, b"# disk\n");
    }
    add_words(text, b"# disk ")?;
    add_hexadecimal(text, disk)?;
    add_words(text, b"\n")
}

/// Adds a coordinate after a space.
fn add_coordinate(text: &mut Vec<u8>, coordinate: i16) -> Result<(), OutOfMemory>
    ensures { OnOk result (text.new.items ≡ text.old.items ++ spaced_coordinate coordinate) }
{
    if coordinate >= 0 {
        return add_number(text, u64::from(coordinate.unsigned_abs()));
    }
    add_words(text, b" -")?;
    add_decimal(text, u64::from(coordinate.unsigned_abs()))
}

/// Adds the numbers of four pads.
fn add_pads(text: &mut Vec<u8>, pads: &[u8; 4]) -> Result<(), OutOfMemory>
    ensures { OnOk result (text.new.items ≡ text.old.items ++ flat_map spaced pads.now) }
{
    for pad in pads {
        add_number(text, u64::from(*pad))?;
    }
    Ok(())
}

/// Adds the word of a reset, if there is one.
fn add_reset(text: &mut Vec<u8>, reset: bool) -> Result<(), OutOfMemory>
    ensures { OnOk result (text.new.items ≡ text.old.items ++ reset_word_of reset) }
{
    if reset {
        return add_words(text, b" reset");
    }
    Ok(())
}

/// Adds what follows an order's name: the number of an input, and the input.
fn add_input(text: &mut Vec<u8>, number: usize, input: &Input) -> Result<(), OutOfMemory>
    ensures { OnOk result (text.new.items ≡ text.old.items ++ input_words number input.now) }
{
    add_number(text, number as u64)?;
    add_pads(text, &input.pads)?;
    add_coordinate(text, input.mouse_x)?;
    add_coordinate(text, input.mouse_y)?;
    add_number(text, u64::from(input.buttons))?;
    add_reset(text, input.reset)
}

/// Adds the line of an input, by the name of the order.
pub fn add_input_line(
    text: &mut Vec<u8>,
    word: &[u8],
    number: usize,
    input: &Input,
) -> Result<(), OutOfMemory>
    ensures { OnOk result (text.new.items
        ≡ text.old.items ++ word.now ++ input_words number input.now ++ line_end) }
{
    add_words(text, word)?;
    add_input(text, number, input)?;
    add_words(text, b"\n")
}

/// Adds the lines of inputs from this number on.
pub fn add_input_lines(
    text: &mut Vec<u8>,
    word: &[u8],
    from: usize,
    inputs: &[Input],
) -> Result<(), OutOfMemory>
    requires { from + length inputs.now < 2 ^ 64 }
    ensures { OnOk result (text.new.items ≡ text.old.items ++ input_lines word.now from inputs.now) }
{
    for i in 0..inputs.len() {
        add_input_line(text, word, from + i, &inputs[i])?;
    }
    Ok(())
}
