//! Words and numbers that are added to a text.

ghost use Rattle.std.specs.Prelude.{◌≡◌, ◌++◌, OnOk, decimal};
ghost use Rattle.w4_defs.specs.FrameTexts.{numbered, spaced};
ghost use Rattle.w4_defs.specs.MadeSummary.{hexadecimal};

use crate::hexadecimal::hex_digit;
use itoa::Buffer;
use w4_defs::OutOfMemory;

/// Adds words as they are.
pub fn add_words(text: &mut Vec<u8>, words: &[u8]) -> Result<(), OutOfMemory>
    ensures { OnOk result (text.new.items ≡ text.old.items ++ words.now) }
{
    text.extend_from_slice(words)?;
    Ok(())
}

/// Adds a number.
pub fn add_decimal(text: &mut Vec<u8>, number: u64) -> Result<(), OutOfMemory>
    ensures { OnOk result (text.new.items ≡ text.old.items ++ decimal number) }
{
    text.extend_from_slice(Buffer::new().format(number).as_bytes())?;
    Ok(())
}

/// Adds a number after a space.
pub fn add_number(text: &mut Vec<u8>, number: u64) -> Result<(), OutOfMemory>
    ensures { OnOk result (text.new.items ≡ text.old.items ++ spaced number) }
{
    text.push(b' ')?;
    add_decimal(text, number)
}

/// Adds a line of a word and numbers, each after a space.
pub fn add_numbered(text: &mut Vec<u8>, word: &[u8], numbers: &[u64]) -> Result<(), OutOfMemory>
    ensures { OnOk result (text.new.items ≡ text.old.items ++ numbered word.now numbers.now) }
{
    text.extend_from_slice(word)?;
    for number in numbers {
        add_number(text, *number)?;
    }
    text.push(b'\n')?;
    Ok(())
}

/// Adds bytes, each as two hexadecimal digits.
pub fn add_hexadecimal(text: &mut Vec<u8>, bytes: &[u8]) -> Result<(), OutOfMemory>
    ensures { OnOk result (text.new.items ≡ text.old.items ++ hexadecimal bytes.now) }
{
    for byte in bytes {
        text.push(hex_digit(*byte / 16))?;
        text.push(hex_digit(*byte % 16))?;
    }
    Ok(())
}
