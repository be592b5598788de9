//! The lines of a text that aren't skipped.

ghost use Rattle.std.specs.Prelude.{◌≡◌, ◌≤◌, IfOk, length, map};
ghost use Rattle.w4_defs.specs.Lines.{lines_of};
ghost use Rattle.w4_script.specs.Words.{words_left};
ghost use Rattle.w4_script.specs.Lines.{line_view};

use crate::reading::Lines;
use crate::words::Words;
use std::alloc::Global;
use w4_defs::OutOfMemory;

/// A line that isn't skipped: its number in the text, counted from 1, skipped lines too, and its words. There
/// is at least one word, and none is empty.
#[derive(PartialEq, Eq, Debug, Drop)]
pub struct Line {
    pub number: u32,
    pub words: Vec<Vec<u8>>,
}

/// The words, each in memory of its own.
fn owned_words(alloc: Global, words: Words<'_>) -> Result<Vec<Vec<u8>>, OutOfMemory>
    ensures { IfOk result (λ owned. map (λ word. word.items) owned.items ≡ words_left words.entry) }
{
    let mut owned = Vec::new(alloc);
    for word in words {
        owned.push(Vec::from_slice(alloc, word)?)?;
    }
    Ok(owned)
}

/// The lines of a text that aren't skipped, in order. Byte 10 ends a line, one byte 13 at its end is dropped,
/// words are parted by spaces, and a line is skipped if it has no word or its first begins with `#`.
pub fn script_lines(alloc: Global, bytes: &[u8]) -> Result<Vec<Line>, OutOfMemory>
    requires { length bytes.now ≤ 1048576 }
    ensures { IfOk result (λ lines. map line_view lines.items ≡ lines_of bytes.now) }
{
    let mut lines = Vec::new(alloc);
    for line in Lines::of(bytes) {
        let words = owned_words(alloc, line.words)?;
        lines.push(Line {
            number: line.number,
            words,
        })?;
    }
    Ok(lines)
}
