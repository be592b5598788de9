//! Lines that are read one after another.

ghost use Rattle.std.specs.Prelude.{◌≡◌, ◌+◌, ◌≤◌, length};

use crate::pieces::first_piece;
use crate::words::{Words, is_skipped, words_of};

/// A line that isn't skipped, with its words still to be read.
#[derive(Clone, Copy)]
pub struct WrittenLine<'a> {
    pub number: u32,
    pub words: Words<'a>,
}

/// The lines that are still to be read, and the number of the first of them.
#[derive(Clone, Copy)]
pub struct Lines<'a> {
    number: u32,
    rest: &'a [u8],
    ghost counted: { number + length rest.now ≤ 1048577 },
}

impl<'a> Lines<'a> {
    ghost use Rattle.w4_defs.specs.Lines.{lines_of};
    ghost use Rattle.w4_script.specs.Reading.{lines_left};

    /// The lines of a text.
    pub fn of(bytes: &'a [u8]) -> Lines<'a>
        requires { length bytes.now ≤ 1048576 }
        ensures { lines_left result ≡ lines_of bytes.now }
    {
        Lines {
            number: 1,
            rest: bytes,
        }
    }
}

impl<'a> Iterator for Lines<'a> {
    ghost use Rattle.std.specs.Iterator.{YieldsFirstBy, item_count};
    ghost use Rattle.w4_script.specs.Reading.{lines_left};
    ghost use Rattle.w4_script.specs.Reading.{written_view};

    type Item = WrittenLine<'a>;

    ghost next_gives = { YieldsFirstBy written_view lines_left };

    ghost remaining = { item_count lines_left };

    fn next(&mut self) -> Option<WrittenLine<'a>> {
        while !self.rest.is_empty() {
            let (line, rest) = first_piece(self.rest, b'\n');
            let number = self.number;
            self.rest = rest;
            self.number = number + 1;
            let words = words_of(line);
            if !is_skipped(words) {
                return Some(WrittenLine { number, words });
            }
        }
        None
    }
}
