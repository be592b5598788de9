//! The words of a line.

ghost use Rattle.std.specs.Prelude.{◌≡◌};
ghost use Rattle.std.specs.Io.BufRead.{strip_last};
ghost use Rattle.w4_defs.specs.Lines.{is_skipped, words_of};
ghost use Rattle.w4_script.specs.Words.{words_left};

use crate::pieces::first_piece;

/// The words of a line that are still to be read.
#[derive(Clone, Copy)]
pub struct Words<'a> {
    rest: &'a [u8],
}

/// The line without a byte 13 at its end.
pub fn without_return(line: &[u8]) -> &[u8]
    ensures { result.now ≡ strip_last 13 line.now }
{
    match line {
        [front @ .., b'\r'] => front,
        _ => line,
    }
}

/// The words of a line, parted by one or more spaces. One byte 13 at the line's end isn't part of it.
pub fn words_of(line: &[u8]) -> Words<'_>
    ensures { words_left result ≡ words_of line.now }
{
    Words {
        rest: without_return(line),
    }
}

/// Whether a line with these words is skipped: there are none, or the first begins with `#`.
pub fn is_skipped(mut words: Words<'_>) -> bool
    ensures { result ≡ is_skipped (words_left words.entry) }
{
    match words.next() {
        Some(first) => first.starts_with(b"#"),
        None => true,
    }
}

impl<'a> Iterator for Words<'a> {
    ghost use Rattle.std.specs.Iterator.{YieldsFirstBy, item_count};
    ghost use Rattle.w4_script.specs.Words.{words_left};

    type Item = &'a [u8];

    ghost next_gives = { YieldsFirstBy (λ word. word.now) words_left };

    ghost remaining = { item_count words_left };

    fn next(&mut self) -> Option<&'a [u8]> {
        while !self.rest.is_empty() {
            let (word, rest) = first_piece(self.rest, b' ');
            self.rest = rest;
            if !word.is_empty() {
                return Some(word);
            }
        }
        None
    }
}
