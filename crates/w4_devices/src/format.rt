//! The line of `tracef` (project rule): a format whose places take their arguments from the page.

ghost use Rattle.std.specs.Prelude.{◌≡◌, ◌+◌, ◌++◌, ◌<◌, ◌≤◌, ◌^◌, length};
ghost use Rattle.w4_defs.specs.Traces.{argument_bytes, argument_text, formatted, line_of, tracef_line};
ghost use Rattle.w4_defs.specs.Words.{signed_word};
ghost use Rattle.std.specs.Fmt.{signed_decimal};

use crate::hexadecimal::add_hexadecimal;
use crate::line::Line;
use crate::page_bytes::{before_zero, bytes_from, word_at};
use itoa::Buffer;
use w4_defs::PageBytes;

/// The line of a format at `ptr` with its arguments from `args` on.
pub fn tracef_line(page: &PageBytes, ptr: u32, args: u32) -> Line
    ensures { result ≡ tracef_line page.now ptr args }
{
    formatted_line(page, before_zero(bytes_from(page, ptr)), args as usize)
}

/// The line of a format. A full line ends it, so that a long format reads no text in vain.
fn formatted_line(page: &PageBytes, format: &[u8], args: usize) -> Line
    requires format { length format.now ≤ 65536 }
    requires args { args < 2 ^ 32 }
    ensures { result ≡ line_of (formatted page.now format.now args) }
{
    let mut line = Line::new();
    let mut at = args;
    let mut i = 0;
    while i < format.len() {
        if line.is_full() {
            return line;
        }
        let byte = format[i];
        i += 1;
        if byte != b'%' {
            line.add(byte);
            continue;
        }
        if i < format.len() {
            let letter = format[i];
            i += 1;
            add_argument(&mut line, page, letter, at);
            at += argument_len(letter);
        }
    }
    line
}

/// Adds what `%` and a letter stand for, whose argument is at `at`.
fn add_argument(line: &mut Line, page: &PageBytes, letter: u8, at: usize)
    requires { at < 2 ^ 40 }
    ensures { line.new ≡ line_of (line.old ++ argument_text page.now letter at) }
{
    match letter {
        b'c' => line.add((word_at(page, at) % 256) as u8),
        b'd' => add_signed(line, word_at(page, at)),
        b'x' => add_hexadecimal(line, word_at(page, at)),
        b's' => line.add_all(before_zero(bytes_from(page, word_at(page, at)))),
        b'f' => line.add_all(b"<f64>"),
        _ => line.add(letter),
    }
}

/// Adds a word as a signed decimal.
fn add_signed(line: &mut Line, word: u32)
    ensures { line.new ≡ line_of (line.old ++ signed_decimal (signed_word word)) }
{
    line.add_all(Buffer::new().format(word.cast_signed()).as_bytes());
}

/// How many bytes of arguments a letter takes.
fn argument_len(letter: u8) -> usize
    ensures bytes { result ≡ argument_bytes letter }
    ensures bound { result ≤ 8 }
{
    match letter {
        b'c' | b'd' | b'x' | b's' => 4,
        b'f' => 8,
        _ => 0,
    }
}
