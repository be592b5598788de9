//! Lines of a list that are read one after another.

ghost use Rattle.std.specs.Prelude.{◌≡◌, ◌+◌, ◌≤◌, length};

use crate::pieces::first_piece;
use crate::words::without_return;

/// A line of a list that isn't empty.
#[derive(Clone, Copy)]
pub struct NamedLine<'a> {
    pub number: u32,
    pub name: &'a [u8],
}

/// The lines of a list that are still to be read, and the number of the first of them.
#[derive(Clone, Copy)]
pub struct NameLines<'a> {
    number: u32,
    rest: &'a [u8],
    ghost counted: { number + length rest.now ≤ 65537 },
}

impl<'a> NameLines<'a> {
    ghost use Rattle.w4_script.specs.NameLines.{name_lines_left};
    ghost use Rattle.w4_defs.specs.NameLists.{name_lines};

    /// The lines of a list.
    pub fn of(bytes: &'a [u8]) -> NameLines<'a>
        requires { length bytes.now ≤ 65536 }
        ensures { name_lines_left result ≡ name_lines bytes.now }
    {
        NameLines {
            number: 1,
            rest: bytes,
        }
    }
}

impl<'a> Iterator for NameLines<'a> {
    ghost use Rattle.std.specs.Iterator.{YieldsFirstBy, item_count};
    ghost use Rattle.w4_script.specs.NameLines.{name_lines_left};
    ghost use Rattle.w4_script.specs.NameLines.{named_view};

    type Item = NamedLine<'a>;

    ghost next_gives = { YieldsFirstBy named_view name_lines_left };

    ghost remaining = { item_count name_lines_left };

    fn next(&mut self) -> Option<NamedLine<'a>> {
        while !self.rest.is_empty() {
            let (line, rest) = first_piece(self.rest, b'\n');
            let number = self.number;
            self.rest = rest;
            self.number = number + 1;
            let name = without_return(line);
            if !name.is_empty() {
                return Some(NamedLine { number, name });
            }
        }
        None
    }
}
