//! One trace line, which is cut after 128 bytes.

ghost use Rattle.std.specs.Prelude.{◌≡◌, ◌==◌, ◌∷◌, ◌++◌, [], ◌≤◌, length};
ghost use Rattle.w4_defs.specs.Traces.{line_of};

use crate::bounded::append;
use arrayvec::ArrayVec;
use std::marker::Model;

/// How many bytes a line has room for.
const LINE_ROOM: usize = 128;

/// A line of at most 128 bytes: what is added past them is lost. A contract sees the list of its bytes.
#[derive(Debug, Drop)]
pub struct Line {
    bytes: ArrayVec<u8, LINE_ROOM>,
}

impl Model for Line {
    ghost use Rattle.std.specs.Prelude.{List, ℕ};

    ghost Value = { List ℕ };

    ghost view = { λ line. line.bytes.items };
}

impl Default for Line {
    ghost is_default = { λ line. line ≡ [] };

    fn default() -> Line {
        Line::new()
    }
}

impl Line {
    /// An empty line.
    pub fn new() -> Line
        ensures { result ≡ [] }
    {
        Line {
            bytes: ArrayVec::new(),
        }
    }

    /// A line of these bytes.
    pub fn of(bytes: &[u8]) -> Line
        ensures { result ≡ line_of bytes.now }
    {
        let mut line = Line::new();
        line.add_all(bytes);
        line
    }

    /// Another line with the same bytes.
    pub fn copy(&self) -> Line
        ensures { result ≡ self.now }
    {
        Line::of(self.bytes())
    }

    /// Adds bytes at the line's end.
    pub fn add_all(&mut self, bytes: &[u8])
        ensures { self.new ≡ line_of (self.old ++ bytes.now) }
    {
        let count = self.bytes.remaining_capacity().min(bytes.len());
        append(&mut self.bytes, &bytes[..count]);
    }

    /// Adds a byte at the line's end.
    pub fn add(&mut self, byte: u8)
        ensures { self.new ≡ line_of (self.old ++ byte ∷ []) }
    {
        self.add_all(&[byte]);
    }

    /// Whether the line has all the bytes it has room for.
    pub fn is_full(&self) -> bool
        ensures { result ≡ (length self.now == 128) }
    {
        self.bytes.is_full()
    }

    /// The line's bytes.
    pub fn bytes(&self) -> &[u8]
        ensures bytes { result.now ≡ self.now }
        ensures bound { length result.now ≤ 128 }
    {
        self.bytes.as_slice()
    }
}
