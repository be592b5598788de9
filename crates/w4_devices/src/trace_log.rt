//! The trace lines of one frame.

ghost use Rattle.std.specs.Prelude.{◌≡◌, ◌≤◌, length};
ghost use Rattle.w4_defs.specs.Logs.{empty_log, kept_lines, logged};
ghost use Rattle.w4_defs.specs.Traces.{trace_line, tracef_line};

use crate::format::tracef_line;
use crate::line::Line;
use crate::source::trace_line;
use arrayvec::ArrayVec;
use std::marker::Model;
use w4_defs::{PageBytes, TextSource};

/// How many lines of a frame are kept.
const KEPT_LINES: usize = 32;

/// The first 32 lines of a frame, and how many came later: that count stays at its greatest value. A
/// contract sees the log of their bytes.
#[derive(Debug, Drop)]
pub struct TraceLog {
    lines: ArrayVec<Line, KEPT_LINES>,
    dropped: u64,
}

impl Model for TraceLog {
    ghost use Rattle.std.specs.Prelude.{List, ℕ};
    ghost use Rattle.w4_defs.specs.Logs.{Log};

    ghost Value = { Log (List ℕ) };

    ghost view = { λ log. record { items = log.lines.items; dropped = log.dropped } };
}

impl TraceLog {
    /// A log without lines.
    pub fn new() -> TraceLog
        ensures { result ≡ empty_log }
    {
        TraceLog {
            lines: ArrayVec::new(),
            dropped: 0,
        }
    }

    /// Empties the log. Only the lines that it had are written over.
    pub fn clear(&mut self)
        ensures { self.new ≡ empty_log }
    {
        self.lines.clear();
        self.dropped = 0;
    }

    /// Adds the line of `trace`, `traceUtf8` or `traceUtf16`.
    pub fn trace(&mut self, page: &PageBytes, source: TextSource)
        ensures { self.new ≡ logged kept_lines self.old (trace_line page.now source) }
    {
        self.add(trace_line(page, source));
    }

    /// Adds the line of `tracef`: the format is at `ptr`, its arguments from `args` on.
    pub fn tracef(&mut self, page: &PageBytes, ptr: u32, args: u32)
        ensures { self.new ≡ logged kept_lines self.old (tracef_line page.now ptr args) }
    {
        self.add(tracef_line(page, ptr, args));
    }

    /// Becomes as another log. Only the lines that it has are copied.
    pub fn copy_from(&mut self, other: &TraceLog)
        ensures { self.new ≡ other.now }
    {
        self.lines.clear();
        for line in other.lines() {
            self.lines.push(line.copy());
        }
        self.dropped = other.dropped;
    }

    fn add(&mut self, line: Line)
        ensures { self.new ≡ logged kept_lines self.old line }
    {
        if self.lines.is_full() {
            self.dropped = self.dropped.saturating_add(1);
        } else {
            self.lines.push(line);
        }
    }

    /// The lines that were kept, in order.
    pub(crate) fn lines(&self) -> &[Line]
        ensures lines { result.now ≡ self.now.items }
        ensures few { length result.now ≤ 32 }
    {
        self.lines.as_slice()
    }

    /// How many lines were dropped.
    pub(crate) fn dropped(&self) -> u64
        ensures { result ≡ self.now.dropped }
    {
        self.dropped
    }
}
