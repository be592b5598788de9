//! The log of a house in memory.

ghost use Rattle.std.specs.Prelude.{◌≡◌, ◌++◌, ◌<◌, [], List, OnOk, OnErr, vec_len, vec_capacity};
ghost use Rattle.w4_defs.specs.World.{written_by, wrote};
ghost use Rattle.w4_house.specs.EventLog.{events_of, logged};

use crate::log_entry::LogEntry;
use std::alloc::{AllocError, Global};

/// All that was done, one entry after another, and in one piece the bytes that were written.
#[derive(Drop)]
pub(crate) struct EventLog {
    entries: Vec<LogEntry>,
    out: Vec<u8>,
    ghost in_one_piece: { written_by (logged entries.items) ≡ out.items },
}

impl EventLog {
    /// Nothing was done.
    pub(crate) fn new(alloc: Global) -> EventLog
        ensures { result.entries.items ≡ [] }
    {
        EventLog {
            entries: Vec::new(alloc),
            out: Vec::new(alloc),
        }
    }

    /// The entries.
    pub(crate) fn entries(&self) -> &[LogEntry]
        ensures { result.now ≡ self.now.entries.items }
    {
        self.entries.as_slice()
    }

    /// All bytes that were written.
    pub(crate) fn out(&self) -> &[u8]
        ensures { written_by (logged self.now.entries.items) ≡ result.now }
    {
        self.out.as_slice()
    }

    /// Makes room for one more entry, so that adding it can't fail once the thing is done.
    pub(crate) fn reserve(&mut self) -> Result<(), AllocError>
        ensures room { OnOk result (vec_len self.new.entries < vec_capacity self.new.entries) }
        ensures same { self.new.entries.items ≡ self.old.entries.items }
    {
        self.entries.reserve(1)
    }

    /// Adds an entry that writes nothing.
    pub(crate) fn add(&mut self, entry: LogEntry)
        requires room { vec_len self.old.entries < vec_capacity self.old.entries }
        requires silent { written_by (events_of entry) ≡ [] }
        ensures { logged self.new.entries.items ≡ logged self.old.entries.items ++ events_of entry }
    {
        self.entries.push_reserved(entry);
    }

    /// Adds bytes that are written. When memory runs out, nothing has changed.
    pub(crate) fn write(&mut self, alloc: Global, bytes: &[u8]) -> Result<(), AllocError>
        ensures all { OnOk result
            (logged self.new.entries.items ≡ logged self.old.entries.items ++ wrote bytes.now) }
        ensures same { OnErr result (self.new.entries.items ≡ self.old.entries.items) }
    {
        let piece = Vec::from_slice(alloc, bytes)?;
        self.entries.reserve(1)?;
        self.out.extend_from_slice(bytes)?;
        self.entries.push_reserved(LogEntry::Output(piece));
        Ok(())
    }
}
