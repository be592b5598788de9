//! Worked cases of which chunks a capture copies, as the contract of a function that does nothing.

ghost use Rattle.w4_snap.specs.Chunks.{ChunkCases};

/// Some pages after others, and how many of their chunks are copied.
pub fn chunk_cases()
    ensures { ChunkCases }
{}
