//! A page in chunks, which snapshots share.

ghost use Rattle.std.specs.Prelude.{◌≡◌, ◌+◌, ◌<◌, ◌↔◌, if◌then◌else◌, IfOk, IsTrue, length, option_map};
ghost use Rattle.std.specs.Rc.{rc_slice_items};
ghost use Rattle.w4_snap.specs.Chunks.{chunk_of, copied_among, is_copied};

use std::alloc::Global;
use std::marker::Model;
use std::rc::RcSlice;
use std::sync::ledger::Ledger;
use w4_defs::{OutOfMemory, PageBytes, Steps};

/// How many chunks a page has.
const CHUNKS: usize = 64;

/// How many bytes a chunk has.
const CHUNK_SIZE: usize = 1024;

/// The page of a snapshot, as 64 chunks of 1,024 bytes. A contract sees the list of its bytes; which chunks
/// are shared with other pages stands in no contract.
#[derive(Drop)]
pub struct SharedPage {
    chunks: Vec<RcSlice<u8>>,
}

impl Model for SharedPage {
    ghost use Rattle.std.specs.Prelude.{ℕ, List};
    ghost use Rattle.std.specs.List.{flat_map};
    ghost use Rattle.std.specs.Rc.{rc_slice_items};
    ghost use Rattle.w4_snap.specs.Chunks.{AreChunks};

    ghost Value = { List ℕ };

    ghost view = { λ p. flat_map rc_slice_items p.chunks.items };

    ghost invariant = { λ p. AreChunks rc_slice_items p.chunks.items };
}

impl SharedPage {
    /// A page in chunks, and how many of them were copied. The others are shared with the page before.
    pub fn new<L: Ledger>(
        alloc: Global,
        before: Option<&SharedPage>,
        page: &PageBytes,
        steps: &mut Steps<L>,
    ) -> Result<(SharedPage, u32), OutOfMemory>
        ensures page { IfOk result (λ r. r.0 ≡ page.now) }
        ensures copied { IfOk result
            (λ r. r.1 ≡ copied_among (option_map (λ p. p.now) before.entry) page.now 64) }
        ensures ticks { IfOk result (λ r. steps.new ≡ steps.old + r.1) }
    {
        let mut chunks = Vec::with_capacity(alloc, CHUNKS)?;
        let mut copied = 0;
        for k in 0..CHUNKS {
            let (chunk, is_new) = next_chunk(alloc, before, k, chunk_bytes(page, k), steps)?;
            chunks.push(chunk)?;
            copied += u32::from(is_new);
        }
        Ok((SharedPage { chunks }, copied))
    }

    /// Writes all bytes to a page. A chunk that is equal is written too: to compare it costs more.
    pub fn restore(&self, page: &mut PageBytes)
        ensures { page.new ≡ self.now }
    {
        for k in 0..self.chunks.len() {
            let at = CHUNK_SIZE * k;
            page[at..at + CHUNK_SIZE].copy_from_slice(self.chunk(k).as_slice());
        }
    }

    /// Whether the page is equal to another. Ends at the first chunk that differs.
    pub fn same(&self, page: &PageBytes) -> bool
        ensures { IsTrue result ↔ (self.now ≡ page.now) }
    {
        for k in 0..self.chunks.len() {
            if self.chunk(k).as_slice() != chunk_bytes(page, k) {
                return false;
            }
        }
        true
    }

    /// Chunk k.
    fn chunk(&self, k: usize) -> &RcSlice<u8>
        requires { k < 64 }
        ensures bytes { rc_slice_items result.now ≡ chunk_of k self.now }
        ensures long { length (rc_slice_items result.now) ≡ 1024 }
        ensures page { length self.now ≡ 65536 }
    {
        &self.chunks[k]
    }
}

/// The bytes of a page's chunk k.
fn chunk_bytes(page: &PageBytes, k: usize) -> &[u8]
    requires { k < 64 }
    ensures bytes { result.now ≡ chunk_of k page.now }
    ensures long { length result.now ≡ 1024 }
{
    &page[CHUNK_SIZE * k..CHUNK_SIZE * k + CHUNK_SIZE]
}

/// A chunk of these bytes: chunk k of the page before where that has them, a copy otherwise. With it comes
/// whether it was copied.
fn next_chunk<L: Ledger>(
    alloc: Global,
    before: Option<&SharedPage>,
    k: usize,
    bytes: &[u8],
    steps: &mut Steps<L>,
) -> Result<(RcSlice<u8>, bool), OutOfMemory>
    requires { k < 64 }
    ensures bytes { IfOk result (λ r. rc_slice_items r.0 ≡ bytes.now) }
    ensures copied { IfOk result (λ r. r.1 ≡ is_copied (option_map (λ p. p.now) before.entry) bytes.now k) }
    ensures ticks { IfOk result (λ r. steps.new ≡ steps.old + (if r.1 then 1 else 0)) }
{
    if let Some(page) = before {
        let chunk = page.chunk(k);
        if chunk.as_slice() == bytes {
            return Ok((chunk.clone()?, false));
        }
    }
    Ok((copied(alloc, bytes, steps)?, true))
}

/// A copy of a chunk, which counts as one step: no other function copies one.
fn copied<L: Ledger>(
    alloc: Global,
    bytes: &[u8],
    steps: &mut Steps<L>,
) -> Result<RcSlice<u8>, OutOfMemory>
    ensures bytes { IfOk result (λ chunk. rc_slice_items chunk ≡ bytes.now) }
    ensures ticks { steps.new ≡ steps.old + 1 }
{
    steps.tick();
    Ok(RcSlice::from_slice(alloc, bytes)?)
}
