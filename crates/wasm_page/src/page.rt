//! The page, a box of its bytes.

ghost use Rattle.std.specs.Prelude.{◌≡◌, ◌+◌, ◌≤◌, ◌↔◌, ℕ, List, IfOk, IfNone, OnSome, IsSome, length, replicate};
ghost use Rattle.std.specs.Option.{SomeIff};
ghost use Rattle.w4_defs.specs.Bytes.{number_at, put_number};
ghost use Rattle.wasm_page.specs.Counts.{IsCount};

use crate::access::{index_in_page, length_of, load_at, store_at};
use std::alloc::Global;
use std::marker::Model;
use w4_defs::{OutOfMemory, PageBytes};

/// The memory of a cart. A contract sees it as the list of its bytes.
#[derive(Drop)]
pub struct Page {
    bytes: Box<PageBytes>,
}

impl Model for Page {
    ghost Value = { List ℕ };

    ghost view = { λ p. p.bytes.value };
}

impl Page {
    ghost use Rattle.std.specs.Borrow.{sem};
    ghost use Rattle.wasm_page.specs.Lending.{LendsBytes};

    /// A page of zeros.
    pub fn new(alloc: Global) -> Result<Page, OutOfMemory>
        ensures { IfOk result (λ p. p ≡ replicate 65536 0) }
    {
        Ok(Page {
            bytes: Box::new(alloc, [0; 65536])?,
        })
    }

    /// The bytes, to be read.
    pub fn bytes(&self) -> &PageBytes
        ensures value { result.now ≡ self.now }
        ensures long { length self.now ≡ 65536 }
    {
        length_of(&self.bytes);
        &self.bytes
    }

    /// The bytes, to be written: what they are when the borrow ends is the page.
    pub fn bytes_mut(&mut self) -> &mut PageBytes
        ensures* writes_back { sem 𝓛 (LendsBytes self.entry result) }
        ensures value { result.now ≡ self.old }
        ensures long { length self.old ≡ 65536 }
    {
        length_of(&self.bytes);
        &mut self.bytes
    }

    /// The number in `count` bytes from the address on, the lowest first. `count` is 1, 2, 4 or 8.
    /// None where an access passes the end; the sum of address and count is exact.
    pub fn load(&self, address: u64, count: usize) -> Option<u64>
        requires { IsCount count }
        ensures { SomeIff result (address + count ≤ 65536) (number_at self.now address count) }
    {
        let at = index_in_page(address, count)?;
        Some(load_at(&self.bytes, at, count))
    }

    /// Writes the lowest `count` bytes of the value from the address on, the lowest first. `count` is 1,
    /// 2, 4 or 8. None, and nothing changed, where the access passes the end.
    pub fn store(&mut self, address: u64, count: usize, value: u64) -> Option<()>
        requires { IsCount count }
        ensures stored { OnSome result (self.new ≡ put_number self.old address count value) }
        ensures unchanged { IfNone result (self.new ≡ self.old) }
        ensures within { IsSome result ↔ (address + count ≤ 65536) }
    {
        let at = index_in_page(address, count)?;
        store_at(&mut self.bytes, at, count, value);
        Some(())
    }
}
