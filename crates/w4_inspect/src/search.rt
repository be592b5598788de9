//! A search: a width, the last page, and the addresses that are left.

ghost use Rattle.std.specs.Prelude.{◌≡◌, ◌≤◌, filter, IfOk, length, take};
ghost use Rattle.w4_defs.specs.Search.{addresses, begin, test_holds_at, narrow};
ghost use Rattle.w4_inspect.specs.Search.{AreWithin};

use crate::values::{PageValue, Width, test_holds, value_in};
use std::alloc::Global;
use std::marker::Model;
use w4_defs::inspect::Test;
use w4_defs::{OutOfMemory, PageBytes};
use wasm_page::Page;

/// A search of the page by how the values in it change. A contract sees how many bytes a value has, the page
/// of the last call that was accepted, and the addresses that are left, in rising order.
#[derive(Drop)]
pub struct Search {
    width: Width,
    page: Page,
    candidates: Vec<u32>,
}

impl Model for Search {
    ghost use Rattle.w4_defs.specs.Search.{Search};
    ghost use Rattle.w4_inspect.specs.Search.{AreWithin};

    ghost Value = { Search };

    ghost view = { λ s. record {
      width = s.width.bytes;
      page = s.page;
      candidates = s.candidates.items;
    } };

    ghost invariant = { λ s. AreWithin s.width.bytes s.candidates.items };
}

impl Search {
    /// The addresses that are left, in rising order. Takes no memory.
    pub fn found(&self) -> &[u32]
        ensures { result.now ≡ self.now.candidates }
    {
        self.candidates.as_slice()
    }

    /// A search that begins with this page.
    pub(crate) fn begin(
        alloc: Global,
        width: Width,
        page: &PageBytes,
    ) -> Result<Search, OutOfMemory>
        ensures { IfOk result (λ search. search ≡ begin width.bytes page.now) }
    {
        Ok(Search {
            width,
            page: copy_of(alloc, page)?,
            candidates: addresses(alloc, width)?,
        })
    }

    /// Keeps the addresses at which the test holds between this page and the last one. Takes no memory.
    pub(crate) fn keep(&mut self, page: &PageBytes, test: Test)
        ensures { self.new ≡ narrow self.old (page.now, test) }
    {
        let last = self.page.bytes();
        retain(&mut self.candidates, self.width, test, page, last);
        self.page.bytes_mut().copy_from_slice(page);
    }
}

/// A page with these bytes.
pub(crate) fn copy_of(alloc: Global, bytes: &PageBytes) -> Result<Page, OutOfMemory>
    ensures { IfOk result (λ page. page ≡ bytes.now) }
{
    let mut page = Page::new(alloc)?;
    page.bytes_mut().copy_from_slice(bytes);
    Ok(page)
}

/// All addresses at which that many bytes lie in the page.
fn addresses(alloc: Global, width: Width) -> Result<Vec<u32>, OutOfMemory>
    ensures value { IfOk result (λ all. all.items ≡ addresses width.bytes) }
    ensures within { IfOk result (λ all. AreWithin width.bytes all.items) }
{
    let all = (0..65_537 - width.bytes).collect(alloc)?;
    Ok(all)
}

/// Keeps the addresses at which the test holds.
fn retain(candidates: &mut Vec<u32>, width: Width, test: Test, page: &PageBytes, last: &PageBytes)
    requires { AreWithin width.bytes candidates.old.items }
    ensures { candidates.new.items ≡ filter (test_holds_at width.bytes test page.now last.now)
        candidates.old.items }
{
    let kept = keep_first(candidates.as_mut_slice(), width, test, page, last);
    candidates.truncate(kept);
}

/// Moves the addresses at which the test holds to the front, in their order, and gives how many they are.
fn keep_first(
    candidates: &mut [u32],
    width: Width,
    test: Test,
    page: &PageBytes,
    last: &PageBytes,
) -> usize
    requires { AreWithin width.bytes candidates.old }
    ensures kept { take result candidates.new
        ≡ filter (test_holds_at width.bytes test page.now last.now) candidates.old }
    ensures few { result ≤ length candidates.old }
{
    let mut kept = 0;
    for i in 0..candidates.len() {
        let address = candidates[i];
        let what = PageValue { address, width };
        let new = value_in(page, what);
        let old = value_in(last, what);
        if test_holds(test, new, old) {
            candidates[kept] = address;
            kept += 1;
        }
    }
    kept
}
