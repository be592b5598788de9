//! What a call keeps of the framebuffer while it paints it.

ghost use Rattle.std.specs.Prelude.{◌+◌, ◌≡◌, ◌≤◌, length, slice_range};

use w4_defs::PageBytes;

/// The bytes of the page from number `first` on as they were when the call began, those that the call reads
/// of the framebuffer.
#[derive(Clone, Copy)]
pub(crate) struct Kept<'a> {
    pub first: usize,
    pub bytes: &'a [u8],
}

/// The page while the framebuffer is painted, and what is kept of it: together the page when the call began.
/// Each pixel that is painted is written between two readings, so a call that paints is lent the two apart.
#[derive(Clone, Copy)]
pub(crate) struct Source<'a> {
    pub page: &'a PageBytes,
    pub kept: Kept<'a>,
    pub ghost whole: { length page.now ≡ 65536 },
}

/// `len` bytes of the page from `first` on, and 0 for the others.
pub(crate) fn many_bytes(page: &PageBytes, first: usize, len: usize) -> [u8; 6400]
    requires many { len ≤ 6400 }
    requires there { first + len ≤ 65536 }
    ensures { slice_range result 0 len ≡ slice_range page.now first (first + len) }
{
    let mut copy_bytes = [0; 6400];
    copy_bytes[..len].copy_from_slice(&page[first..first + len]);
    copy_bytes
}

/// `len` bytes of the page from `first` on, where they are few.
pub(crate) fn few_bytes(page: &PageBytes, first: usize, len: usize) -> [u8; 256]
    requires few { len ≤ 256 }
    requires there { first + len ≤ 65536 }
    ensures { slice_range result 0 len ≡ slice_range page.now first (first + len) }
{
    let mut copy_bytes = [0; 256];
    copy_bytes[..len].copy_from_slice(&page[first..first + len]);
    copy_bytes
}
