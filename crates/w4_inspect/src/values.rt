//! The value at an address of a page, and the tests on two values.

ghost use Rattle.std.specs.Prelude.{◌≡◌, ◌+◌, ◌≤◌, ◌||◌, ◌==◌, true};
ghost use Rattle.w4_defs.specs.Bytes.{number_at};
ghost use Rattle.w4_defs.specs.Search.{test_holds};
ghost use Rattle.w4_inspect.specs.Values.{IsWidth};

use w4_defs::PageBytes;
use w4_defs::inspect::Test;

/// How many bytes a value has: 1, 2 or 4.
#[derive(Clone, Copy)]
pub(crate) struct Width {
    pub bytes: u32,
    pub ghost known: { (bytes == 1 || bytes == 2 || bytes == 4) ≡ true },
}

/// A value in the page: where its bytes begin, and how many they are.
#[derive(Clone, Copy)]
pub(crate) struct PageValue {
    pub address: u32,
    pub width: Width,
    pub ghost within: { address + width.bytes ≤ 65536 },
}

impl Width {
    pub(crate) fn of(bytes: u32) -> Width
        requires { IsWidth bytes }
        ensures { result.bytes ≡ bytes }
    {
        Width { bytes }
    }
}

fn half(page: &PageBytes, at: usize) -> u32
    requires { at + 2 ≤ 65536 }
    ensures { result ≡ number_at page.now at 2 }
{
    u32::from(u16::from_le_bytes([page[at], page[at + 1]]))
}

fn word(page: &PageBytes, at: usize) -> u32
    requires { at + 4 ≤ 65536 }
    ensures { result ≡ number_at page.now at 4 }
{
    u32::from_le_bytes([page[at], page[at + 1], page[at + 2], page[at + 3]])
}

/// The number in the bytes of a value, the lowest first.
pub(crate) fn value_in(page: &PageBytes, what: PageValue) -> u32
    ensures { result ≡ number_at page.now what.address what.width.bytes }
{
    let at = what.address as usize;
    match what.width.bytes {
        1 => u32::from(page[at]),
        2 => half(page, at),
        _ => word(page, at),
    }
}

/// Whether a test holds between the new value and the old one.
pub fn test_holds(test: Test, new: u32, old: u32) -> bool
    ensures { result ≡ test_holds test new old }
{
    match test {
        Test::Is { value } => new == value,
        Test::Same => new == old,
        Test::Changed => new != old,
        Test::More => new > old,
        Test::Less => new < old,
    }
}
