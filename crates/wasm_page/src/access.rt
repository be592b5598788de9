//! Accesses of 1, 2, 4 and 8 bytes that lie in the page.

ghost use Rattle.std.specs.Prelude.{◌≡◌, ◌+◌, ◌≤◌, length};
ghost use Rattle.std.specs.Option.{SomeIff};
ghost use Rattle.w4_defs.specs.Bytes.{number_at, put_number};
ghost use Rattle.wasm_page.specs.Counts.{IsCount};

use w4_defs::PageBytes;

/// How long the bytes of a page are, for those who see only the page.
pub fn length_of(page: &PageBytes)
    ensures { length page.now ≡ 65536 }
{}

/// The address as an index, if that many bytes from there on lie in the page.
pub fn index_in_page(address: u64, count: usize) -> Option<usize>
    requires { IsCount count }
    ensures { SomeIff result (address + count ≤ 65536) address }
{
    let at = address as usize;
    if at <= 65536 - count { Some(at) } else { None }
}

/// The number in `count` bytes from this index on.
pub fn load_at(page: &PageBytes, at: usize, count: usize) -> u64
    requires count { IsCount count }
    requires within { at + count ≤ 65536 }
    ensures { result ≡ number_at page.now at count }
{
    match count {
        1 => u64::from(page[at]),
        2 => half(page, at),
        4 => word(page, at),
        _ => double(page, at),
    }
}

fn half(page: &PageBytes, at: usize) -> u64
    requires { at + 2 ≤ 65536 }
    ensures { result ≡ number_at page.now at 2 }
{
    u64::from(u16::from_le_bytes([page[at], page[at + 1]]))
}

fn word(page: &PageBytes, at: usize) -> u64
    requires { at + 4 ≤ 65536 }
    ensures { result ≡ number_at page.now at 4 }
{
    u64::from(u32::from_le_bytes([page[at], page[at + 1], page[at + 2], page[at + 3]]))
}

fn double(page: &PageBytes, at: usize) -> u64
    requires { at + 8 ≤ 65536 }
    ensures { result ≡ number_at page.now at 8 }
{
    u64::from_le_bytes([
        page[at],
        page[at + 1],
        page[at + 2],
        page[at + 3],
        page[at + 4],
        page[at + 5],
        page[at + 6],
        page[at + 7],
    ])
}

/// Writes the lowest `count` bytes of the value from this index on.
pub fn store_at(page: &mut PageBytes, at: usize, count: usize, value: u64)
    requires count { IsCount count }
    requires within { at + count ≤ 65536 }
    ensures { page.new ≡ put_number page.old at count value }
{
    match count {
        1 => put_byte(page, at, value),
        2 => put_half(page, at, value),
        4 => put_word(page, at, value),
        _ => put_double(page, at, value),
    }
}

fn put_byte(page: &mut PageBytes, at: usize, value: u64)
    requires { at + 1 ≤ 65536 }
    ensures { page.new ≡ put_number page.old at 1 value }
{
    let [a, ..] = value.to_le_bytes();
    page[at] = a;
}

fn put_half(page: &mut PageBytes, at: usize, value: u64)
    requires { at + 2 ≤ 65536 }
    ensures { page.new ≡ put_number page.old at 2 value }
{
    let [a, b, ..] = value.to_le_bytes();
    page[at] = a;
    page[at + 1] = b;
}

fn put_word(page: &mut PageBytes, at: usize, value: u64)
    requires { at + 4 ≤ 65536 }
    ensures { page.new ≡ put_number page.old at 4 value }
{
    let [a, b, c, d, ..] = value.to_le_bytes();
    page[at] = a;
    page[at + 1] = b;
    page[at + 2] = c;
    page[at + 3] = d;
}

fn put_double(page: &mut PageBytes, at: usize, value: u64)
    requires { at + 8 ≤ 65536 }
    ensures { page.new ≡ put_number page.old at 8 value }
{
    let [a, b, c, d, e, f, g, h] = value.to_le_bytes();
    page[at] = a;
    page[at + 1] = b;
    page[at + 2] = c;
    page[at + 3] = d;
    page[at + 4] = e;
    page[at + 5] = f;
    page[at + 6] = g;
    page[at + 7] = h;
}
