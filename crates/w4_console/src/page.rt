//! What the console itself writes to the page (WASM-4 memory map).

ghost use Rattle.std.specs.Prelude.{◌≡◌, ◌+◌, ◌≤◌, length};
ghost use Rattle.w4_defs.specs.Frame.{cleared, page_after_input};
ghost use Rattle.w4_defs.specs.Reset.{first_page, start_page};
ghost use Rattle.w4_defs.specs.Bytes.{put_bytes};
ghost use Rattle.w4_defs.specs.State.{zero_page};

use w4_defs::{Input, PageBytes};
use w4_map::{put_input, system_flags};
use wasm_register::Cart;

/// Blue, green, red and 0 of the four palette entries e0f8cf, 86c06c, 306850 and 071821.
const PALETTE: [u8; 16] = [
    0xcf, 0xf8, 0xe0, 0, 0x6c, 0xc0, 0x86, 0, 0x50, 0x68, 0x30, 0, 0x21, 0x18, 0x07, 0,
];

/// The page before a cart's first call: the registers' first values, then its data segments.
pub(crate) fn put_start_page(page: &mut PageBytes, cart: &Cart)
    ensures { page.new ≡ start_page cart.now }
{
    put_first_page(page);
    for i in 0..cart.segment_count() {
        let (at, bytes) = cart.segment(i);
        write(page, at as usize, bytes);
    }
}

/// Zeros, and the first values of the palette, of DRAW_COLORS and of the mouse.
fn put_first_page(page: &mut PageBytes)
    ensures { page.new ≡ first_page }
{
    wipe(page);
    write(page, 0x04, &PALETTE);
    write(page, 0x14, &[0x03, 0x12]);
    write(page, 0x1a, &[0xff, 0x7f, 0xff, 0x7f]);
}

fn wipe(page: &mut PageBytes)
    ensures { page.new ≡ zero_page }
{
    page.fill(0);
}

/// Writes bytes from an address on.
fn write(page: &mut PageBytes, at: usize, bytes: &[u8])
    requires { at + length bytes.now ≤ 65536 }
    ensures { page.new ≡ put_bytes page.old at bytes.now }
{
    page[at..at + bytes.len()].copy_from_slice(bytes);
}

/// The page as `update` finds it: the input is in its registers, and the framebuffer is cleared unless
/// system flag 1 keeps it.
pub(crate) fn put_input_page(page: &mut PageBytes, input: &Input)
    ensures { page.new ≡ page_after_input page.old input.now }
{
    put_input(page, input);
    if system_flags(page) % 2 == 0 {
        clear_framebuffer(page);
    }
}

fn clear_framebuffer(page: &mut PageBytes)
    ensures { page.new ≡ cleared page.old }
{
    w4_pixels::clear(page);
}
