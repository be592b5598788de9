//! The registers of the page (WASM-4 memory map). Numbers of several bytes have the lowest first.

ghost use Rattle.std.specs.Prelude.{◌≡◌, ◌+◌, ◌<◌, ◌≤◌, length};
ghost use Rattle.w4_defs.specs.MemoryMap.{draw_colors, input_bytes, palette, put_input, system_flags};
ghost use Rattle.w4_defs.specs.Bytes.{put_bytes};

use w4_defs::{Input, PageBytes};

/// Writes an input to its registers, 0x16 to 0x1e: four gamepads, mouse x and y, mouse buttons. Whether
/// the frame begins with a reset stands in no register.
pub fn put_input(page: &mut PageBytes, input: &Input)
    ensures { page.new ≡ put_input page.old input.now }
{
    write(page, 0x16, &register_bytes(input));
}

/// Writes bytes from an address on.
fn write(page: &mut PageBytes, at: usize, bytes: &[u8])
    requires { at + length bytes.now ≤ 65536 }
    ensures { page.new ≡ put_bytes page.old at bytes.now }
{
    page[at..at + bytes.len()].copy_from_slice(bytes);
}

/// The bytes of an input's registers.
fn register_bytes(input: &Input) -> [u8; 9]
    ensures { result ≡ input_bytes input.now }
{
    let [one, two, three, four] = input.pads;
    let (x, y) = (input.mouse_x.cast_unsigned(), input.mouse_y.cast_unsigned());
    [
        one,
        two,
        three,
        four,
        (x % 256) as u8,
        (x / 256) as u8,
        (y % 256) as u8,
        (y / 256) as u8,
        input.buttons,
    ]
}

/// DRAW_COLORS at 0x14: four palette numbers of 4 bits each, colour 1 in the lowest.
pub fn draw_colors(page: &PageBytes) -> u16
    ensures { result ≡ draw_colors page.now }
{
    u16::from_le_bytes([page[0x14], page[0x15]])
}

/// The system flags at 0x1f: 1 keeps the framebuffer between frames, 2 hides the overlay.
pub fn system_flags(page: &PageBytes) -> u8
    ensures { result ≡ system_flags page.now }
{
    page[0x1f]
}

/// Red, green and blue by a palette index, 0 to 3. The page has them as blue, green and red, from 0x04 on.
pub fn palette(page: &PageBytes, index: u8) -> [u8; 3]
    requires { index < 4 }
    ensures { result ≡ palette page.now index }
{
    let at = 0x04 + 4 * index as usize;
    [page[at + 2], page[at + 1], page[at]]
}
