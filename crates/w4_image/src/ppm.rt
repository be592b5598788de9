//! The writer of images. An image shows the screen of a page: its registers and its framebuffer. A byte of
//! the framebuffer has four pixels, and so twelve bytes of the image. Those of each of the 256 bytes are made
//! first, so that a byte of the framebuffer costs one copy.

ghost use Rattle.std.specs.Prelude.{◌+◌, ◌++◌, ◌<◌, ◌≡◌, ◌≤◌, ℕ, [], drop, slice_index_or};
ghost use Rattle.w4_defs.specs.Bytes.{replaced};
ghost use Rattle.w4_defs.specs.Image.{image, image_header};
ghost use Rattle.w4_defs.specs.MemoryMap.{palette};
ghost use Rattle.w4_image.specs.Quads.{quad_colours};

use w4_defs::PageBytes;

/// The bytes of a page that its image shows: the first 6,560, the registers and the framebuffer.
pub const SCREEN_LEN: usize = 6560;

/// The registers and the framebuffer of a page.
pub type Screen = [u8; SCREEN_LEN];

/// The bytes of an image: 15 of its head, then three for each of 25,600 pixels.
pub const IMAGE_LEN: usize = 76815;

/// Red, green and blue of each of the four palette indices.
type Colors = [u8; 12];

/// Red, green and blue of each of the four pixels in a byte of the framebuffer.
type Quad = [u8; 12];

/// Writes the page's image.
pub fn image_into(page: &PageBytes, out: &mut [u8; IMAGE_LEN])
    ensures { out.new ≡ image page.now }
{
    if let Some(screen) = page.first_chunk::<SCREEN_LEN>() {
        screen_into(screen, out);
    }
}

/// The screen of a page.
pub(crate) fn page_screen(page: &PageBytes) -> Screen
    ensures { image result ≡ image page.now }
{
    match page.first_chunk::<SCREEN_LEN>() {
        Some(screen) => *screen,
        None => [0; SCREEN_LEN],
    }
}

/// Writes the image of a page with this screen.
pub fn screen_into(screen: &Screen, out: &mut [u8; IMAGE_LEN])
    ensures { out.new ≡ image screen.now }
{
    put_header(out);
    let mut quads = [[0; 12]; 256];
    fill_quads(&mut quads, &palette_colors(screen));
    for q in 0..6400 {
        put_quad(out, 15 + 12 * q, quads[screen[160 + q] as usize]);
    }
}

/// `P6`, `160 160` and `255`, each on a line of its own.
fn put_header(out: &mut [u8; IMAGE_LEN])
    ensures { out.new ≡ image_header ++ drop 15 out.old }
{
    out[0..15].copy_from_slice(b"P6\n160 160\n255\n");
}

/// The registers have blue first, then green and red.
fn palette_colors(screen: &Screen) -> Colors
    ensures { result ≡ palette screen.now 0 ++ palette screen.now 1 ++ palette screen.now 2
        ++ palette screen.now 3 }
{
    [
        screen[6], screen[5], screen[4], screen[10], screen[9], screen[8], screen[14], screen[13],
        screen[12], screen[18], screen[17], screen[16],
    ]
}

/// Each byte's pixels.
fn fill_quads(quads: &mut [Quad; 256], colors: &Colors)
    ensures { (byte : ℕ) → byte < 256 → slice_index_or quads.new byte [] ≡ quad_colours colors.now byte }
{
    for byte in 0..256 {
        quads[byte] = quad_of(colors, byte);
    }
}

/// The colours of the four pixels in a byte.
fn quad_of(colors: &Colors, byte: usize) -> Quad
    ensures { result ≡ quad_colours colors.now byte }
{
    let (a, b) = (3 * (byte % 4), 3 * (byte / 4 % 4));
    let (c, d) = (3 * (byte / 16 % 4), 3 * (byte / 64 % 4));
    [
        colors[a],
        colors[a + 1],
        colors[a + 2],
        colors[b],
        colors[b + 1],
        colors[b + 2],
        colors[c],
        colors[c + 1],
        colors[c + 2],
        colors[d],
        colors[d + 1],
        colors[d + 2],
    ]
}

fn put_quad(out: &mut [u8; IMAGE_LEN], at: usize, quad: Quad)
    requires { at + 12 ≤ 76815 }
    ensures { out.new ≡ replaced out.old at 12 quad }
{
    out[at..at + 12].copy_from_slice(&quad);
}
