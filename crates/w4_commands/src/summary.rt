//! The five lines of a made cart.

ghost use Rattle.std.specs.Prelude.{ℕ, List, ◌≡◌, IfOk};
ghost use Rattle.w4_defs.specs.Image.{image};
ghost use Rattle.w4_defs.specs.MadeSummary.{lit_pixels, summary_text};
ghost use Rattle.w4_defs.specs.State.{State};

use std::alloc::Global;
use w4_answers::state_line::add_halt;
use w4_defs::{Halt, OutOfMemory, PageBytes};
use w4_devices::text_parts::{add_hexadecimal, add_numbered, add_words};
use w4_pixels::pixel;
use wasm_write::MADE_FRAMES;

/// What the lines of a made cart say of its last frame.
#[derive(Clone, Copy)]
pub struct Summary {
    /// How many bytes the cart has.
    pub cart_len: usize,
    pub halt: Halt,
    /// How many pixels don't have palette index 0.
    pub lit: u32,
    /// The SHA-256 of the image.
    pub image: [u8; 32],
}

/// How many of the 25,600 pixels don't have palette index 0.
#[tactic(auto, unfolding(w4_defs::specs::MadeSummary::lit_pixels))]
pub fn lit_pixels(page: &PageBytes) -> u32
    ensures { result ≡ lit_pixels page.now }
{
    let mut lit = 0;
    for n in 0..25_600 {
        lit += u32::from(pixel(page, n % 160, n / 160) != 0);
    }
    lit
}

/// The five lines.
#[tactic(auto, unfolding(w4_defs::specs::MadeSummary::summary_text))]
pub fn summary_text(alloc: Global, summary: &Summary) -> Result<Vec<u8>, OutOfMemory>
    ensures { IfOk result (λ text. (sha256 : List ℕ → List ℕ) (state : State) → state.halt ≡ summary.now.halt
        → lit_pixels state.page ≡ summary.now.lit → sha256 (image state.page) ≡ summary.now.image
        → text.items ≡ summary_text sha256 summary.now.cart_len state) }
{
    let mut text = Vec::new(alloc);
    add_numbered(&mut text, b"cart", &[summary.cart_len as u64])?;
    add_numbered(&mut text, b"frames", &[u64::from(MADE_FRAMES)])?;
    add_words(&mut text, b"halt ")?;
    add_halt(&mut text, summary.halt)?;
    add_words(&mut text, b"\n")?;
    add_numbered(&mut text, b"lit", &[u64::from(summary.lit)])?;
    add_words(&mut text, b"image ")?;
    add_hexadecimal(&mut text, &summary.image)?;
    add_words(&mut text, b"\n")?;
    Ok(text)
}
