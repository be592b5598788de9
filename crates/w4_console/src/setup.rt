//! What a run reads and doesn't change.

ghost use Rattle.std.specs.Prelude.{◌≤◌};

use w4_font::Font;
use wasm_register::Cart;

/// A cart, a font, and the budget of each reset and of each frame, in units.
#[derive(Clone, Copy)]
pub struct Setup<'a> {
    pub cart: &'a Cart,
    pub font: &'a Font,
    pub budget: u32,
    ghost some: { 1 ≤ budget },
}
