//! DRAW_COLORS (WASM-4 reference).

ghost use Rattle.std.specs.Prelude.{◌-◌, ◌/◌, ◌%◌, ◌<◌, ◌≡◌, ◌≤◌, ◌^◌};
ghost use Rattle.w4_defs.specs.Colours.{palette_index};

use std::marker::Model;

/// A palette index: 0, 1, 2 or 3. A contract sees the number.
#[derive(Clone, Copy)]
pub struct PaletteIndex {
    number: u8,
}

impl Model for PaletteIndex {
    ghost use Rattle.std.specs.Prelude.{◌<◌, ℕ};

    ghost Value = { ℕ };

    ghost view = { λ index. index.number };

    ghost inverse = { λ number. record { number = number } };

    ghost invariant = { λ index. index.number < 4 };
}

impl PaletteIndex {
    pub fn new(number: u8) -> PaletteIndex
        requires { number < 4 }
        ensures { result ≡ number }
    {
        PaletteIndex { number }
    }

    pub fn number(self) -> u8
        ensures value { result ≡ self }
        ensures bound { result < 4 }
    {
        self.number
    }
}

/// The palette index, 0 to 3, of colour 1, 2, 3 or 4 of DRAW_COLORS. None is transparent.
pub fn entry_of(colors: u16, number: u8) -> Option<PaletteIndex>
    requires from_one { 1 ≤ number }
    requires to_four { number ≤ 4 }
    ensures value { result ≡ palette_index colors number }
{
    let nibble = nibble_of(colors, number);
    if nibble == 0 {
        None
    } else {
        Some(PaletteIndex::new((nibble - 1) % 4))
    }
}

fn nibble_of(colors: u16, number: u8) -> u8
    requires from_one { 1 ≤ number }
    requires to_four { number ≤ 4 }
    ensures { result ≡ colors / 16 ^ (number - 1) % 16 }
{
    let shifted = colors >> (4 * u32::from(number - 1));
    (shifted % 16) as u8
}
