//! Fonts (project rule): eight bytes for each code from 32 to 255, one a row, the highest bit leftmost.

ghost use Rattle.std.specs.Prelude.{◌≡◌, ◌≢◌, ℕ, List, IfErr, IfOk, length, slice_index};

use std::marker::Model;
use w4_defs::Refusal;

/// How many bytes a font has: 8 for each of 224 codes.
pub const FONT_BYTES: usize = 1_792;

/// A font; contracts see its 1,792 bytes.
#[derive(Drop)]
pub struct Font {
    bytes: [u8; FONT_BYTES],
}

impl Model for Font {
    ghost Value = { List ℕ };

    ghost view = { λ font. font.bytes };
}

/// The bytes of a font aren't 1,792.
#[derive(Clone, Copy, PartialEq, Eq, Debug)]
pub struct FontLength;

impl From<FontLength> for Refusal {
    ghost use Rattle.w4_defs.specs.declared.status.Refusal.TheVariants.{FontRefused};

    ghost from_gives = { λ _ refusal. refusal ≡ FontRefused };

    fn from(_length: FontLength) -> Refusal {
        Refusal::FontRefused
    }
}

impl Font {
    /// The font of these bytes. Refused if and only if they aren't 1,792.
    pub fn new(bytes: &[u8]) -> Result<Font, FontLength>
        ensures same { IfOk result (λ font. font ≡ bytes.now) }
        ensures taken { IfOk result (λ font. length bytes.now ≡ 1792) }
        ensures refused { IfErr result (λ refusal. length bytes.now ≢ 1792) }
    {
        if bytes.len() != FONT_BYTES {
            return Err(FontLength);
        }
        let mut font_bytes = [0; FONT_BYTES];
        font_bytes.copy_from_slice(bytes);
        Ok(Font { bytes: font_bytes })
    }

    /// One byte; 0 past the last.
    pub fn byte(&self, at: u64) -> u8
        ensures { result ≡ slice_index self.now at }
    {
        if at < FONT_BYTES as u64 {
            self.bytes[at as usize]
        } else {
            0
        }
    }
}
