//! The draw colours, each sixteen times.

ghost use Rattle.std.proofs.Props.{props};
ghost use Rattle.std.specs.Prelude.{◌≡◌};
ghost use Rattle.w4_blit.specs.Strips.{IsPlain};
ghost use Rattle.w4_defs.specs.Colours.{palette_index};

use crate::masks::Strip;
use w4_pixels::{PaletteIndex, entry_of};

/// What pixel values 0 to 3 paint where DRAW_COLORS is `colors`, each sixteen times.
#[derive(Clone, Copy)]
pub(crate) struct Inks {
    pub colors: u16,
    pub first: Strip,
    pub second: Strip,
    pub third: Strip,
    pub fourth: Strip,
    pub ghost first_plain: { IsPlain first (palette_index colors 1) } by { Prim.hlevel props },
    pub ghost second_plain: { IsPlain second (palette_index colors 2) } by { Prim.hlevel props },
    pub ghost third_plain: { IsPlain third (palette_index colors 3) } by { Prim.hlevel props },
    pub ghost fourth_plain: { IsPlain fourth (palette_index colors 4) } by { Prim.hlevel props },
}

/// The draw colours. They are looked up once a call.
pub(crate) fn inks_of(colors: u16) -> Inks
    ensures { result.colors ≡ colors }
{
    Inks {
        colors,
        first: plain(entry_of(colors, 1)),
        second: plain(entry_of(colors, 2)),
        third: plain(entry_of(colors, 3)),
        fourth: plain(entry_of(colors, 4)),
    }
}

fn plain(index: Option<PaletteIndex>) -> Strip
    ensures { IsPlain result index }
{
    let Some(index) = index else {
        return Strip {
            indices: 0,
            mask: 0,
        };
    };
    Strip {
        indices: 0x5555_5555 * u32::from(index.number()),
        mask: u32::MAX,
    }
}
