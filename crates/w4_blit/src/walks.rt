//! Which pixels of the sprite a row of the screen reads. They stand at even distances, so what they have in
//! common is found once a row.

ghost use Rattle.std.specs.Prelude.{◌*◌, ◌+◌, ◌-◌, ◌<◌, ◌≡◌, ◌≤◌, ℕ, false, if◌then◌else◌, true};
ghost use Rattle.w4_defs.specs.Blit.{has_flag};

use crate::cells::{FLIP_X, FLIP_Y, ROTATE, column_of, has_flag, mirrored, row_of};
use w4_defs::Sprite;

/// Cell n of a row reads pixel `start + pace * n` of the sprite, or, where it is read backward, `start + pace
/// * (count - 1 - n)`.
#[derive(Clone, Copy)]
pub(crate) struct Walk {
    pub start: u64,
    pub pace: u64,
    pub count: u32,
    pub backward: bool,
    pub ghost near_start: { start ≤ 524288 },
    pub ghost few: { pace < 4294967296 },
}

/// No byte of the page has a pixel of this number or a greater one.
const PIXELS_END: u128 = 524288;

impl Walk {
    ghost use Rattle.w4_blit.specs.Walks.{as_good_as, landed_pixel, walked};

    /// The pixels that the row of the screen so far below the first cells reads.
    pub(crate) fn of_row(sprite: &Sprite, below: u32) -> Walk
        ensures { (n : ℕ) → as_good_as (walked result n) (landed_pixel sprite.now n below) }
    {
        if has_flag(sprite, ROTATE) {
            Walk::down(sprite, below)
        } else {
            Walk::across(sprite, below)
        }
    }

    /// Without rotation they are in one row of the sprite.
    fn across(sprite: &Sprite, below: u32) -> Walk
        requires { has_flag sprite.now 8 ≡ false }
        ensures { (n : ℕ) → as_good_as (walked result n) (landed_pixel sprite.now n below) }
    {
        let row = u128::from(row_of(sprite, below)) * u128::from(sprite.stride);
        Walk {
            start: Walk::near(row + u128::from(sprite.src_x)),
            pace: 1,
            count: sprite.w,
            backward: has_flag(sprite, FLIP_X),
        }
    }

    /// With rotation they are in one column of the sprite.
    fn down(sprite: &Sprite, below: u32) -> Walk
        requires { has_flag sprite.now 8 ≡ true }
        ensures { (n : ℕ) → as_good_as (walked result n) (landed_pixel sprite.now n below) }
    {
        let row = u128::from(sprite.src_y) * u128::from(sprite.stride);
        Walk {
            start: Walk::near(row + u128::from(column_of(sprite, below))),
            pace: u64::from(sprite.stride),
            count: sprite.h,
            backward: has_flag(sprite, FLIP_Y),
        }
    }

    /// The pixel, or one behind the last that the page has room for where it is one of these.
    fn near(pixel: u128) -> u64
        ensures pixel { as_good_as result pixel }
        ensures bound { result ≤ 524288 }
    {
        if pixel < PIXELS_END {
            pixel as u64
        } else {
            PIXELS_END as u64
        }
    }

    /// The pixel that cell n reads.
    pub(crate) fn pixel(self, n: u32) -> u64
        ensures { result ≡ walked self n }
    {
        self.start + self.pace * u64::from(self.steps(n))
    }

    fn steps(self, n: u32) -> u32
        ensures { result ≡ (if self.backward then self.count - 1 - n else n) }
    {
        if self.backward {
            mirrored(self.count, n)
        } else {
            n
        }
    }
}
