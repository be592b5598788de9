//! Which part of the screen a range of coordinates covers, and where its pixels are in the page.

ghost use Rattle.std.specs.Prelude.{◌*◌, ◌+◌, ◌+ℤ◌, ◌<◌, ◌≡◌, ◌≤◌, ℕ, int_le, nat_le, pos};

/// Columns or rows of the screen: the first, and the end, which is left out. There are none where the end
/// isn't above the first.
#[derive(Clone, Copy)]
pub struct ScreenPart {
    pub first: usize,
    pub end: usize,
    pub ghost first_within: { first ≤ 160 },
    pub ghost end_within: { end ≤ 160 },
}

/// Byte `q` of a row of the screen, which holds four of its pixels.
#[derive(Clone, Copy)]
pub struct RowByte {
    pub q: usize,
    pub row: usize,
    pub ghost in_row: { q < 40 },
    pub ghost on_screen: { row < 160 },
}

impl RowByte {
    /// Where it is in the page.
    pub(crate) fn address(self) -> usize
        ensures { result ≡ 160 + (40 * self.row + self.q) }
    {
        160 + (40 * self.row + self.q)
    }
}

/// The first column or row of the screen that is at least `x`; 160 where there is none.
pub fn on_screen(x: i64) -> usize
    ensures bound { result ≤ 160 }
    ensures same { (u : ℕ) → u < 160 → nat_le result u ≡ int_le x (pos u) }
{
    x.clamp(0, 160) as usize
}

/// The screen's part of the columns or rows from `x0` up to `x1`, which is left out.
pub fn part_between(x0: i64, x1: i64) -> ScreenPart
    ensures first { (u : ℕ) → u < 160 → nat_le result.first u ≡ int_le x0 (pos u) }
    ensures end { (u : ℕ) → u < 160 → nat_le result.end u ≡ int_le x1 (pos u) }
{
    ScreenPart {
        first: on_screen(x0),
        end: on_screen(x1),
    }
}

/// The screen's part of `count` columns or rows from `x` on.
pub fn screen_part(x: i32, count: u32) -> ScreenPart
    ensures first { (u : ℕ) → u < 160 → nat_le result.first u ≡ int_le x (pos u) }
    ensures end { (u : ℕ) → u < 160 → nat_le result.end u ≡ int_le (x +ℤ pos count) (pos u) }
{
    let x = i64::from(x);
    part_between(x, x + i64::from(count))
}
