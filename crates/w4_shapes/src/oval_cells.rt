//! The cells of an oval, and the columns of the screen that have some of them. Columns and rows are counted
//! from one left of the screen and one above it where the neighbours of the screen's cells are spoken of too.

ghost use Rattle.std.specs.Prelude.{◌+◌, ◌+ℤ◌, ◌/◌, ◌<◌, ◌<ℤ◌, ◌≤◌, ◌≤ℤ◌, ℕ, pos};

/// The cells of an oval: `w` by `h` from (x, y) on, and its colours.
#[derive(Clone, Copy)]
pub(crate) struct Cells {
    pub colors: u16,
    pub x: i32,
    pub y: i32,
    pub w: u32,
    pub h: u32,
    pub ghost some_columns: { 0 < w },
    pub ghost some_rows: { 0 < h },
    pub ghost few_columns: { w < 2147483648 },
    pub ghost few_rows: { h < 2147483648 },
}

/// The columns of the screen from `left` up to `right`, which all have cells, and of which there are some;
/// and, counted from one left of the screen, the first cell of the oval's right half, as far as it is one of
/// them or beside them.
#[derive(Clone, Copy)]
pub(crate) struct Columns {
    pub cells: Cells,
    pub left: usize,
    pub right: usize,
    pub middle: usize,
    pub ghost some: { left < right },
    pub ghost end: { right ≤ 160 },
    pub ghost first_cell: { cells.x ≤ℤ pos left },
    pub ghost last_cell: { pos right ≤ℤ (cells.x +ℤ pos cells.w) },
    pub ghost low: { left ≤ middle },
    pub ghost high_end: { middle ≤ right + 2 },
    pub ghost halves: { (s : ℕ) → left ≤ s → s < right + 2
        → (s < middle → pos s ≤ℤ (cells.x +ℤ pos (cells.w / 2)))
        × (middle ≤ s → (cells.x +ℤ pos (cells.w / 2)) <ℤ pos s) },
}

/// The columns from `first` up to `end`, which is left out, counted from one left of the screen.
#[derive(Clone, Copy)]
pub(crate) struct Extent {
    pub first: usize,
    pub end: usize,
    pub ghost first_within: { first ≤ 162 },
    pub ghost end_within: { end ≤ 162 },
}
