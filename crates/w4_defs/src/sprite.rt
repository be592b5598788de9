//! The source of a blit.

/// What a blit reads, and how: the size in cells, where in the sprite the cells begin, the sprite's width
/// (`stride`) in pixels, its address in the page, the flags and the colours.
///
/// Flags: 1 two bits per pixel, 2 flip x, 4 flip y, 8 rotate anticlockwise by 90 degrees.
#[derive(Clone, Copy, PartialEq, Eq, Debug)]
pub struct Sprite {
    pub colors: u16,
    pub ptr: u32,
    pub w: u32,
    pub h: u32,
    pub src_x: u32,
    pub src_y: u32,
    pub stride: u32,
    pub flags: u32,
}
