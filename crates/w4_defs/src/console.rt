//! What the console is given and what it shows (WASM-4 reference and memory map).

ghost use Rattle.std.specs.Prelude.{◌<◌, ◌≤◌};

use crate::value::Cause;

/// One frame's input: four gamepads, the mouse, and whether the frame begins with a reset.
///
/// Pad bits: 1 button 1, 2 button 2, 16 left, 32 right, 64 up, 128 down. Mouse buttons: 1 left, 2 right, 4
/// middle. A reset restarts the cart and keeps the disk.
#[derive(Clone, Copy, PartialEq, Eq, Debug)]
pub struct Input {
    pub pads: [u8; 4],
    pub mouse_x: i16,
    pub mouse_y: i16,
    pub buttons: u8,
    pub reset: bool,
}

/// Whether the cart still runs, or why it doesn't. Only a reset leaves a halt.
#[derive(Clone, Copy, PartialEq, Eq, Debug)]
pub enum Halt {
    Running,
    Trapped(Cause),
    /// The budget of a reset or of a frame was used up.
    Spent,
}

/// A function that a cart may import, each of the module `env`.
#[derive(Clone, Copy, PartialEq, Eq, Debug)]
pub enum Import {
    Blit,
    BlitSub,
    Line,
    Hline,
    Vline,
    Oval,
    Rect,
    Text,
    TextUtf8,
    TextUtf16,
    Tone,
    Diskr,
    Diskw,
    Trace,
    TraceUtf8,
    TraceUtf16,
    Tracef,
}

/// A tone as one call asks for it. Lengths are in frames, levels at most 100, frequencies in hertz.
///
/// Channels: 0 and 1 pulse, 2 triangle, 3 noise. Duty: 1/8, 1/4, 1/2, 3/4. Pan: 0 centre, 1 left,
/// 2 right; 3 is listed as it is.
#[derive(Clone, Copy, PartialEq, Eq, Debug)]
pub struct Tone {
    pub channel: u8,
    pub first: u16,
    /// 0 where the frequency doesn't slide.
    pub second: u16,
    pub attack: u8,
    pub decay: u8,
    pub sustain: u8,
    pub release: u8,
    pub peak: u8,
    /// The level of the sustain part.
    pub level: u8,
    pub duty: u8,
    pub pan: u8,
    pub note: bool,
}

/// A tone that a channel plays, and how many frames it has been played. A tone ends before its age
/// reaches the sum of its four lengths.
#[derive(Clone, Copy, PartialEq, Eq, Debug)]
pub struct Voice {
    pub tone: Tone,
    pub age: u16,
}

/// What a channel sounds at one tick: its level, at most 100, and its frequency in hertz.
#[derive(Clone, Copy, PartialEq, Eq, Debug)]
pub struct Sound {
    pub level: u8,
    pub frequency: u16,
}

/// Where a text is in the page: up to a zero byte, as bytes, or as little-endian 16-bit units. `len` counts
/// bytes.
#[derive(Clone, Copy, PartialEq, Eq, Debug)]
pub enum TextSource {
    Cstr { ptr: u32 },
    Utf8 { ptr: u32, len: u32 },
    Utf16 { ptr: u32, len: u32 },
}
