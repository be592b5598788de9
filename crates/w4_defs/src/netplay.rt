//! What comes over a network: one player's pad in one frame; and the log of a session.

/// The pad of player 0 to 3 in a frame, counted from 0. The bits are those of a gamepad.
#[derive(Clone, Copy, PartialEq, Eq, Debug)]
pub struct Packet {
    pub player: u8,
    pub frame: u32,
    pub pad: u8,
}

/// One line of a log. Place `p` is the state after `p` frames.
#[derive(Clone, Copy, PartialEq, Eq, Debug)]
pub enum NetOrder {
    /// A packet comes.
    Pad { packet: Packet },
    /// The session goes on by one frame.
    Next,
    /// Place `p` is kept.
    Keep { p: u32 },
    /// The frame at place `p` is shown.
    Show { p: u32 },
    /// The state at place `p` is written in one line.
    StateAt { p: u32 },
}
