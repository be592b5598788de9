//! What is reported of one recording of many.

use crate::console::Halt;

/// One recording of a batch, all of which are run on one cart.
#[derive(Clone, Copy, PartialEq, Eq, Debug)]
pub enum BatchRow {
    /// The bytes are no recording.
    Bad,
    /// The recording is of another cart.
    WrongCart,
    /// After all `frames`: whether the cart still runs, the SHA-256 of the image, and the disk's length in
    /// bytes.
    Ran {
        frames: u32,
        halt: Halt,
        image: [u8; 32],
        disk: u32,
    },
}
