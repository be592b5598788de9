//! Why netplay refuses a call.

ghost use Rattle.std.specs.Prelude.{◌≡◌};

use crate::memory::OutOfMemory as NoMemory;
use thiserror::Error;

/// Why a packet, a frame or a place is refused. The causes are looked at in this order, and a refusal changes
/// nothing of what is known, of the number of frames or of the kept places.
#[derive(Clone, Copy, PartialEq, Eq, Debug, Error)]
pub enum NetRefusal {
    /// The packet's player isn't one of four.
    #[error("no player")]
    NoPlayer,
    /// The packet's frame isn't one of 36,000.
    #[error("frame range")]
    FrameRange,
    /// Another byte is known for this player and frame than the packet has.
    #[error("conflict {kept} {got}")]
    Conflict { kept: u8, got: u8 },
    /// 36,000 frames have passed.
    #[error("full")]
    FullRecording,
    /// The session hasn't come to this place.
    #[error("no frame")]
    NoFrame,
    /// The place is kept.
    #[error("kept")]
    Kept,
    /// 1,024 places are kept.
    #[error("full")]
    FullSnapshots,
    /// Memory was refused; always permitted.
    #[error("out of memory")]
    OutOfMemory,
}

impl From<NoMemory> for NetRefusal {
    ghost use Rattle.w4_defs.specs.declared.net_refusal.NetRefusal.TheVariants as refusal;

    ghost from_gives = { λ _ e. e ≡ refusal.OutOfMemory };

    fn from(_refusal: NoMemory) -> NetRefusal {
        NetRefusal::OutOfMemory
    }
}
