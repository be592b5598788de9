//! What is known of the players' pads, and what is predicted of it.

ghost use Rattle.std.specs.Prelude.{◌≡◌, ◌<◌, IfOk, Some, length, slice_set, true};
ghost use Rattle.w4_defs.specs.Rollback.{conflict, is_accepted, learned, net_input, nothing_known};
ghost use Rattle.w4_netplay.specs.Pads.{known_in, pads_before};
ghost use Rattle.w4_defs.specs.Rollback.{packet_refusal};

use std::alloc::{AllocError, Global};
use std::marker::Model;
use w4_defs::NetRefusal;
use w4_defs::netplay::Packet;
use w4_record::MOST_FRAMES;

/// How many players there are.
const PLAYERS: u8 = 4;

/// The bytes of the accepted packets: for each frame the four pads, each of which has a byte or none. A
/// contract sees them as this list.
#[derive(Drop)]
pub struct Pads {
    frames: Vec<[Option<u8>; 4]>,
}

impl Model for Pads {
    ghost use Rattle.std.specs.Prelude.{◌≡◌, List, Option, ℕ, length};

    ghost Value = { List (List (Option ℕ)) };

    ghost view = { λ p. p.frames.items };

    ghost invariant = { λ p. length p.frames.items ≡ 36000 };
}

impl Pads {
    /// Nothing is known.
    pub fn new(alloc: Global) -> Result<Pads, AllocError>
        ensures { IfOk result (λ pads. known_in pads ≡ nothing_known) }
    {
        let frames = vec![in alloc; [None; 4]; MOST_FRAMES]?;
        Ok(Pads { frames })
    }

    /// The byte that is known of a player's pad in a frame.
    fn known(&self, player: usize, frame: usize) -> Option<u8>
        requires player { player < 4 }
        requires frame { frame < 36000 }
        ensures { result ≡ known_in self.now player frame }
    {
        let pads = self.frames[frame];
        pads[player]
    }

    /// The byte that is known, if a packet's differs from it.
    fn conflict(&self, packet: &Packet) -> Option<u8>
        requires player { packet.now.player < 4 }
        requires frame { packet.now.frame < 36000 }
        ensures { result ≡ conflict (known_in self.now) packet.now }
    {
        let kept = self.known(packet.player as usize, packet.frame as usize)?;
        if kept == packet.pad { None } else { Some(kept) }
    }

    /// Why a packet is refused.
    pub fn packet_refusal(&self, packet: &Packet) -> Option<NetRefusal>
        ensures { result ≡ packet_refusal (known_in self.now) packet.now }
    {
        if packet.player >= PLAYERS {
            return Some(NetRefusal::NoPlayer);
        }
        if packet.frame as usize >= MOST_FRAMES {
            return Some(NetRefusal::FrameRange);
        }
        let kept = self.conflict(packet)?;
        Some(NetRefusal::Conflict {
            kept,
            got: packet.pad,
        })
    }

    /// Learns the byte of a packet that is accepted.
    pub fn learn(&mut self, packet: &Packet)
        requires { is_accepted (known_in self.old) packet.now ≡ true }
        ensures { known_in self.new ≡ learned (known_in self.old) packet.now }
    {
        put_known(
            &mut self.frames[packet.frame as usize],
            packet.player as usize,
            packet.pad,
        );
    }

    /// The pads of a frame: each is the byte that is known, otherwise as it was predicted for the frame
    /// before.
    pub fn predict(&self, frame: usize, before: [u8; 4]) -> [u8; 4]
        requires there { frame < 36000 }
        requires before { before ≡ pads_before (known_in self.now) frame }
        ensures { result ≡ (net_input (known_in self.now) frame).pads }
    {
        [
            self.known(0, frame).unwrap_or(before[0]),
            self.known(1, frame).unwrap_or(before[1]),
            self.known(2, frame).unwrap_or(before[2]),
            self.known(3, frame).unwrap_or(before[3]),
        ]
    }
}

/// Replaces what is known of a player's pad with a byte.
fn put_known(pads: &mut [Option<u8>; 4], player: usize, pad: u8)
    requires { player < 4 }
    ensures put { pads.new ≡ slice_set pads.old player (Some pad) }
    ensures four { length pads.old ≡ 4 }
{
    pads[player] = Some(pad);
}
