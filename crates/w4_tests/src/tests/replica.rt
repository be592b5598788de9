//! Rollback, of which no clause says that with ample memory the calls succeed.

ghost use Rattle.w4_console.specs.Counting.{IsBlankOf};

use crate::carts::{IDLE, cart, font};
use std::alloc::Global;
use std::marker::Brand;
use std::sync::ledger::{Blank, Ledger};
use std::test::Fail;
use w4_defs::Steps;
use w4_netplay::{NetRefusal, Packet, Replica};
use w4_record::Recording;

/// A replica to which nothing has come yet.
fn replica(alloc: Global) -> Result<Replica, Fail> {
    let recording = Recording::new([7; 32], 100_000, Vec::new(alloc), Vec::new(alloc));
    let font = font()?;
    let cart = cart(alloc, &IDLE)?;
    let replica = Replica::new(alloc, cart, font, recording)?;
    Ok(replica)
}

/// A frame passes, and place 1 is kept. Then the pad of that frame comes, and is another than was predicted.
fn roll_back<L: Ledger>(
    alloc: Global,
    replica: &mut Replica,
    blank: Blank,
) -> Result<(), NetRefusal>
    requires { IsBlankOf L.name L.parts blank }
{
    let steps = &mut Steps::<L>::new(blank);
    replica.advance()?;
    replica.keep(alloc, 1, steps)?;
    replica.deliver(&Packet {
        player: 0,
        frame: 0,
        pad: 27,
    })?;
    replica.show(alloc, 1, steps)?;
    Ok(())
}

#[test]
fn a_late_pad_is_rolled_back_to_with_ample_memory(rt: HostRuntime) -> Result<(), Fail> {
    let mut replica = replica(rt.alloc())?;
    let rolled = roll_back::<Brand>(rt.alloc(), &mut replica, Blank::new(1));
    replica.close();
    assert!(rt; rolled.is_ok());
    Ok(())
}
