//! What a console keeps between two frames.

ghost use Rattle.std.specs.Prelude.{◌≡◌, IfOk};
ghost use Rattle.w4_defs.specs.State.{blank_state};

use std::alloc::Global;
use std::marker::Model;
use w4_defs::{Halt, OutOfMemory, Val};
use w4_devices::Disk;
use w4_tone::Channels;
use wasm_page::Page;

/// The page, the cart's globals, the four channels, the disk, and whether the cart still runs. It has no
/// number of its frame, so that equal states go on alike. The disk is in a box, so that a call of the cart is
/// given it without a copy.
#[derive(Drop)]
pub struct State {
    pub page: Page,
    pub globals: Vec<Val>,
    pub channels: Channels,
    pub disk: Box<Disk>,
    pub halt: Halt,
}

impl Model for State {
    ghost use Rattle.w4_defs.specs.State.{State};

    ghost Value = { State };

    ghost view = { λ s. record {
      page = s.page;
      globals = s.globals.items;
      channels = s.channels;
      disk = s.disk.value;
      halt = s.halt;
    } };
}

impl State {
    /// The state before any reset: a page of zeros, these globals, silent channels and an empty disk.
    /// Takes all the memory that a state needs.
    pub fn new(alloc: Global, cart_globals: &[Val]) -> Result<State, OutOfMemory>
        ensures blank { IfOk result (λ state. state ≡ blank_state cart_globals.now) }
    {
        Ok(State {
            page: Page::new(alloc)?,
            globals: Vec::from_slice(alloc, cart_globals)?,
            channels: Channels::new(),
            disk: Box::new(alloc, Disk::new(&[]))?,
            halt: Halt::Running,
        })
    }
}
