//! A snapshot: a state whose page is kept in shared chunks.

ghost use Rattle.std.specs.Prelude.{◌≡◌, ◌+◌, ◌↔◌, IfOk, IsTrue, length, option_map};
ghost use Rattle.w4_snap.specs.Chunks.{copied_chunks};

use crate::equality::{equal_channels, equal_globals};
use crate::shared_page::SharedPage;
use std::alloc::Global;
use std::marker::Model;
use std::sync::ledger::Ledger;
use w4_defs::{Halt, OutOfMemory, Steps, Val};
use w4_devices::Disk;
use w4_map::State;
use w4_tone::Channels;

/// The state of a console at one moment. A contract sees the state that it stands for.
#[derive(Drop)]
pub struct Snap {
    page: SharedPage,
    globals: Vec<Val>,
    channels: Channels,
    disk: Disk,
    halt: Halt,
}

impl Model for Snap {
    ghost use Rattle.w4_defs.specs.State.{State};

    ghost Value = { State };

    ghost view = { λ s. record {
      page = s.page;
      globals = s.globals.items;
      channels = s.channels;
      disk = s.disk;
      halt = s.halt;
    } };
}

/// A snapshot of a state, and how many of the page's 64 chunks were copied: those that differ from the
/// chunks of the snapshot before, or all where there is none. The others are shared with it. Each copied
/// chunk is one step; where memory is refused, the chunks copied so far stay counted.
pub fn capture<L: Ledger>(
    alloc: Global,
    before: Option<&Snap>,
    state: &State,
    steps: &mut Steps<L>,
) -> Result<(Snap, u32), OutOfMemory>
    ensures state { IfOk result (λ r. r.0 ≡ state.now) }
    ensures copied { IfOk result (λ r. r.1 ≡ copied_chunks (option_map (λ s. s.now) before.entry) state.now) }
    ensures ticks { IfOk result (λ r. steps.new ≡ steps.old + r.1) }
{
    let globals = Vec::from_slice(alloc, state.globals.as_slice())?;
    let (page, copied) = SharedPage::new(alloc, page_of(before), state.page.bytes(), steps)?;
    let snap = Snap {
        page,
        globals,
        channels: state.channels,
        disk: Disk::new(state.disk.bytes()),
        halt: state.halt,
    };
    Ok((snap, copied))
}

/// The page of a snapshot, where there is one.
fn page_of(snap: Option<&Snap>) -> Option<&SharedPage>
    ensures { option_map (λ p. p.now) result ≡ option_map (λ s. s.now.page) snap.entry }
{
    match snap {
        Some(snap) => Some(&snap.page),
        None => None,
    }
}

impl Snap {
    /// Makes a state, of as many globals, the one that was captured. Takes no memory.
    pub fn restore(&self, into: &mut State)
        requires { length self.now.globals ≡ length into.old.globals }
        ensures { into.new ≡ self.now }
    {
        self.page.restore(into.page.bytes_mut());
        let globals = self.globals.as_slice();
        into.globals.as_mut_slice().copy_from_slice(globals);
        into.channels = self.channels;
        *into.disk = Disk::new(self.disk.bytes());
        into.halt = self.halt;
    }

    /// Whether a state is equal to the one that was captured, in page, globals, channels, disk and halt.
    /// Ends at the first difference. Takes no memory.
    pub fn same(&self, state: &State) -> bool
        ensures { IsTrue result ↔ (self.now ≡ state.now) }
    {
        self.halt == state.halt
            && equal_channels(&self.channels, &state.channels)
            && equal_globals(self.globals.as_slice(), state.globals.as_slice())
            && self.disk.bytes() == state.disk.bytes()
            && self.page.same(state.page.bytes())
    }
}
