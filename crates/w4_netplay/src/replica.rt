//! A replica: what is known of the pads, how many frames have passed, and an editor of the recording that is
//! predicted.

ghost use Rattle.std.specs.Prelude.{◌≡◌, ◌≢◌, ◌+◌, ◌<◌, ◌≤◌, [], ◌∷◌, IfErr, IfOk, IfSome, None, OnErr, OnOk, Some};
ghost use Rattle.w4_defs.specs.KeptList.{state_at};
ghost use Rattle.w4_defs.specs.Rollback.{learned, nothing_known};
ghost use Rattle.w4_defs.specs.Run.{run_state};
ghost use Rattle.w4_defs.specs.Session.{keep_refusal, place_refusal, places_alone};
ghost use Rattle.w4_editor.specs.Editor.{editing_setup, new_editing};
ghost use Rattle.w4_defs.specs.Rollback.{packet_refusal};
ghost use Rattle.w4_netplay.specs.Replica.{
  KeepsPlace,
  IsNetRefusal,
  KeepsNetplay,
  known_of,
  predicted_draft,
  prediction,
  IsRolled,
};
ghost use Rattle.w4_defs.specs.declared.net_refusal.NetRefusal.TheVariants.{FullRecording, OutOfMemory as NoMemory};

use crate::pads::Pads;
use crate::rollback::roll_back;
use std::alloc::Global;
use std::marker::Model;
use std::sync::ledger::Ledger;
use w4_defs::netplay::Packet;
use w4_defs::{NetRefusal, OutOfMemory, Steps};
use w4_editor::places::is_kept;
use w4_editor::{Editor, MOST_KEPT, only_memory};
use w4_font::Font;
use w4_map::State;
use w4_record::{MOST_FRAMES, Recording};
use wasm_register::Cart;

/// One player's side of a session. A contract sees what is known of the pads, how many frames have passed,
/// and the editor.
#[derive(Drop)]
pub struct Replica {
    pads: Pads,
    frames: usize,
    editor: Editor,
}

impl Model for Replica {
    ghost use Rattle.std.specs.Coded.{codes};
    ghost use Rattle.w4_defs.specs.TreeCode.{tree_code};
    ghost use Rattle.w4_netplay.specs.Replica.{IsReplica, Netplay};

    ghost Value = { Netplay };

    ghost coded = { Prim.hlevel (codes, tree_code) };

    ghost view = { λ r. record { pads = r.pads; frames = r.frames; editor = r.editor } };

    ghost invariant = { λ r. IsReplica r.frames r.editor };
}

/// Packets and frames.
impl Replica {
    /// A replica of a recording that has no inputs yet. Nothing is known, no frame has passed, and place 0
    /// alone is kept. Takes the memory of all that may become known. Errors: OutOfMemory.
    pub fn new(
        alloc: Global,
        cart: Cart,
        font: Font,
        recording: Recording,
    ) -> Result<Replica, OutOfMemory>
        requires { recording.frames ≡ [] }
        ensures known { IfOk result (λ r. known_of r ≡ nothing_known) }
        ensures frames { IfOk result (λ r. r.frames ≡ 0) }
        ensures editor { IfOk result (λ r. r.editor
            ≡ new_editing cart font recording (state_at r.editor.session.current.kept 0)) }
    {
        Ok(Replica {
            pads: Pads::new(alloc)?,
            frames: 0,
            editor: Editor::new(alloc, cart, font, recording)?,
        })
    }

    /// Gives its memory back. A function of its own, since each place at which a replica may be dropped costs
    /// much to prove.
    pub fn close(self) {
        self.editor.close();
    }

    /// Learns the pad of a packet. A packet that comes again changes nothing. Takes no memory. Errors:
    /// NoPlayer if the player isn't below 4; FrameRange if the frame isn't below 36,000; Conflict if another
    /// byte is known.
    pub fn deliver(&mut self, packet: &Packet) -> Result<(), NetRefusal>
        ensures known { known_of self.new ≡ learned (known_of self.old) packet.now }
        ensures frames { self.new.frames ≡ self.old.frames }
        ensures editor { self.new.editor ≡ self.old.editor }
        ensures accepted { OnOk result (packet_refusal (known_of self.old) packet.now ≡ None) }
        ensures refused { IfErr result (λ refusal.
            packet_refusal (known_of self.old) packet.now ≡ Some refusal) }
        ensures unchanged { OnErr result (self.new ≡ self.old) }
    {
        if let Some(refusal) = self.pads.packet_refusal(packet) {
            return Err(refusal);
        }
        self.pads.learn(packet);
        Ok(())
    }

    /// One frame has passed. Takes no memory. Errors: FullRecording if 36,000 frames have.
    pub fn advance(&mut self) -> Result<(), NetRefusal>
        ensures ok { OnOk result (self.new ≡ record {
          pads = self.old.pads;
          frames = self.old.frames + 1;
          editor = self.old.editor;
        }) }
        ensures accepted { OnOk result (self.old.frames < 36000) }
        ensures refused { IfErr result (λ refusal. (refusal ≡ FullRecording) × (36000 ≤ self.old.frames)) }
        ensures unchanged { OnErr result (self.new ≡ self.old) }
    {
        if self.frames >= MOST_FRAMES {
            return Err(NetRefusal::FullRecording);
        }
        self.frames += 1;
        Ok(())
    }

    /// How many frames have passed. Takes no memory.
    pub fn count(&self) -> usize
        ensures frames { result ≡ self.now.frames }
        ensures few { result ≤ 36000 }
    {
        self.frames
    }

    /// The editor, whose inputs are those that were predicted when a place was kept or shown last. Takes no
    /// memory.
    pub fn editor(&self) -> &Editor
        ensures { result.now ≡ self.now.editor }
    {
        &self.editor
    }
}

/// Keeping and showing.
impl Replica {
    ghost use Rattle.std.specs.Borrow.{sem};
    ghost use Rattle.w4_netplay.specs.ReplicaLending.{LendsPredicted};

    /// The state at place `p` of the predicted recording. The editor's inputs are brought up to it first;
    /// each frame that is run is one tick. Errors: NoFrame if that many frames haven't passed; OutOfMemory,
    /// and then some of the editor's inputs may be newer.
    pub fn show<L: Ledger>(
        &mut self,
        alloc: Global,
        p: usize,
        steps: &mut Steps<L>,
    ) -> Result<&State, NetRefusal>
        ensures* frames_run { sem 𝓛 (LendsPredicted p steps.old steps.new self.entry result) }
        ensures state { IfOk result (λ state. run_state (editing_setup self.old.editor) self.old.editor.disk
            (prediction self.old) p ≡ Some state.now) }
        ensures refused { IfErr result (IsNetRefusal (place_refusal p (predicted_draft self.old))) }
        ensures accepted { OnOk result (place_refusal p (predicted_draft self.old) ≡ None) }
    {
        if p > self.frames {
            return Err(NetRefusal::NoFrame);
        }
        self.roll_back(alloc)?;
        match self.editor.show(alloc, p, steps) {
            Ok(state) => Ok(state),
            Err(refusal) => Err(NetRefusal::from(only_memory(refusal))),
        }
    }

    /// Shows place `p` of the predicted recording and keeps it. Errors: NoFrame if that many frames haven't
    /// passed; Kept if it is kept; FullSnapshots if 1,024 places are; OutOfMemory, and then some of the
    /// editor's inputs may be newer.
    pub fn keep<L: Ledger>(
        &mut self,
        alloc: Global,
        p: usize,
        steps: &mut Steps<L>,
    ) -> Result<(), NetRefusal>
        ensures ok { OnOk result (KeepsPlace p steps.old steps.new self.old self.new) }
        ensures err { OnErr result (KeepsNetplay self.old self.new) }
        ensures refused { IfErr result
            (IsNetRefusal (keep_refusal places_alone p (predicted_draft self.old))) }
        ensures accepted { OnOk result (keep_refusal places_alone p (predicted_draft self.old) ≡ None) }
        ensures unchanged { IfErr result (λ refusal. refusal ≢ NoMemory → self.new ≡ self.old) }
    {
        if let Some(refusal) = self.keep_refusal(p) {
            return Err(refusal);
        }
        self.roll_back(alloc)?;
        match self.editor.keep(alloc, p, steps) {
            Ok(_copied) => Ok(()),
            Err(refusal) => Err(NetRefusal::from(only_memory(refusal))),
        }
    }

    /// Why place `p` may not be kept.
    fn keep_refusal(&self, p: usize) -> Option<NetRefusal>
        ensures some { IfSome result (IsNetRefusal (keep_refusal places_alone p (predicted_draft self.now))) }
        ensures other { IfSome result (λ refusal. refusal ≢ NoMemory) }
        ensures none { result ≡ None → keep_refusal places_alone p (predicted_draft self.now) ≡ None }
    {
        if p > self.frames {
            return Some(NetRefusal::NoFrame);
        }
        if is_kept(&self.editor, p) {
            return Some(NetRefusal::Kept);
        }
        if self.editor.kept_count() >= MOST_KEPT {
            return Some(NetRefusal::FullSnapshots);
        }
        None
    }

    /// Brings the editor's inputs up to the predicted ones.
    fn roll_back(&mut self, alloc: Global) -> Result<(), OutOfMemory>
        ensures ok { OnOk result (IsRolled self.old self.new) }
        ensures err { OnErr result (KeepsNetplay self.old self.new) }
    {
        roll_back(alloc, &mut self.editor, &self.pads, self.frames)
    }
}
