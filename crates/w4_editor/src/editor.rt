//! The editor: a recording with its history, its kept places and the place that is shown.

ghost use Rattle.std.specs.Prelude.{◌≡◌, ◌<◌, Err, IfErr, IfOk, OnErr, OnOk, Ok, Some, length, option_map};
ghost use Rattle.w4_console.specs.Calls.{setup_of};
ghost use Rattle.w4_defs.specs.KeptList.{IsSession, kept_entries, linked_at, place_at, state_at};
ghost use Rattle.w4_defs.specs.Reset.{reset};
ghost use Rattle.w4_defs.specs.Session.{drop_kept};
ghost use Rattle.w4_defs.specs.State.{Moment};
ghost use Rattle.w4_devices.specs.Records.{record_of};
ghost use Rattle.w4_editor.specs.Editor.{editing_setup, new_editing, current_recording, with_session};

use crate::draft::Draft;
use crate::kept::Kept;
use crate::kept_list::{drop_at, entry_at, is_kept};
use crate::player::Player;
use circular_buffer::HeapCircularBuffer;
use std::alloc::Global;
use std::marker::Model;
use w4_console::Setup;
use w4_defs::{EditRefusal, OutOfMemory};
use w4_devices::FrameRecord;
use w4_font::Font;
use w4_record::Recording;
use wasm_register::Cart;

/// How many drafts the undo history may hold, and the redo history.
const HISTORY: usize = 32;

/// A recording that is edited. A contract sees its cart, its font, what the recording has besides the inputs,
/// the session of drafts and the place that is shown.
#[derive(Drop)]
pub struct Editor {
    pub(crate) player: Player,
    pub(crate) recording: Recording,
    pub(crate) kept: Vec<Kept>,
    pub(crate) older: HeapCircularBuffer<Draft>,
    pub(crate) newer: HeapCircularBuffer<Draft>,
    pub(crate) at: Option<usize>,
    pub(crate) reset_frame: FrameRecord,
}

impl Model for Editor {
    ghost use Rattle.std.specs.Coded.{codes};
    ghost use Rattle.w4_defs.specs.TreeCode.{tree_code};
    ghost use Rattle.w4_editor.specs.Editor.{Editing, IsEditor, session_of};

    ghost Value = { Editing };

    ghost coded = { Prim.hlevel (codes, tree_code) };

    ghost view = { λ e. record {
      cart = e.player.cart;
      font = e.player.font;
      digest = e.recording.digest;
      budget = e.player.budget;
      disk = e.recording.disk;
      session = session_of e.recording e.kept.items e.older.items e.newer.items;
      at = e.at;
    } };

    ghost invariant = { λ e. IsEditor e.player e.recording e.kept.items e.older e.newer e.at e.reset_frame };
}

impl Editor {
    /// An editor of a recording, which shows its place 0, the only one that is kept. Errors: OutOfMemory, and
    /// then cart, font and recording are dropped.
    pub fn new(
        alloc: Global,
        cart: Cart,
        font: Font,
        recording: Recording,
    ) -> Result<Editor, OutOfMemory>
        ensures { IfOk result (λ e. e ≡ new_editing cart font recording (state_at e.session.current.kept 0)) }
    {
        let mut reset_frame = FrameRecord::new();
        let mut player = Player::new(alloc, cart, font, recording.budget)?;
        player.reset(recording.disk.as_slice(), &mut reset_frame);
        let mut kept = Vec::with_capacity(alloc, 1)?;
        let (snap, _copied) = player.capture(alloc, None)?;
        kept.push(Kept::new(0, snap))?;
        Ok(Editor {
            player,
            recording,
            kept,
            older: HeapCircularBuffer::with_capacity(alloc, HISTORY)?,
            newer: HeapCircularBuffer::with_capacity(alloc, HISTORY)?,
            at: Some(0),
            reset_frame,
        })
    }

    /// Gives its memory back. A function of its own, since each place at which an editor may be dropped costs
    /// much to prove.
    pub fn close(self) {}

    /// The place that is shown. None after an edit, an undo, a redo or a settling, and after OutOfMemory of
    /// `show`, `keep` or `settle`.
    pub fn at(&self) -> Option<usize>
        ensures value { result ≡ self.now.at }
        ensures session { IsSession (editing_setup self.now) self.now.disk self.now.session }
    {
        self.at
    }

    /// A fact for callers, which costs nothing: what the editor keeps of its places and edits is right.
    pub fn session_is_consistent(&self)
        ensures { IsSession (editing_setup self.now) self.now.disk self.now.session }
    {
        let _shown = self.at;
    }

    /// The recording as the edits so far leave it.
    pub fn recording(&self) -> &Recording
        ensures { result.now ≡ current_recording self.now }
    {
        &self.recording
    }

    /// The record of the reset.
    pub fn reset_frame(&self) -> &FrameRecord
        ensures { option_map (λ (moment : Moment). moment.frame_record)
            (reset (editing_setup self.now) self.now.disk)
            ≡ Some (record_of result.now) }
    {
        &self.reset_frame
    }

    /// The cart.
    pub fn cart(&self) -> &Cart
        ensures { result.now ≡ self.now.cart }
    {
        self.player.cart()
    }

    /// The font.
    pub fn font(&self) -> &Font
        ensures { result.now ≡ self.now.font }
    {
        self.player.font()
    }

    /// What its runs read and don't change.
    pub fn setup(&self) -> Setup<'_>
        ensures { setup_of result ≡ editing_setup self.now }
    {
        self.player.setup()
    }
}

/// Kept places.
impl Editor {
    /// Drops the kept place `p`. Takes no memory. Errors: NotKept if it is place 0 or isn't kept, and then
    /// nothing has changed.
    pub fn drop_kept(&mut self, p: usize) -> Result<(), EditRefusal>
        ensures ok { OnOk result (drop_kept kept_entries p self.old.session ≡ Ok self.new.session) }
        ensures others { OnOk result (self.new ≡ with_session self.old self.new.session self.old.at) }
        ensures refused { IfErr result (λ refusal. drop_kept kept_entries p self.old.session ≡ Err refusal) }
        ensures unchanged { OnErr result (self.new ≡ self.old) }
    {
        if p == 0 || !is_kept(self.kept.as_slice(), p) {
            return Err(EditRefusal::NotKept);
        }
        drop_at(&mut self.kept, p);
        Ok(())
    }

    /// How many places are kept, place 0 among them.
    pub fn kept_count(&self) -> usize
        ensures { result ≡ length self.now.session.current.kept }
    {
        self.kept.len()
    }

    /// The place of entry `i`.
    pub fn kept_place(&self, i: usize) -> usize
        requires { i < length self.now.session.current.kept }
        ensures { result ≡ place_at self.now.session.current.kept i }
    {
        entry_at(self.kept.as_slice(), i).place()
    }

    /// Whether entry `i` is linked.
    pub fn kept_linked(&self, i: usize) -> bool
        requires { i < length self.now.session.current.kept }
        ensures { result ≡ linked_at self.now.session.current.kept i }
    {
        entry_at(self.kept.as_slice(), i).linked()
    }
}
