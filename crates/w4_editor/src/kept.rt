//! One entry of a kept list: a kept place with its state and its link.

ghost use Rattle.std.specs.Prelude.{◌≡◌, ◌+◌, ◌-◌, ◌<◌, false, true, IfOk};
ghost use Rattle.w4_defs.specs.KeptList.{kept_entries};
ghost use Rattle.w4_defs.specs.Session.{moved_down, moved_up};

use std::alloc::AllocError;
use std::marker::Model;
use std::rc::Rc;
use w4_map::State;
use w4_snap::Snap;

/// A kept place. Copies of an entry share its snapshot. A contract sees the place, the state and the link.
#[derive(Drop)]
pub struct Kept {
    place: usize,
    snap: Rc<Snap>,
    linked: bool,
}

impl Model for Kept {
    ghost use Rattle.w4_defs.specs.KeptList.{Entry};

    ghost Value = { Entry };

    ghost view = { λ k. record { place = k.place; state = k.snap.value; linked = k.linked } };
}

impl Kept {
    /// A linked entry.
    pub(crate) fn new(place: usize, snap: Rc<Snap>) -> Kept
        ensures { result ≡ record { place = place; state = snap.value; linked = true } }
    {
        Kept {
            place,
            snap,
            linked: true,
        }
    }

    /// The place.
    pub fn place(&self) -> usize
        ensures { result ≡ self.now.place }
    {
        self.place
    }

    /// Whether the state is what the inputs between make of the state of the entry before.
    pub fn linked(&self) -> bool
        ensures { result ≡ self.now.linked }
    {
        self.linked
    }

    /// The snapshot of the state.
    pub(crate) fn snap(&self) -> &Snap
        ensures { result.now ≡ self.now.state }
    {
        &self.snap
    }

    /// Another entry with the same snapshot, of which no page is copied.
    pub(crate) fn share(&self) -> Result<Kept, AllocError>
        ensures { IfOk result (λ r. r ≡ self.now) }
    {
        Ok(Kept {
            place: self.place,
            snap: self.snap.clone()?,
            linked: self.linked,
        })
    }

    pub(crate) fn link(&mut self)
        ensures { self.new ≡ record { place = self.old.place; state = self.old.state; linked = true } }
    {
        self.linked = true;
    }

    pub(crate) fn unlink(&mut self)
        ensures { self.new ≡ kept_entries.unlinked self.old }
    {
        self.linked = false;
    }

    /// Puts another state, and links the entry.
    pub(crate) fn replace(&mut self, snap: Rc<Snap>)
        ensures { self.new ≡ record { place = self.old.place; state = snap.value; linked = true } }
    {
        self.snap = snap;
        self.linked = true;
    }

    /// Moves up by 1 if it is above place `k`, as inserting input `k` requires.
    pub(crate) fn move_up(&mut self, k: usize)
        requires { self.old.place < usize.MAX }
        ensures { self.new ≡ moved_up kept_entries k self.old }
    {
        if self.place > k {
            self.place += 1;
        }
    }

    /// Moves down by 1 if it is above place `k`, as removing input `k` requires.
    pub(crate) fn move_down(&mut self, k: usize)
        ensures { self.new ≡ moved_down kept_entries k self.old }
    {
        if self.place > k {
            self.place -= 1;
        }
    }

    /// Takes the place after a dropped entry: it is linked if both were.
    pub(crate) fn link_after(&mut self, dropped: &Kept)
        ensures { self.new ≡ kept_entries.after_drop dropped.now self.old }
    {
        self.linked = dropped.linked && self.linked;
    }
}
