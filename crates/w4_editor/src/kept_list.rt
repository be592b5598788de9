//! Kept lists: what an edit, a keep, a drop and a showing do to their entries.

ghost use Rattle.std.specs.List.{filter, position};
ghost use Rattle.std.specs.Prelude.{
  ◌≡◌,
  ◌==◌,
  ◌<◌,
  All,
  IfOk,
  OnErr,
  OnOk,
  if◌then◌else◌,
  length,
  map,
  nat_lt,
  not,
};
ghost use Rattle.w4_defs.specs.KeptList.{
  first_above,
  kept_entries,
  kept_entry_at,
  relinked_at,
  replaced_at,
  unlinked_at,
};
ghost use Rattle.w4_defs.specs.Session.{
  is_kept,
  moved_down,
  moved_up,
  stays_after_delete,
  unlink_above,
  with_kept,
  without,
};
ghost use Rattle.w4_editor.specs.KeptList.{is_between, unlink_between};

use crate::kept::Kept;
use std::alloc::{AllocError, Global};
use std::rc::Rc;
use w4_snap::Snap;

/// Entry `i`.
pub(crate) fn entry_at(kept: &[Kept], i: usize) -> &Kept
    requires { i < length kept.now }
    ensures { result.now ≡ kept_entry_at kept.now i }
{
    &kept[i]
}

/// The first entry above a place, or how many there are.
pub(crate) fn first_above(kept: &[Kept], p: usize) -> usize
    ensures { result ≡ first_above p kept.now }
{
    find_above(kept, p).unwrap_or(kept.len())
}

fn find_above(kept: &[Kept], p: usize) -> Option<usize>
    ensures { result ≡ position (λ x. nat_lt p x.place) kept.now }
{
    kept.iter().position(|entry| p < entry.place())
}

fn find(kept: &[Kept], p: usize) -> Option<usize>
    ensures { result ≡ position (λ x. x.place == p) kept.now }
{
    kept.iter().position(|entry| entry.place() == p)
}

/// Whether a place is kept.
pub(crate) fn is_kept(kept: &[Kept], p: usize) -> bool
    ensures { result ≡ is_kept kept_entries p kept.now }
{
    kept.iter().any(|entry| entry.place() == p)
}

/// Copies of the entries, which share their snapshots: no page is copied.
pub(crate) fn share_all(alloc: Global, kept: &[Kept]) -> Result<Vec<Kept>, AllocError>
    ensures { IfOk result (λ all. all.items ≡ kept.now) }
{
    let mut all = Vec::with_capacity(alloc, kept.len())?;
    for entry in kept {
        all.push(entry.share()?)?;
    }
    Ok(all)
}

/// Links entry `i`, which keeps its state.
pub(crate) fn link_at(kept: &mut [Kept], i: usize)
    requires { i < length kept.old }
    ensures { kept.new ≡ relinked_at i kept.old }
{
    kept[i].link();
}

/// Unlinks entry `i`, if there is one.
pub(crate) fn unlink_at(kept: &mut [Kept], i: usize)
    ensures { kept.new ≡ unlinked_at i kept.old }
{
    if i < kept.len() {
        kept[i].unlink();
    }
}

/// Puts another state into entry `i` and links it; the entry after it, if there is one, is unlinked.
pub(crate) fn replace_at(kept: &mut [Kept], i: usize, snap: Rc<Snap>)
    requires { i < length kept.old }
    ensures { kept.new ≡ replaced_at i snap.value kept.old }
{
    kept[i].replace(snap);
    unlink_at(kept, i + 1);
}

/// Unlinks the first entry above a place.
pub(crate) fn unlink_above(kept: &mut [Kept], k: usize)
    ensures { kept.new ≡ unlink_above kept_entries k kept.old }
{
    let first = first_above(kept, k);
    unlink_at(kept, first);
}

/// Unlinks each entry that has one of the inputs `k` to `end - 1` between it and the entry before.
pub(crate) fn unlink_between(kept: &mut [Kept], k: usize, end: usize)
    ensures { kept.new ≡ unlink_between k end 0 kept.old }
{
    let mut from = 0;
    for entry in kept.iter_mut() {
        let place = entry.place();
        unlink_after(entry, from, k, end);
        from = place;
    }
}

/// Unlinks an entry that has one of the inputs `k` to `end - 1` between it and place `from`.
fn unlink_after(entry: &mut Kept, from: usize, k: usize, end: usize)
    ensures { entry.new
        ≡ (if is_between k end from entry.old.place then kept_entries.unlinked entry.old else entry.old) }
{
    if k.max(from) < end.min(entry.place()) {
        entry.unlink();
    }
}

/// Moves the entries above place `k` up, as the insertion of input `k` does.
pub(crate) fn move_up_above(kept: &mut [Kept], k: usize)
    requires { All (λ x. x.place < usize.MAX) kept.old }
    ensures { kept.new ≡ map (moved_up kept_entries k) kept.old }
{
    for entry in kept.iter_mut() {
        entry.move_up(k);
    }
}

/// Moves the entries above place `k` down, as the removal of input `k` does.
pub(crate) fn move_down_above(kept: &mut [Kept], k: usize)
    ensures { kept.new ≡ map (moved_down kept_entries k) kept.old }
{
    for entry in kept.iter_mut() {
        entry.move_down(k);
    }
}

/// If places `k` and `k + 1` are kept, drops the later one.
pub(crate) fn drop_double(kept: &mut Vec<Kept>, k: usize)
    requires { k < usize.MAX }
    ensures { kept.new.items ≡ filter (stays_after_delete kept_entries k kept.old.items) kept.old.items }
{
    if is_kept(kept.as_slice(), k) {
        drop_all_at(kept, k + 1);
    }
}

fn drop_all_at(kept: &mut Vec<Kept>, p: usize)
    ensures { kept.new.items ≡ filter (λ x. not (x.place == p)) kept.old.items }
{
    kept.retain(|entry| entry.place() != p);
}

/// Puts an entry before the first above its place.
pub(crate) fn insert_entry(kept: &mut Vec<Kept>, entry: Kept) -> Result<(), AllocError>
    ensures ok { OnOk result (kept.new.items ≡ with_kept kept_entries entry kept.old.items) }
    ensures err { OnErr result (kept.new.items ≡ kept.old.items) }
{
    let at = first_above(kept.as_slice(), entry.place());
    kept.insert(at, entry)?;
    Ok(())
}

/// Drops the entry at place `p`, if there is one; the entry after it is linked if both were.
pub(crate) fn drop_at(kept: &mut Vec<Kept>, p: usize)
    ensures { kept.new.items ≡ without kept_entries p kept.old.items }
{
    if let Some(at) = find(kept.as_slice(), p) {
        let dropped = kept.remove(at);
        if at < kept.len() {
            kept[at].link_after(&dropped);
        }
    }
}
