//! Laws and worked cases of editing.

ghost use Rattle.w4_defs.specs.SameState.{SameStateDecides};
ghost use Rattle.w4_defs.specs.Session.{
  HistoryStaysBounded,
  UndoTakesBack,
  RedoTakesBack,
  UndoTakesBackRedo,
  PlacesDecide,
  PlacesAfterEdits,
  PlacesStayRight,
  KeepEveryLimit,
  KeepLimit,
  places_alone,
};
ghost use Rattle.w4_defs.specs.KeptList.{ConsistentPlaces, Entry, KeptInOrder, LinkedIsRun, UnlinksOne, kept_entries};
ghost use Rattle.w4_defs.specs.WorkedSessions.{
  DeletedCase,
  InputCases,
  RefusalCases,
  KeepEveryCases,
  LimitCases,
  HistoryCase,
  EntryCases,
  DropCases,
  ChangeCases,
  ShowCases,
};

/// The test of two states decides their equality.
pub fn states_are_compared()
    ensures { SameStateDecides }
{}

/// Undo and redo take each other back, and both histories together have at most 32 drafts.
pub fn histories_are_kept()
    ensures bounded { HistoryStaysBounded Entry }
    ensures undo { UndoTakesBack Entry }
    ensures redo { RedoTakesBack Entry }
    ensures redone { UndoTakesBackRedo Entry }
{}

/// A session of entries has the places and the refusals of the session of places alone.
pub fn places_decide()
    ensures { PlacesDecide kept_entries }
{}

/// Which places are kept after an edit of input K. An insert moves those above K up by 1, and a delete down
/// by 1; if two would then be at K, one is.
pub fn places_after_edits()
    ensures { PlacesAfterEdits }
{}

/// At most 1,024 places are kept: with 1,023 another one is kept, with 1,024 it is refused.
pub fn keep_limits()
    ensures places { KeepLimit places_alone }
    ensures entries { KeepLimit kept_entries }
    ensures every { KeepEveryLimit }
{}

/// Kept places rise from place 0 within the recording, after each edit, keep and drop too; so do those of
/// a consistent kept list.
pub fn places_stay_right()
    ensures stay { PlacesStayRight }
    ensures consistent { ConsistentPlaces }
{}

/// An entry whose link and all earlier links are set has the state of a run from reset.
pub fn linked_entries_are_of_the_run()
    ensures { LinkedIsRun }
{}

/// An edit unlinks one entry at most, the first above its input; an entry is kept before the first above it.
pub fn entries_by_number()
    ensures unlinked { UnlinksOne }
    ensures kept { KeptInOrder }
{}

/// Sessions whose kept things are places alone.
pub fn session_cases()
    ensures deleted { DeletedCase }
    ensures inputs { InputCases }
    ensures refusals { RefusalCases }
    ensures keep_every { KeepEveryCases }
    ensures limits { LimitCases }
    ensures history { HistoryCase }
{}

/// Kept lists with states and links.
pub fn kept_list_cases()
    ensures edits { EntryCases }
    ensures drops { DropCases }
    ensures changes { ChangeCases }
    ensures shows { ShowCases }
{}
