//! Laws of runs on the console, as contracts of functions that do nothing.

ghost use Rattle.w4_defs.specs.Meaning.{AcceptedRunsHaveMeaning};

/// No reset and no frame of an accepted cart is ever stuck, a frame from any state whose globals have the
/// cart's types. So a run has a meaning at every place.
pub fn accepted_runs_have_meaning()
    ensures { AcceptedRunsHaveMeaning }
{}
