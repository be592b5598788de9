//! Worked cases of how many frames a showing may run, as the contract of a function that does nothing.

ghost use Rattle.w4_netplay.specs.Rollback.{RollbackFrameCases};

/// Some predictions of five inputs, and the frames that a showing may run then.
pub fn rollback_frame_cases()
    ensures { RollbackFrameCases }
{}
