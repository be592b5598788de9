//! What is written of a place of a run.

/// What is written of a place.
#[derive(Clone, Copy, PartialEq, Eq, Debug)]
pub enum PlaceText {
    Image,
    /// The tones of the frame that led there.
    Schedule,
    /// The trace lines of the frame that led there.
    Traces,
    DiskBytes,
}
