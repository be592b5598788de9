//! Gates, which pieces of work pass as they begin.

/// What each piece of work passes once, with its number, as it begins. It has no effect on an answer: a test
/// may see by it that two pieces are under way at once.
pub trait Gate {
    fn pass(&self, piece: usize);
}

/// A gate that holds nothing up.
pub struct OpenGate;

impl Gate for OpenGate {
    fn pass(&self, _piece: usize) {}
}
