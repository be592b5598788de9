//! The functions of a cart that the console calls by their exported names (WASM-4 reference).

/// An exported function that the console calls.
#[derive(Clone, Copy, PartialEq, Eq, Debug)]
pub enum Entry {
    /// `update`, called once a frame.
    Update,
    /// `_start`, called by a reset.
    CrtStart,
    /// `_initialize`, called by a reset.
    Initialize,
    /// `start`, called by a reset.
    Start,
}
