//! Why a file is no cart of this console.

/// Why a module is outside the console's profile (project rules). The causes are looked at in this order,
/// and the first that holds is the answer. Numbers count from 0.
#[derive(Clone, Copy, PartialEq, Eq, Debug)]
pub enum ProfileRefusal {
    /// An f32 or f64 occurs in a type, or a float instruction anywhere.
    Floats,
    /// An own function has more than 1,024 parameters and locals together.
    TooManyLocals,
    /// An own table's least size is above 65,536.
    TableTooLarge,
    /// This import is the first that isn't right, and it isn't one of the console's by its names.
    UnknownImport(usize),
    /// This import is the first that isn't right, and its names are known.
    WrongImport(usize),
    /// No import is `env` `memory`.
    NoMemory,
    /// No export is named `update`.
    NoUpdate,
    /// `update`, `_start`, `_initialize` or `start` isn't a function without parameters and results.
    WrongEntry,
    /// This segment is the first that passes the end of the page or the table; the element segments
    /// are numbered first, then the data segments.
    SegmentOutside(usize),
}

/// Why bytes are no cart. The causes are looked at in this order, and the first that holds is the answer.
#[derive(Clone, Copy, PartialEq, Eq, Debug)]
pub enum CartKind {
    /// There are more than 65,536 bytes.
    TooLarge,
    /// The bytes encode no module.
    Malformed,
    Profile(ProfileRefusal),
    /// A module rule fails (None), or this own function, counted from 0, is the first without a typing.
    Invalid(Option<usize>),
}
