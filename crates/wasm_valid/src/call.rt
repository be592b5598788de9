//! What a function index names, ready to be called.

use w4_defs::Import;

/// A function of the module or of the host. `type_number` is the number of its type: the index of the first
/// equal type, so that two functions have one type if and only if their numbers are equal.
#[derive(Clone, Copy, PartialEq, Eq, Debug)]
pub enum Call {
    /// A function of the module. `start` is the position of its first operation among those of all bodies,
    /// `params` how many parameters it has, `zeros` how many further locals, `answers` whether it has a
    /// result, and `reserve` its parameters, locals and instructions together.
    Own {
        type_number: u32,
        start: usize,
        params: usize,
        zeros: usize,
        answers: bool,
        reserve: usize,
    },
    /// A function of the host, with the number of its parameters and whether it has a result.
    Import {
        type_number: u32,
        name: Import,
        params: usize,
        answers: bool,
    },
}
