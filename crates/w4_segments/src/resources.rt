//! What work over many threads is lent.

use std::alloc::Global;

/// Threads, memory, and the gate that pieces of work pass as they begin. It is only lent, and nothing in it
/// changes.
pub struct Resources<'a, R, G> {
    pub rt: &'a R,
    pub alloc: Global,
    pub gate: &'a G,
}

impl<'a, R, G> Drop for Resources<'a, R, G> {
    fn drop(self) {
        let Resources {
            rt: _,
            alloc: _,
            gate: _,
        } = self;
    }
}
