//! A gate by which a test sees that two pieces of work are under way at once.

use std::sync::atomic::{AtomicU64, Ordering};
use w4_segments::Gate;

/// How often a held piece looks for the other one.
const TURNS: u64 = 1_000_000_000;

/// A gate that holds piece 0 until piece 1 has passed, but for no longer than `TURNS`.
#[derive(Drop)]
pub struct Holder {
    passed: AtomicU64,
    seen: AtomicU64,
}

impl Holder {
    pub fn new() -> Holder {
        Holder {
            passed: AtomicU64::new(0),
            seen: AtomicU64::new(0),
        }
    }

    fn hold(&self) {
        for _ in 0..TURNS {
            if self.passed.load(Ordering::SeqCst) == 1 {
                self.seen.store(1, Ordering::SeqCst);
                return;
            }
        }
    }

    /// Whether piece 0 saw piece 1 pass.
    pub fn saw(&self) -> bool {
        self.seen.load(Ordering::SeqCst) == 1
    }
}

impl Gate for Holder {
    fn pass(&self, piece: usize) {
        match piece {
            0 => self.hold(),
            1 => self.passed.store(1, Ordering::SeqCst),
            _ => {}
        }
    }
}
