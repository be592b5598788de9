//! The house: everything that the program reaches outside itself, as a trait of five calls and three
//! implementations. A caller relies only on the clauses of `House`, which say what a call returns and leaves,
//! and that a count rose if a call failed.
#![tactic(auto)]

pub mod calls;
mod event_log;
mod input;
mod line;
pub mod log_entry;
pub mod memory;
pub mod real;
mod replace;
mod stored;
pub mod sure;

pub use calls::{House, HouseFault, WriteRefusal};
pub use log_entry::LogEntry;
pub use memory::MemoryHouse;
pub use real::RealHouse;
pub use sure::SureHouse;
