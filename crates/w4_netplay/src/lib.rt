//! Netplay without a network (project rule; the words are those of GGPO): pads of four players that come
//! late, again, in any order or never, and a recording that is rolled back to what is predicted from them.
//! The layer above relies on each call changing what is known, the number of frames and the kept places just
//! so, and on a shown state being that of a run from reset of the predicted inputs.
#![tactic(auto)]

pub mod laws;
mod pads;
pub mod replica;
mod rollback;

pub use replica::Replica;
pub use w4_defs::NetRefusal;
pub use w4_defs::netplay::Packet;
