//! The page of a cart: its one memory of 65,536 bytes, with the loads and stores of 1, 2, 4 and 8 bytes
//! (Core Specification, section 4.4, memory instructions). The layers above rely on this: a page is the
//! list of its bytes, an access is None if and only if it passes the end, and a store changes just its bytes.
#![tactic(auto)]

mod access;
pub mod page;

pub use page::Page;
