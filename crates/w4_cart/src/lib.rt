//! Acceptance of carts (project rule): bytes are a cart, or the first cause for which they are none. The
//! layers above rely on a `Cart` being the valid module that its bytes encode, within the profile, and on
//! `CartFile` having the digest of the same bytes.
#![tactic(auto)]

mod acceptance;
mod refusal;

pub use acceptance::{CartFile, MOST_BYTES, accept, accept_file};
pub use refusal::CartRefusal;
