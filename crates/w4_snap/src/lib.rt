//! Snapshots of a console's state, which share the chunks of the page that didn't change (project rule). The
//! layers above rely on a snapshot being seen as the state that it stands for, and on how many chunks a
//! capture copies.
#![tactic(auto)]

pub mod equality;
pub mod laws;
mod shared_page;
pub mod snap;

pub use snap::{Snap, capture};
