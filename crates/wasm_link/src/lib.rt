//! The console's profile (project rules): nine causes for which a module is refused, in their order. The
//! layer above asks once, before the module is typed, and relies on the answer being the first cause that
//! holds.
#![tactic(auto)]

mod condition;
mod exports;
mod floats;
mod imports;
mod locals;
mod names;
mod profile;
mod segments;
mod signature;

pub use exports::signature_of;
pub use names::import_named;
pub use profile::check_profile;
