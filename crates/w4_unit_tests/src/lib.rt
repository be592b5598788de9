//! Tests of single crates, by their public calls. A crate with tests of its own is proved a second time for
//! them; this one has nothing else.
#![tactic(auto)]

#[cfg(test)]
mod tests;
