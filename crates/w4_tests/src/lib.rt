//! Tests of whole runs over the crates below the commands, and what they share with those of the program.
#![tactic(auto)]

pub mod carts;
pub mod holder;
#[cfg(test)]
mod tests;
