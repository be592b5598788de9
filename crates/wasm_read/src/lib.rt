//! The binary reader (Core Specification, chapter 5): the module that bytes encode, or the answer that
//! they encode none. Each reader returns exactly what its definition in w4_defs reads.
#![tactic(auto)]

pub mod brackets;
pub mod expression;
pub mod instruction_table;
pub mod item;
pub mod laws;
pub mod module;
pub mod number;
pub mod operation;
pub mod part;
pub mod refusal;
pub mod section;
pub mod value_type;

pub use module::{at_most_one, read_module};
pub use refusal::ReadRefusal;
