//! The writer of the binary format (Core Specification, chapter 5), and the maker of large valid carts.
//! `write_module` gives bytes that encode a module, every number in its shortest encoding.
#![tactic(auto)]

pub mod expression;
pub mod instruction_table;
pub mod item;
pub mod laws;
pub mod made;
pub mod made_module;
pub mod module;
pub mod module_item;
pub mod number;
pub mod value_type;

pub use made::{MADE_FRAMES, Made, Maker};
pub use module::write_module;
