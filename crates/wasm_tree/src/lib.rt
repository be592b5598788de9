//! A module in flat lists, as the reader makes it and all others read it (Core Specification, sections 2.5
//! and 5.4): `Code`, whose contracts speak of its module alone, and `Host`, what a module's imports do.
#![tactic(auto)]

pub mod bodies;
pub mod code;
pub mod expression;
pub mod host;
pub mod marks;
pub mod parts;
pub mod positions;

pub use bodies::Bodies;
pub use code::Code;
pub use expression::FlatExpression;
pub use host::Host;
pub use marks::Marks;
pub use parts::{FlatBody, FlatElement, FlatGlobal, FlatSegment};
pub use w4_defs::{Export, FuncType, ImportEntry, Op};
