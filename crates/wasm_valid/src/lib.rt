//! Validation of a module (Core Specification, chapter 3). The layer above makes a `Cart` by `validate`, and
//! relies on it: its module is valid and within the console's profile, and its functions are ready to be
//! called.
#![tactic(auto)]

mod blocks;
mod body;
mod call;
mod calls;
mod cart;
mod constant;
mod control_stack;
mod counts;
mod entry_point;
mod exports;
mod functions;
mod globals;
mod labels;
mod laws;
mod limits;
mod module_rules;
mod operands;
mod refusal;
mod rule;
mod scope;
mod segments;
mod signature;
mod soundness;
mod stack_types;
mod steps;
mod table;
mod validation;

pub use call::Call;
pub use cart::Cart;
pub use entry_point::Entry;
pub use laws::{
    called_functions_are_typed, instructions_are_counted, pass_decides_bodies, stack_decides,
    stack_decides_bodies,
};
pub use refusal::ValidRefusal;
pub use soundness::{hosted_runs_are_sound, runs_are_sound};
pub use validation::validate;
