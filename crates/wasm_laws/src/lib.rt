//! Laws of evaluation, place by place: a half-done run of the WebAssembly Core Specification, chapter 4,
//! stands at a place of the code as it is decoded, with labels, slots and an activation, and what each
//! instruction makes of these. A machine that keeps them so ends as the evaluation does. Nothing here is run
//! but the type of endings.
#![tactic(auto)]

mod activation;
mod ending;
mod flow;
mod label;

pub use activation::Activation;
pub use ending::Ending;
pub use flow::Flow;
pub use label::Label;
