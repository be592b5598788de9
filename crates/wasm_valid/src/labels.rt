//! The labels of a br_table, which all have one type (Core Specification 1.0, section 3.3.5).

ghost use Rattle.std.specs.Prelude.{◌≡◌, option_map};
ghost use Rattle.w4_defs.specs.AbstractStack.{is_label};
ghost use Rattle.wasm_valid.specs.ControlStack.{all_have, shared};
ghost use Rattle.wasm_valid.specs.Pass.{label_types};

use crate::control_stack::ControlStack;
use crate::signature::same_types;
use w4_defs::ValType;

/// The one type that all these labels have; None where one differs or is no label, or there are none.
pub fn common_label<'a>(labels: &[u32], control: &ControlStack<'a>) -> Option<&'a [ValType]>
    ensures { option_map (λ ts. ts.now) result ≡ shared control.now labels.now }
{
    if labels.is_empty() {
        return None;
    }
    let Some(label) = control.label(labels[0]) else {
        return None;
    };
    if all_have(label, &labels[1..], control) {
        Some(label)
    } else {
        None
    }
}

fn all_have(label: &[ValType], labels: &[u32], control: &ControlStack) -> bool
    ensures { result ≡ all_have label.now (label_types control.now) labels.now }
{
    for i in 0..labels.len() {
        if !is_label(label, control.label(labels[i])) {
            return false;
        }
    }
    true
}

fn is_label(label: &[ValType], other: Option<&[ValType]>) -> bool
    ensures { result ≡ is_label label.now (option_map (λ ts. ts.now) other.entry) }
{
    match other {
        Some(other) => same_types(label, other),
        None => false,
    }
}
