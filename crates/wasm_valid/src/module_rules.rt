//! The rules of a module besides those of its functions' bodies (Core Specification, section 3.4).

ghost use Rattle.std.specs.Bool.{Decides};
ghost use Rattle.w4_defs.specs.Validity.{KeepsModuleRules};

use crate::counts::counted;
use crate::exports::{have_names_apart, name_what_exists};
use crate::functions::{has_right_start, have_first_values, have_types};
use crate::limits::{have_memory_limits, have_table_limits};
use crate::segments::{have_right_elements, have_right_segments};
use wasm_tree::Code;

/// Whether the module rules hold.
pub fn keeps_module_rules(code: &Code) -> bool
    ensures { Decides result (KeepsModuleRules code.now) }
{
    let counts = counted(code);
    if !have_types(code) {
        return false;
    }
    if 1 < counts.tables {
        return false;
    }
    if 1 < counts.memories {
        return false;
    }
    if !have_table_limits(code) {
        return false;
    }
    if !have_memory_limits(code) {
        return false;
    }
    if !have_first_values(code) {
        return false;
    }
    if !name_what_exists(code, counts) {
        return false;
    }
    if !have_names_apart(code.exports()) {
        return false;
    }
    if !has_right_start(code) {
        return false;
    }
    if !have_right_elements(code, counts) {
        return false;
    }
    have_right_segments(code, counts)
}
