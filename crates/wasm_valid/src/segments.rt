//! Rules of element and data segments (Core Specification, section 3.4).

ghost use Rattle.std.specs.Bool.{Decides};
ghost use Rattle.std.specs.Prelude.{All};
ghost use Rattle.w4_defs.specs.Validity.{IsDataSegment, IsElementSegment};
ghost use Rattle.wasm_valid.specs.Counting.{AreCounts};

use crate::constant::is_constant;
use crate::counts::Counts;
use crate::functions::IsBelow;
use crate::rule::{Rule, all};
use w4_defs::ValType;
use wasm_tree::{Code, FlatElement, FlatSegment};

/// Whether each element segment fills the one table from a constant offset on with functions that exist.
pub fn have_right_elements(code: &Code, counts: Counts) -> bool
    requires { AreCounts counts code.now }
    ensures { Decides result (All (IsElementSegment code.now) code.now.elements) }
{
    all(&IsElement { counts }, code.elements())
}

/// Whether each data segment fills the one memory from a constant offset on.
pub fn have_right_segments(code: &Code, counts: Counts) -> bool
    requires { AreCounts counts code.now }
    ensures { Decides result (All (IsDataSegment code.now) code.now.segments) }
{
    all(&IsData { counts }, code.segments())
}

#[derive(Drop)]
struct IsElement {
    counts: Counts,
}

impl Rule<FlatElement> for IsElement {
    ghost use Rattle.wasm_valid.specs.Segments.{IsCountedElement};

    ghost keeps_rule = { λ r s. IsCountedElement r.counts s };

    fn keeps_rule(&self, segment: &FlatElement) -> bool {
        let functions = IsBelow {
            count: self.counts.functions,
        };
        segment.table == 0
            && 0 < self.counts.tables
            && is_constant(ValType::I32, &segment.offset)
            && all(&functions, &segment.functions)
    }
}

#[derive(Drop)]
struct IsData {
    counts: Counts,
}

impl Rule<FlatSegment> for IsData {
    ghost use Rattle.wasm_valid.specs.Segments.{IsCountedData};

    ghost keeps_rule = { λ r s. IsCountedData r.counts s };

    fn keeps_rule(&self, segment: &FlatSegment) -> bool {
        segment.memory == 0
            && 0 < self.counts.memories
            && is_constant(ValType::I32, &segment.offset)
    }
}
