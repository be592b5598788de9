//! Whether each segment with a constant offset stays within the table or the page.

ghost use Rattle.std.specs.Prelude.{◌+◌, ◌<◌, ◌≡◌, length, position, slice_get};
ghost use Rattle.w4_defs.specs.Profile.{exceeds_size, i32_constant, segments_outside, single_constant, table_size};

use crate::condition::{Condition, first};
use w4_defs::{Basic, Op};
use wasm_tree::{Code, FlatElement, FlatExpression, FlatSegment};

/// The first segment that is outside; the element segments are numbered first.
pub fn first_outside(code: &Code) -> Option<usize>
    ensures { result ≡ position (λ b. b) (segments_outside code.now) }
{
    let elements = code.elements();
    let segments = code.segments();
    let size = table_size(code);
    match first(&IsOutside { size }, elements) {
        Some(i) => Some(i),
        None => match first(&IsOutside { size: 65536 }, segments) {
            Some(i) => Some(segment_after(elements, segments, i)),
            None => None,
        },
    }
}

/// A segment whose items pass the end of what they are put into, which has this size.
#[derive(Drop)]
struct IsOutside {
    size: usize,
}

impl Condition<FlatElement> for IsOutside {
    ghost use Rattle.std.specs.Prelude.{length};
    ghost use Rattle.w4_defs.specs.Profile.{exceeds_size, single_constant};

    ghost is_met = { λ c s. exceeds_size (single_constant s.offset) (length s.functions) c.size };

    fn is_met(&self, segment: &FlatElement) -> bool {
        passes(
            single_constant(&segment.offset),
            segment.functions.len(),
            self.size,
        )
    }
}

impl Condition<FlatSegment> for IsOutside {
    ghost use Rattle.std.specs.Prelude.{length};
    ghost use Rattle.w4_defs.specs.Profile.{exceeds_size, single_constant};

    ghost is_met = { λ c s. exceeds_size (single_constant s.offset) (length s.bytes) c.size };

    fn is_met(&self, segment: &FlatSegment) -> bool {
        passes(
            single_constant(&segment.offset),
            segment.bytes.len(),
            self.size,
        )
    }
}

fn passes(offset: Option<u32>, count: usize, size: usize) -> bool
    ensures { result ≡ exceeds_size offset count size }
{
    match offset {
        Some(offset) => size < count || size - count < offset as usize,
        None => false,
    }
}

/// The number of an expression that is a single `i32.const`.
fn single_constant(expression: &FlatExpression) -> Option<u32>
    ensures { result ≡ single_constant expression.now }
{
    let ops = expression.ops();
    if ops.len() == 2 {
        constant(ops[0])
    } else {
        None
    }
}

fn constant(op: Op) -> Option<u32>
    ensures { result ≡ i32_constant op }
{
    match op {
        Op::Basic(Basic::I32Const { value }) => Some(value),
        _ => None,
    }
}

/// The least size of the first own table, or 0 where there is none.
fn table_size(code: &Code) -> usize
    ensures { result ≡ table_size (slice_get code.now.tables 0) }
{
    match code.tables().get(0) {
        Some(limits) => limits.least as usize,
        None => 0,
    }
}

/// The number of a data segment among all segments.
fn segment_after(elements: &[FlatElement], segments: &[FlatSegment], i: usize) -> usize
    requires { i < length segments.now }
    ensures { result ≡ length elements.now + i }
{
    elements.len() + i
}
