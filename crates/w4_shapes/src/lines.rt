//! Lines, step by step from the first that is on the screen to the last. The number of the pixel goes along.

ghost use Rattle.std.specs.Prelude.{◌*◌, ◌+◌, ◌+ℤ◌, ◌-◌, ◌/◌, ◌<◌, ◌≡◌, ◌≤◌, ◌≤ℤ◌, ◌⊎◌, ℕ, Some, max, negsuc, pos};
ghost use Rattle.w4_defs.specs.Framebuffer.{paint};
ghost use Rattle.w4_defs.specs.Shapes.{apart, line_from, line_painter, minor_step, moved, toward};
ghost use Rattle.w4_shapes.specs.Painted.{IsPixel, OnAxis, across, steps_painter};

use crate::steps::line_steps;
use w4_defs::PageBytes;
use w4_pixels::{PaletteIndex, entry_of, put_pixel};

/// The ends of a line, the upper one first.
#[derive(Clone, Copy)]
struct Ends {
    x1: i32,
    y1: i32,
    x2: i32,
    y2: i32,
    ghost down: { y1 ≤ℤ y2 },
}

/// Some steps of a line, from the one of number `first` up to `end`, after which it is on the screen.
#[derive(Clone, Copy)]
struct LineSteps {
    ends: Ends,
    first: u64,
    end: u64,
    ghost some: { first < end },
    ghost few: { end ≤ max (apart ends.x1 ends.x2) (apart ends.y1 ends.y2) + 1 },
    ghost on: { (t : ℕ) → first ≤ t → t < end
        → OnAxis (toward ends.x1 ends.x2 (moved (apart ends.x1 ends.x2) (apart ends.y1 ends.y2) t))
        × OnAxis (toward ends.y1 ends.y2 (moved (apart ends.y1 ends.y2) (apart ends.x1 ends.x2) t)) },
}

/// Paints the line from (x1, y1) to (x2, y2) in colour 1. It starts at the end with the smaller y, at a
/// tie at the first.
pub fn line(page: &mut PageBytes, colors: u16, x1: i32, y1: i32, x2: i32, y2: i32)
    ensures { page.new ≡ paint page.old (line_painter colors x1 y1 x2 y2) }
{
    let index = entry_of(colors, 1);
    if y2 < y1 {
        let ends = Ends {
            x1: x2,
            y1: y2,
            x2: x1,
            y2: y1,
        };
        line_from(page, ends, index);
    } else {
        line_from(page, Ends { x1, y1, x2, y2 }, index);
    }
}

/// Paints a line that starts at its first end, the upper one.
fn line_from(page: &mut PageBytes, ends: Ends, index: Option<PaletteIndex>)
    ensures { page.new ≡ paint page.old (line_from ends.x1 ends.y1 ends.x2 ends.y2 index) }
{
    if let Some(index) = index {
        put_line(page, ends, index);
    }
}

fn put_line(page: &mut PageBytes, ends: Ends, index: PaletteIndex)
    ensures { page.new ≡ paint page.old (line_from ends.x1 ends.y1 ends.x2 ends.y2 (Some index)) }
{
    let (first, end) = line_steps(ends.x1, ends.y1, ends.x2, ends.y2);
    if first < end {
        let steps = LineSteps { ends, first, end };
        put_steps(page, steps, index);
    }
}

/// Paints the points of a line after some steps.
fn put_steps(page: &mut PageBytes, steps: LineSteps, index: PaletteIndex)
    ensures { let ends = steps.ends in page.new
        ≡ paint page.old (steps_painter (λ t. toward ends.x1 ends.x2
        (moved (apart ends.x1 ends.x2) (apart ends.y1 ends.y2) t))
        (λ t. toward ends.y1 ends.y2 (moved (apart ends.y1 ends.y2) (apart ends.x1 ends.x2) t)) steps.first
        steps.end (Some index)) }
{
    let ends = steps.ends;
    let (wide, high) = (distance(ends.x1, ends.x2), distance(ends.y1, ends.y2));
    let (less, most) = (wide.min(high), wide.max(high).max(1));
    let distances = Distances { less, most };
    let course = course_of(ends.x1, ends.x2, wide, high);
    let first = steps.first as u32;
    let mut slope = slope_at(first, distances);
    let lesser = slope.moved as u32;
    let x = axis_at(ends.x1, ends.x2, wide, high, first, lesser);
    let y = axis_at(ends.y1, ends.y2, high, wide, first, lesser);
    let mut number = number_of(x, y);
    for step in steps.first..steps.end {
        put_pixel(page, number, index);
        let next = next_slope(slope, distances);
        number = next_number(number, course, slope.moved, next.moved);
        slope = next;
    }
}

/// By how much the number of a line's pixel grows at a step of the longer axis alone, and at one of both.
#[derive(Clone, Copy)]
struct Course {
    straight: i64,
    aside: i64,
    ghost least_straight: { negsuc 0 ≤ℤ straight },
    ghost most_straight: { straight ≤ℤ pos 160 },
    ghost least_aside: { pos 0 ≤ℤ aside },
    ghost most_aside: { aside ≤ℤ pos 161 },
}

/// The course of a line that goes down, and from `x1` toward `x2`, by its width and height.
fn course_of(x1: i32, x2: i32, wide: u32, high: u32) -> Course
    ensures flat { high ≤ wide → result.straight ≡ across x1 x2 }
    ensures steep { wide < high → result.straight ≡ pos 160 }
    ensures aside { result.aside ≡ across x1 x2 +ℤ pos 160 }
{
    let across = if x1 <= x2 { 1 } else { -1 };
    Course {
        straight: if high <= wide { across } else { 160 },
        aside: across + 160,
    }
}

/// The number of a pixel of the screen, counted in rows from the top.
fn number_of(x: i64, y: i64) -> usize
    requires column { OnAxis x }
    requires row { OnAxis y }
    ensures { IsPixel x y result }
{
    (160 * y + x) as usize
}

/// The number of a line's next pixel, by how far the axis of the lesser distance had moved and has.
fn next_number(number: usize, course: Course, before: u64, after: u64) -> usize
    requires { number < 25600 }
    ensures straight { before ≡ after → pos 0 ≤ℤ (pos number +ℤ course.straight)
        → pos result ≡ pos number +ℤ course.straight }
    ensures aside { before < after → pos result ≡ pos number +ℤ course.aside }
{
    let more = if before == after {
        course.straight
    } else {
        course.aside
    };
    (number as i64 + more).max(0) as usize
}

/// The lesser and the greater distance of a line's two axes. The greater is 1 for a line of one point.
#[derive(Clone, Copy)]
struct Distances {
    less: u32,
    most: u32,
    ghost order: { less ≤ most },
    ghost some: { 0 < most },
}

/// How far the axis of the lesser distance has moved, and what is left over of a whole step of it.
#[derive(Clone, Copy)]
struct Slope {
    moved: u64,
    rest: u64,
}

fn slope_at(step: u32, distances: Distances) -> Slope
    requires { step ≤ distances.most }
    ensures moved { result.moved ≤ distances.less }
    ensures sum { result.moved * distances.most + result.rest
        ≡ step * distances.less + (distances.most - 1) / 2 }
    ensures rest { result.rest < distances.most }
{
    let (less, most) = (u64::from(distances.less), u64::from(distances.most));
    let sum = u64::from(step) * less + (most - 1) / 2;
    Slope {
        moved: sum / most,
        rest: sum % most,
    }
}

/// One step further, without a division.
fn next_slope(slope: Slope, distances: Distances) -> Slope
    requires moved { slope.moved < 4294967296 }
    requires rest { slope.rest < distances.most }
    ensures sum { result.moved * distances.most + result.rest
        ≡ (slope.moved * distances.most + slope.rest) + distances.less }
    ensures rest { result.rest < distances.most }
    ensures one { (result.moved ≡ slope.moved) ⊎ (result.moved ≡ slope.moved + 1) }
{
    let most = u64::from(distances.most);
    let rest = slope.rest + u64::from(distances.less);
    if rest < most {
        Slope {
            moved: slope.moved,
            rest,
        }
    } else {
        Slope {
            moved: slope.moved + 1,
            rest: rest - most,
        }
    }
}

/// How far two coordinates are apart.
pub(crate) fn distance(a: i32, b: i32) -> u32
    ensures { result ≡ apart a b }
{
    (i64::from(b) - i64::from(a)).unsigned_abs() as u32
}

/// Where an axis from `a` to `b` stands after that many steps, by its own distance and the other axis's, and
/// by how far the axis of the lesser distance has moved.
fn axis_at(a: i32, b: i32, own: u32, other: u32, step: u32, lesser: u32) -> i64
    requires { own < other → lesser ≡ minor_step step own other }
    ensures { result ≡ toward a b (moved own other step) }
{
    toward(a, b, moved(own, other, step, lesser))
}

fn toward(a: i32, b: i32, far: u32) -> i64
    ensures { result ≡ toward a b far }
{
    if a <= b {
        i64::from(a) + i64::from(far)
    } else {
        i64::from(a) - i64::from(far)
    }
}

/// How far an axis has moved after that many steps.
fn moved(own: u32, other: u32, step: u32, lesser: u32) -> u32
    requires { own < other → lesser ≡ minor_step step own other }
    ensures { result ≡ moved own other step }
{
    if other <= own { step } else { lesser }
}
