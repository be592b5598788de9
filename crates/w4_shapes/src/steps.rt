//! Which steps of a line are on the screen: of each axis a range, since an axis never turns back.

ghost use Rattle.std.specs.Prelude.{◌+◌, ◌+ℤ◌, ◌<◌, ◌<ℤ◌, ◌≡◌, ◌≤◌, ◌≤ℤ◌, ◌⊎◌, ℕ, false, max, negsuc, pos};
ghost use Rattle.w4_defs.specs.Shapes.{apart, is_at, minor_step, moved, toward};
ghost use Rattle.w4_shapes.specs.Painted.{OnAxis, is_point};

use crate::lines::distance;

/// The first step of a line that is on the screen, and the end, which is left out.
pub(crate) fn line_steps(x1: i32, y1: i32, x2: i32, y2: i32) -> (u64, u64)
    ensures order { result.0 ≤ result.1 }
    ensures bound { result.1 ≤ max (apart x1 x2) (apart y1 y2) + 1 }
    ensures few { result.1 ≤ result.0 + 160 }
    ensures on { (t : ℕ) → result.0 ≤ t → t < result.1
        → OnAxis (toward x1 x2 (moved (apart x1 x2) (apart y1 y2) t))
        × OnAxis (toward y1 y2 (moved (apart y1 y2) (apart x1 x2) t)) }
    ensures off { (t u v : ℕ) → u < 160 → v < 160 → (t < result.0) ⊎ (result.1 ≤ t)
        → t < max (apart x1 x2) (apart y1 y2) + 1 → is_point x1 y1 x2 y2 t u v ≡ false }
{
    let (wide, high) = (distance(x1, x2), distance(y1, y2));
    let columns = axis_steps(x1, x2, wide, high);
    let rows = axis_steps(y1, y2, high, wide);
    let end = columns.1.min(rows.1);
    (columns.0.max(rows.0).min(end), end)
}

/// The steps after which the axis from `a` to `b` is on the screen, by its own distance and the other axis's.
fn axis_steps(a: i32, b: i32, own: u32, other: u32) -> (u64, u64)
    ensures bound { result.1 ≤ max own other + 1 }
    ensures few { other ≤ own → result.1 ≤ result.0 + 160 }
    ensures on { (t : ℕ) → result.0 ≤ t → t < result.1 → OnAxis (toward a b (moved own other t)) }
    ensures off { (t u : ℕ) → u < 160 → (t < result.0) ⊎ (result.1 ≤ t) → t < max own other + 1
        → is_at (toward a b (moved own other t)) u ≡ false }
{
    let first = first_move(a, b);
    if other <= own {
        (far_step(first, own), far_step(first + 160, own))
    } else {
        (reach(first, own, other), reach(first + 160, own, other))
    }
}

/// How many moves from `a` toward `b` bring an axis to the screen; below 0 if it begins on it or beyond it.
fn first_move(a: i32, b: i32) -> i64
    ensures low { negsuc 4294967296 ≤ℤ result }
    ensures high { result ≤ℤ pos 4294967296 }
    ensures on { (far : ℕ) → result ≤ℤ pos far → pos far <ℤ (result +ℤ pos 160) → OnAxis (toward a b far) }
    ensures off { (far u : ℕ) → u < 160 → (pos far <ℤ result) ⊎ ((result +ℤ pos 160) ≤ℤ pos far)
        → is_at (toward a b far) u ≡ false }
{
    if a <= b {
        -i64::from(a)
    } else {
        i64::from(a) - 159
    }
}

/// The first step after which an axis that moves at each step has moved so far; one past the last where
/// none is.
fn far_step(far: i64, last: u32) -> u64
    ensures bound { result ≤ last + 1 }
    ensures value { (t : ℕ) → t ≤ last → (t < result → pos t <ℤ far) × (result ≤ t → far ≤ℤ pos t) }
    ensures few { (n : ℕ) → far ≤ℤ pos n → result ≤ n }
{
    far.clamp(0, i64::from(last) + 1) as u64
}

/// The first step after which the axis of the lesser distance `less` has moved so far; one past the last, of
/// `most`, where none is.
fn reach(far: i64, less: u32, most: u32) -> u64
    requires { less < most }
    ensures bound { result ≤ most + 1 }
    ensures before { (t : ℕ) → t < result → t ≤ most → pos (minor_step t less most) <ℤ far }
    ensures from { (t : ℕ) → result ≤ t → t ≤ most → far ≤ℤ pos (minor_step t less most) }
{
    let (less, most) = (u64::from(less), u64::from(most));
    if far <= 0 {
        0
    } else if less < far as u64 {
        most + 1
    } else {
        steps_to(far as u64, less, most).min(most + 1)
    }
}

/// The first step after which the axis of the lesser distance has moved so far.
fn steps_to(far: u64, less: u64, most: u64) -> u64
    requires some { 0 < far }
    requires far { far ≤ less }
    requires less { less < most }
    requires most { most < 4294967296 }
    ensures before { (t : ℕ) → t < result → minor_step t less most < far }
    ensures from { (t : ℕ) → result ≤ t → far ≤ minor_step t less most }
{
    (far * most - (most - 1) / 2 + (less - 1)) / less
}
