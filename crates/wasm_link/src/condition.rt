//! Whether an item of a list meets a condition, and which is the first that does.

ghost use Rattle.std.specs.List.{list_any};
ghost use Rattle.std.specs.Prelude.{◌≡◌, position};

/// A condition on items.
pub trait Condition<T> {
    ghost use Rattle.std.specs.Prelude.{◌≡◌, Bool};

    ghost is_met: { Self → T → Bool };

    fn is_met(&self, item: &T) -> bool
        ensures { result ≡ is_met self.now item.now };
}

pub fn any<T, C: Condition<T>>(condition: &C, items: &[T]) -> bool
    ensures { result ≡ list_any (C.is_met condition.now) items.now }
{
    for i in 0..items.len() {
        if condition.is_met(&items[i]) {
            return true;
        }
    }
    false
}

pub fn first<T, C: Condition<T>>(condition: &C, items: &[T]) -> Option<usize>
    ensures { result ≡ position (C.is_met condition.now) items.now }
{
    for i in 0..items.len() {
        if condition.is_met(&items[i]) {
            return Some(i);
        }
    }
    None
}
