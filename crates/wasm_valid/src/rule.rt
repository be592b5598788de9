//! Whether all items of a list keep a rule.

ghost use Rattle.std.specs.Bool.{Decides};
ghost use Rattle.std.specs.Prelude.{All};

/// A rule on items.
pub trait Rule<T> {
    ghost use Rattle.std.specs.Bool.{Decides};

    ghost keeps_rule: { Self → T → Type 0 };

    fn keeps_rule(&self, item: &T) -> bool
        ensures { Decides result (keeps_rule self.now item.now) };
}

pub fn all<T, R: Rule<T>>(rule: &R, items: &[T]) -> bool
    ensures { Decides result (All (R.keeps_rule rule.now) items.now) }
{
    for i in 0..items.len() {
        if !rule.keeps_rule(&items[i]) {
            return false;
        }
    }
    true
}
