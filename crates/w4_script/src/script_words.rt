//! The words after the names of a script's orders on places: a number within bounds, a film.

ghost use Rattle.std.specs.Prelude.{◌≡◌, ℕ, option_map};
ghost use Rattle.w4_defs.specs.Script.{film_order, number_order};
ghost use Rattle.w4_defs.specs.declared.order.Order.{Order};
ghost use Rattle.w4_script.specs.Words.{words_left};

use crate::number::number_of;
use crate::order_words::one_number;
use crate::words::Words;
use w4_defs::Order;

/// The one number that is left, from `least` to `most`.
pub fn number_between(words: Words<'_>, least: u32, most: u32) -> Option<u32>
    ensures { (make : ℕ → Order) →
        option_map make result ≡ number_order make least most (words_left words.entry) }
{
    let number = one_number(words)?;
    if least <= number && number <= most {
        Some(number)
    } else {
        None
    }
}

/// The places of a film, the first at most the second, and 1 to 16 workers.
pub fn film(mut words: Words<'_>) -> Option<Order>
    ensures { result ≡ film_order (words_left words.entry) }
{
    let first = words.next()?;
    let last = words.next()?;
    let count = words.next()?;
    if words.next().is_some() {
        return None;
    }
    let a = number_of(first)?;
    let b = number_of(last)?;
    let workers = number_of(count)?;
    if a <= b && 1 <= workers && workers <= 16 {
        Some(Order::Film { a, b, workers })
    } else {
        None
    }
}
