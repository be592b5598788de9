//! The words that follow the name of an order of any kind: none, one number, or two.

ghost use Rattle.std.specs.Prelude.{◌≡◌, ◌≤◌, IfSome};
ghost use Rattle.w4_defs.specs.OrderWords.{no_word, one_number, range_order};
ghost use Rattle.w4_script.specs.Words.{words_left};

use crate::number::number_of;
use crate::words::Words;

/// The order, if no word is left.
pub fn no_word<O: Drop>(order: O, mut words: Words<'_>) -> Option<O>
    ensures { result ≡ no_word order (words_left words.entry) }
{
    match words.next() {
        Some(_) => None,
        None => Some(order),
    }
}

/// The one number that is left.
pub fn one_number(mut words: Words<'_>) -> Option<u32>
    ensures { result ≡ one_number (λ n. n) (words_left words.entry) }
{
    let word = words.next()?;
    if words.next().is_some() {
        return None;
    }
    number_of(word)
}

/// The two numbers that are left, the first at most the second.
pub fn range(mut words: Words<'_>) -> Option<(u32, u32)>
    ensures numbers { result ≡ range_order (λ a b. (a, b)) (words_left words.entry) }
    ensures ordered { IfSome result (λ p. p.0 ≤ p.1) }
{
    let first = words.next()?;
    let last = words.next()?;
    if words.next().is_some() {
        return None;
    }
    let a = number_of(first)?;
    let b = number_of(last)?;
    if a <= b { Some((a, b)) } else { None }
}
