//! Numbers in a text: the value that a word's decimal digits have.

ghost use Rattle.std.specs.Prelude.{◌≡◌};
ghost use Rattle.w4_defs.specs.Lines.{coordinate_of, decimal_byte, number_of};
ghost use Rattle.w4_script.specs.Number.{digit_value};

/// The value of decimal digits, or None if a byte is no digit or the value is above 4,294,967,295.
fn value_of(digits: &[u8]) -> Option<u32>
    ensures { result ≡ digit_value digits.now }
{
    let mut value: u32 = 0;
    for digit in digits {
        if !digit.is_ascii_digit() {
            return None;
        }
        value = value.checked_mul(10)?.checked_add((*digit - b'0') as u32)?;
    }
    Some(value)
}

/// The number that a word says: 1 to 10 decimal digits, leading zeros among them, at most 4,294,967,295. None
/// if the word is no such number. Takes no memory.
#[tactic(auto, unfolding(w4_defs::specs::Lines::number_of))]
pub fn number_of(word: &[u8]) -> Option<u32>
    ensures { result ≡ number_of word.now }
{
    if word.is_empty() || word.len() > 10 {
        return None;
    }
    value_of(word)
}

/// A number from 0 to 255, or None if the word is no such number. Takes no memory.
#[tactic(auto, unfolding(w4_defs::specs::Lines::decimal_byte))]
pub fn decimal_byte(word: &[u8]) -> Option<u8>
    ensures { result ≡ decimal_byte word.now }
{
    let value = number_of(word)?;
    if value <= 255 {
        Some(value as u8)
    } else {
        None
    }
}

/// A number from -32,768 to 32,767, a `-` directly before its digits, of 0 too. None if the word is no such
/// number. Takes no memory.
#[tactic(auto, unfolding(w4_defs::specs::Lines::coordinate_of))]
pub fn coordinate_of(word: &[u8]) -> Option<i16>
    ensures { result ≡ coordinate_of word.now }
{
    match word {
        [] => None,
        [b'-', digits @ ..] => {
            let value = number_of(digits)?;
            if value <= 32_768 {
                Some(-(value as i32) as i16)
            } else {
                None
            }
        }
        [_, ..] => {
            let value = number_of(word)?;
            if value <= 32_767 {
                Some(value as i16)
            } else {
                None
            }
        }
    }
}
