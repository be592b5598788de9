//! The words of a frame: `K P1 P2 P3 P4 X Y B`, and `reset` if the frame has a reset.

ghost use Rattle.std.specs.Prelude.{◌≡◌, ℕ, option_map};
ghost use Rattle.w4_defs.specs.Script.{frame_order, reset_word};
ghost use Rattle.w4_defs.specs.declared.console.Input.{Input};
ghost use Rattle.w4_defs.specs.declared.order.Order.{Order};
ghost use Rattle.w4_script.specs.Words.{words_left};

use crate::number::{coordinate_of, decimal_byte, number_of};
use crate::words::Words;
use w4_defs::Input;

/// Whether the word `reset` is left, or no word.
fn has_reset(mut words: Words<'_>) -> Option<bool>
    ensures { result ≡ reset_word (words_left words.entry) }
{
    let Some(word) = words.next() else {
        return Some(false);
    };
    if words.next().is_none() && word == b"reset".as_slice() {
        Some(true)
    } else {
        None
    }
}

/// The number of an input, counted from 0, and the input.
pub fn frame(mut words: Words<'_>) -> Option<(u32, Input)>
    ensures { (make : ℕ → Input → Order) →
        option_map (λ p. make p.0 p.1) result ≡ frame_order make (words_left words.entry) }
{
    let number = words.next()?;
    let pad_1 = words.next()?;
    let pad_2 = words.next()?;
    let pad_3 = words.next()?;
    let pad_4 = words.next()?;
    let across = words.next()?;
    let down = words.next()?;
    let pressed = words.next()?;
    let k = number_of(number)?;
    let pads = [
        decimal_byte(pad_1)?,
        decimal_byte(pad_2)?,
        decimal_byte(pad_3)?,
        decimal_byte(pad_4)?,
    ];
    let mouse_x = coordinate_of(across)?;
    let mouse_y = coordinate_of(down)?;
    let buttons = decimal_byte(pressed)?;
    let reset = has_reset(words)?;
    let input = Input {
        pads,
        mouse_x,
        mouse_y,
        buttons,
        reset,
    };
    Some((k, input))
}
