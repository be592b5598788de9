//! What the types of bytes and inputs say of their values, for the limits of a recording.

ghost use Rattle.std.specs.List.{AllByRecursion};
ghost use Rattle.w4_defs.specs.Reading.{IsBytes};
ghost use Rattle.w4_defs.specs.Recording.{IsInput};

use w4_defs::Input;

/// Bytes are numbers below 256.
pub fn bytes_are_in_range(bytes: &[u8])
    ensures { IsBytes bytes.now }
{}

/// An input's fields have the ranges of their types. The proof learns them where the fields are read.
fn input_is_in_range(input: &Input)
    ensures { IsInput input.now }
{
    let Input {
        pads,
        mouse_x: _mouse_x,
        mouse_y: _mouse_y,
        buttons: _buttons,
        reset: _,
    } = *input;
    bytes_are_in_range(pads.as_slice());
}

/// All inputs' fields have the ranges of their types.
pub fn inputs_are_in_range(inputs: &[Input])
    ensures { AllByRecursion IsInput inputs.now }
{
    for input in inputs {
        input_is_in_range(input);
    }
}
