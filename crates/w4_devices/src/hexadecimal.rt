//! Lower-case hexadecimal.

ghost use Rattle.std.specs.Prelude.{◌≡◌, ◌++◌, ◌<◌, false};
ghost use Rattle.std.specs.Fmt.{digits};
ghost use Rattle.w4_defs.specs.FrameTexts.{hex_digit};
ghost use Rattle.w4_defs.specs.Traces.{line_of};

use crate::line::Line;

/// Adds a number in hexadecimal, without leading zeros.
pub fn add_hexadecimal(line: &mut Line, number: u32)
    ensures { line.new ≡ line_of (line.old ++ digits 16 false number) }
{
    if number < 16 {
        line.add(hex_digit(number as u8));
        return;
    }
    add_hexadecimal(line, number / 16);
    line.add(hex_digit((number % 16) as u8));
}

/// The digit of a number below 16.
pub fn hex_digit(number: u8) -> u8
    requires { number < 16 }
    ensures { result ≡ hex_digit number }
{
    if number < 10 {
        b'0' + number
    } else {
        b'a' - 10 + number
    }
}
