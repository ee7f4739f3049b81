//! The texts of numbers.

ghost use Rattle.std.specs.Prelude.{◌≡◌, ◌<◌, ◌++◌, OnOk};
ghost use Rattle.hex_digits.specs.Digits.{hex, hex_digit};

use std::alloc::AllocError;

/// The character of a digit below 16.
fn digit(value: u8) -> u8
    requires { value < 16 }
    ensures { result ≡ hex_digit value }
{
    if value < 10 {
        b'0' + value
    } else {
        b'A' - 10 + value
    }
}

/// Adds the last digits of a number, so many.
pub fn push_number(out: &mut Vec<u8>, number: u16, digits: u8) -> Result<(), AllocError>
    ensures { OnOk result (out.new.items ≡ out.old.items ++ hex digits number) }
{
    if digits == 0 {
        return Ok(());
    }
    push_number(out, number / 16, digits - 1)?;
    out.push(digit((number % 16) as u8))?;
    Ok(())
}
