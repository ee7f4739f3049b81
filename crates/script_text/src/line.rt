//! Lines of a script.

ghost use Rattle.std.specs.Prelude.{◌≡◌, ◌<◌, ◌^◌, ◌∷◌, suc, ℕ, List, length, IfErr, OnOk, OnErr, IsTrue};
ghost use Rattle.std.specs.List.{list_all};
ghost use Rattle.script_text.specs.declared.fault.ScriptError.{ScriptError};
ghost use Rattle.script_text.specs.Script as script;
ghost use Rattle.script_text.specs.Reading.{TellsLine};

use crate::fault::ScriptError;

fn is_digit(byte: u8) -> bool
    ensures { result ≡ script.is_digit byte }
{
    (b'0' <= byte && byte <= b'9')
        || (b'A' <= byte && byte <= b'F')
        || (b'a' <= byte && byte <= b'f')
}

/// The value of a digit.
fn digit_value(byte: u8) -> u16
    requires { IsTrue (script.is_digit byte) }
    ensures value { result ≡ script.digit_value byte }
    ensures below { result < 16 }
{
    if byte <= b'9' {
        (byte - b'0') as u16
    } else if byte <= b'F' {
        10 + (byte - b'A') as u16
    } else {
        10 + (byte - b'a') as u16
    }
}

fn are_digits(line: &[u8]) -> bool
    ensures { result ≡ list_all script.is_digit line.now }
{
    line.iter().all(|byte| is_digit(*byte))
}

fn is_number(line: &[u8]) -> bool
    ensures { result ≡ script.is_number line.now }
{
    !line.is_empty() && line.len() <= 4 && are_digits(line)
}

/// The number of a line.
fn number_of(line: &[u8]) -> u16
    requires { IsTrue (script.is_number line.now) }
    ensures { result ≡ script.number_of line.now }
{
    let mut number = 0;
    for (i, byte) in line.iter().enumerate() {
        number = number * 16 + digit_value(*byte);
    }
    number
}

/// Takes the next line behind so many lines, and adds its number, if it has one.
pub fn push_line(numbers: &mut Vec<u16>, count: u32, line: &[u8]) -> Result<(), ScriptError>
    requires { count < 2 ^ 31 }
    ensures ok { OnOk result ((lines : List (List ℕ)) → script.numbers_behind count numbers.old.items (line.now ∷ lines)
        ≡ script.numbers_behind (suc count) numbers.new.items lines) }
    ensures bad { IfErr result (TellsLine count numbers.old.items line.now) }
    ensures stays { OnErr result (numbers.new.items ≡ numbers.old.items) }
{
    if line.is_empty() {
        return Ok(());
    }
    if !is_number(line) {
        return Err(ScriptError::Syntax { line: count + 1 });
    }
    numbers.push(number_of(line))?;
    Ok(())
}
