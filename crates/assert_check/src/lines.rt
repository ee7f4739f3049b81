//! The text of assertions.

ghost use Rattle.std.specs.Prelude.{◌≡◌, ◌∷◌, ◌≤◌, ◌<◌, ◌^◌, ◌+◌, ℕ, List, Ok, IfOk, IfErr, OnOk, length};
ghost use Rattle.assert_check.specs.Lines.{Tells, TellsLine, assertions_behind, assertions_of, with_front};

use crate::assertion::Assertion;
use crate::parsing::assertion_of;
use chip_numbers::Space;
use std::alloc::Global;
use text_fields::cut;
use text_lines::without_return;
use thiserror::Error;

/// The longest text of assertions, in bytes.
pub const MOST_BYTES: usize = 268_435_456;

/// Why a text gives no assertions.
#[derive(Clone, Copy, Debug, PartialEq, Eq, Error)]
pub enum AssertError {
    /// The first line that is neither blank nor an assertion, counted from 1.
    #[error("line {line}: Syntax")]
    Syntax { line: u32 },
    #[error("out of memory")]
    Memory,
}

/// Takes the next line behind so many lines, and adds its assertion, if it has one.
fn push_line(
    list: &mut Vec<(u32, Assertion)>,
    spaces: &[Space],
    count: u32,
    line: &[u8],
) -> Result<(), AssertError>
    requires { count < 2 ^ 31 }
    ensures ok { OnOk result ((lines : List (List ℕ))
        → with_front list.old.items (assertions_behind spaces.now count (line.now ∷ lines))
        ≡ with_front list.new.items (assertions_behind spaces.now (count + 1) lines)) }
    ensures bad { IfErr result (TellsLine spaces.now count line.now) }
{
    if line.is_empty() {
        return Ok(());
    }
    match assertion_of(spaces, line) {
        Some(assertion) => match list.push((count + 1, assertion)) {
            Ok(()) => Ok(()),
            Err(_) => Err(AssertError::Memory),
        },
        None => Err(AssertError::Syntax { line: count + 1 }),
    }
}

/// The assertions of a text, each with the number of its line, or its first line that is none. Blank lines are passed over,
/// and one carriage return at the end of a line is none of it.
pub fn read_lines(
    alloc: Global,
    text: &[u8],
    spaces: &[Space],
) -> Result<Vec<(u32, Assertion)>, AssertError>
    requires { length text.now ≤ MOST_BYTES }
    ensures list { IfOk result (λ list. assertions_of spaces.now text.now ≡ Ok list.items) }
    ensures refused { IfErr result (Tells spaces.now text.now) }
{
    let mut list = Vec::new(alloc);
    let mut rest = text;
    let mut count = 0;
    while let Some((line, behind)) = cut(rest, b'\n') {
        push_line(&mut list, spaces, count, without_return(line))?;
        count += 1;
        rest = behind;
    }
    push_line(&mut list, spaces, count, without_return(rest))?;
    Ok(list)
}
