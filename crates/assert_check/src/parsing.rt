//! The assertion of a line.

ghost use Rattle.std.specs.Prelude.{◌≡◌};
ghost use Rattle.std.specs.List.{Contains};
ghost use Rattle.assert_check.specs.Lines as lines;

use crate::assertion::Assertion;
use chip_numbers::Space;
use hex_digits::word_in_either_case;
use item_lines::space_name;
use text_fields::{behind, cut};

/// The range `LO-HI`.
fn range_of(text: &[u8]) -> Option<(u16, u16)>
    ensures { result ≡ lines.range_of text.now }
{
    let (first, last) = cut(text, b'-')?;
    let (lo, hi) = (word_in_either_case(first)?, word_in_either_case(last)?);
    if lo <= hi { Some((lo, hi)) } else { None }
}

/// The space of a name, if it is one of these.
fn space_of(spaces: &[Space], name: &[u8]) -> Option<Space>
    ensures { result ≡ lines.space_of spaces.now name.now }
{
    spaces
        .iter()
        .copied()
        .find(|space| space_name(*space) == name)
}

/// The space and the range of `SPACE LO-HI`.
fn place_of(spaces: &[Space], text: &[u8]) -> Option<(Space, (u16, u16))>
    ensures { result ≡ lines.place_of spaces.now text.now }
{
    let (name, range) = cut(text, b' ')?;
    Some((space_of(spaces, name)?, range_of(range)?))
}

fn no_exec(text: &[u8]) -> Option<Assertion>
    ensures { result ≡ lines.no_exec text.now }
{
    let (lo, hi) = range_of(text)?;
    Some(Assertion::NoExec { lo, hi })
}

fn no_read(spaces: &[Space], text: &[u8]) -> Option<Assertion>
    ensures { result ≡ lines.no_read spaces.now text.now }
{
    let (space, (lo, hi)) = place_of(spaces, text)?;
    Some(Assertion::NoRead { space, lo, hi })
}

fn no_write(spaces: &[Space], text: &[u8]) -> Option<Assertion>
    ensures { result ≡ lines.no_write spaces.now text.now }
{
    let (space, (lo, hi)) = place_of(spaces, text)?;
    Some(Assertion::NoWrite { space, lo, hi })
}

fn stack(text: &[u8]) -> Option<Assertion>
    ensures { result ≡ lines.stack text.now }
{
    let (pcs, sps) = cut(text, b' ')?;
    let (from, to) = range_of(pcs)?;
    let (lo, hi) = range_of(sps)?;
    Some(Assertion::Stack { from, to, lo, hi })
}

/// What a line asserts of a chip with these spaces.
pub fn assertion_of(spaces: &[Space], line: &[u8]) -> Option<Assertion>
    ensures { result ≡ lines.assertion_of spaces.now line.now }
{
    if let Some(rest) = behind(b"noexec ", line) {
        return no_exec(rest);
    }
    if let Some(rest) = behind(b"noread ", line) {
        return no_read(spaces, rest);
    }
    if let Some(rest) = behind(b"nowrite ", line) {
        return no_write(spaces, rest);
    }
    if let Some(rest) = behind(b"stack ", line) {
        return stack(rest);
    }
    None
}
