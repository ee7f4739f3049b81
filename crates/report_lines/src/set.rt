//! Sets of numbers as reports write them.

ghost use Rattle.std.specs.Prelude.{◌≡◌, IfSome};

use crate::digits::{count, cut};
use hex_digits::{byte, word};

/// How many digits the numbers of a set have.
#[derive(Clone, Copy, PartialEq, Eq)]
pub enum Width {
    /// Two digits.
    Byte,
    /// Four digits.
    Word,
}

/// How a set is written.
#[derive(Clone, Copy, PartialEq, Eq)]
pub enum Form {
    /// Every number.
    Every,
    /// Numbers with commas between them.
    List,
    /// From a number on, in equal steps.
    Run { base: u16, stride: u16, count: u32 },
}

/// A set, with the text that it is written by.
#[derive(Clone, Copy, PartialEq, Eq)]
pub struct Set<'a> {
    pub text: &'a [u8],
    pub form: Form,
    /// None where every number is in the set, since then no number is written.
    pub width: Option<Width>,
    pub least: u16,
    pub greatest: u16,
}

impl<'a> Set<'a> {
    /// The set of a text.
    pub fn read(text: &'a [u8]) -> Option<Set<'a>>
        ensures { IfSome result (λ set. set.text.now ≡ text.now) }
    {
        if text == b"*".as_slice() {
            return Some(Set {
                text,
                form: Form::Every,
                width: None,
                least: 0,
                greatest: 0xFFFF,
            });
        }
        match cut(text, b'/') {
            Some((base, rest)) => run(text, base, rest),
            None => list(text),
        }
    }

    /// Whether a set of stack pointers says nothing of them.
    pub fn is_whole(&self) -> bool {
        self.text == b"*".as_slice() || self.text == b"0000/2/8000".as_slice()
    }
}

/// One number, with its width.
pub(crate) fn number(text: &[u8]) -> Option<(u16, Width)> {
    match byte(text) {
        Some(value) => Some((value, Width::Byte)),
        None => Some((word(text)?, Width::Word)),
    }
}

/// The set of ascending numbers with commas between them.
fn list(text: &[u8]) -> Option<Set<'_>>
    ensures { IfSome result (λ set. set.text.now ≡ text.now) }
{
    let first = match cut(text, b',') {
        Some((first, _)) => first,
        None => text,
    };
    let (least, width) = number(first)?;
    let mut greatest = least;
    let mut is_first = true;
    for part in text.split(|byte| *byte == b',') {
        let (value, own) = number(part)?;
        if own != width || (!is_first && value <= greatest) {
            return None;
        }
        greatest = value;
        is_first = false;
    }
    Some(Set {
        text,
        form: Form::List,
        width: Some(width),
        least,
        greatest,
    })
}

/// The set of a base, a stride and a count.
fn run<'a>(text: &'a [u8], base: &[u8], rest: &[u8]) -> Option<Set<'a>>
    ensures { IfSome result (λ set. set.text.now ≡ text.now) }
{
    if let Some((stride, many)) = cut(rest, b'/')
        && let Some((base, width)) = number(base)
        && let Some(stride) = count(stride)
        && let Ok(stride) = u16::try_from(stride)
        && let Some(count) = count(many)
        && let Some((least, greatest)) = extremes(base, stride, count, width)
    {
        Some(Set {
            text,
            form: Form::Run {
                base,
                stride,
                count,
            },
            width: Some(width),
            least,
            greatest,
        })
    } else {
        None
    }
}

/// The least and the greatest number of a run, which may pass the greatest number of its width and go on at the least.
fn extremes(base: u16, stride: u16, count: u32, width: Width) -> Option<(u16, u16)> {
    let end = match width {
        Width::Byte => 0x100u64,
        Width::Word => 0x10000,
    };
    let (base, stride) = (u64::from(base), u64::from(stride));
    if stride == 0 || count == 0 {
        return None;
    }
    let reach = stride.wrapping_mul(u64::from(count).wrapping_sub(1));
    if reach >= end {
        return None;
    }
    let last = base.wrapping_add(reach);
    let (least, greatest) = if last < end {
        (base, last)
    } else {
        // The last number in front of the turn, and the first behind it.
        let steps = end.wrapping_sub(1).wrapping_sub(base) / stride;
        let greatest = base.wrapping_add(steps.wrapping_mul(stride));
        (greatest.wrapping_add(stride).wrapping_sub(end), greatest)
    };
    Some((u16::try_from(least).ok()?, u16::try_from(greatest).ok()?))
}
