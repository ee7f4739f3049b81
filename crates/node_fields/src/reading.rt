//! Frames, locations and exits that texts spell.

ghost use Rattle.std.specs.Prelude.{◌≡◌, ◌≤◌, option_map};
ghost use Rattle.node_fields.specs.Decimals as decimals;
ghost use Rattle.node_fields.specs.Nodes as fields;

use call_context::{Calls, Frame, Node};
use text_fields::{behind, cut, number};

/// How many sites a location has at most.
const MOST_SITES: usize = 8;

/// The number below 100 of a text.
fn read_decimal(text: &[u8]) -> Option<u8>
    ensures { result ≡ decimals.decimal_of text.now }
{
    match text {
        [digit] if b'0' <= *digit && *digit <= b'9' => Some(*digit - b'0'),
        [first, second] if b'0' < *first && *first <= b'9' && b'0' <= *second && *second <= b'9' =>
            { Some((*first - b'0') * 10 + (*second - b'0')) }
        _ => None,
    }
}

/// A level of an interrupt: one decimal digit.
fn read_level(text: &[u8]) -> Option<u8>
    ensures { result ≡ fields.level_field.value text.now }
{
    let level = read_decimal(text)?;
    if level < 10 { Some(level) } else { None }
}

/// A stack pointer, or a dash for none.
fn read_sp(text: &[u8], digits: u8) -> Option<Option<u16>>
    requires { digits ≤ 4 }
    ensures { result ≡ (fields.sp_field digits).value text.now }
{
    if text == b"-".as_slice() {
        return Some(None);
    }
    Some(Some(number(text, digits)?))
}

/// The stack pointer and the level of an interrupt's entry.
fn read_entry(text: &[u8], digits: u8) -> Option<(Option<u16>, u8)>
    requires { digits ≤ 4 }
    ensures { result ≡ (fields.entry_field digits).value text.now }
{
    let (sp, level) = cut(text, b'.')?;
    Some((read_sp(sp, digits)?, read_level(level)?))
}

/// The vector of an interrupt, and its entry.
fn read_vector(text: &[u8], digits: u8) -> Option<(u8, (Option<u16>, u8))>
    requires { digits ≤ 4 }
    ensures { result ≡ (fields.vector_field digits).value text.now }
{
    let (vector, entry) = cut(text, b'@')?;
    Some((read_decimal(vector)?, read_entry(entry, digits)?))
}

/// A frame.
fn read_frame(text: &[u8], digits: u8) -> Option<Frame>
    requires { digits ≤ 4 }
    ensures { result ≡ (fields.frame_field digits).value text.now }
{
    if text == b"base".as_slice() {
        return Some(Frame::Base);
    }
    let parts = behind(b"irq".as_slice(), text)?;
    let (vector, (sp, level)) = read_vector(parts, digits)?;
    Some(Frame::Irq { vector, sp, level })
}

/// Sites with commas, at least one.
fn read_sites(text: &[u8]) -> Option<Calls>
    ensures { result ≡ fields.some_calls text.now }
{
    let mut sites = Calls::new();
    let mut rest = text;
    while let Some((first, behind)) = cut(rest, b',') {
        let Some(site) = number(first, 4) else {
            return None;
        };
        if sites.len() == MOST_SITES {
            return None;
        }
        sites.push(site);
        rest = behind;
    }
    let Some(site) = number(rest, 4) else {
        return None;
    };
    if sites.len() == MOST_SITES {
        return None;
    }
    sites.push(site);
    Some(sites)
}

/// The sites of a location.
fn read_calls(text: &[u8]) -> Option<Calls>
    ensures { result ≡ fields.calls_field.value text.now }
{
    if text == b"".as_slice() {
        return Some(Calls::new());
    }
    read_sites(text)
}

/// The sites and the frame of a location.
fn read_context(text: &[u8], digits: u8) -> Option<(Calls, Frame)>
    requires { digits ≤ 4 }
    ensures { result ≡ (fields.context_field digits).value text.now }
{
    let (calls, frame) = cut(text, b':')?;
    let Some(calls) = read_calls(calls) else {
        return None;
    };
    Some((calls, read_frame(frame, digits)?))
}

/// The location that a text spells, without its letter. A stack pointer has at most four digits.
pub fn read_location(text: &[u8], digits: u8) -> Option<Node>
    requires { digits ≤ 4 }
    ensures { result ≡ fields.location_in digits text.now }
{
    let (pc, context) = cut(text, b':')?;
    let pc = number(pc, 4)?;
    let Some((calls, frame)) = read_context(context, digits) else {
        return None;
    };
    Some(Node::At(pc, calls, frame))
}

/// The exit that a text spells, without its letter. A stack pointer has at most four digits.
pub fn read_exit(text: &[u8], digits: u8) -> Option<Node>
    requires { digits ≤ 4 }
    ensures { result ≡ fields.exit_in digits text.now }
{
    let (pc, frame) = cut(text, b':')?;
    Some(Node::Exit(number(pc, 4)?, read_frame(frame, digits)?))
}

/// The node in front of the first space of a text, and the text behind it.
fn split_location(row: &[u8], digits: u8) -> Option<(Node, &[u8])>
    requires { digits ≤ 4 }
    ensures { option_map (λ x. (x.0, x.1.now)) result
        ≡ fields.split_in (fields.location_in digits) row.now }
{
    let (node, text) = cut(row, b' ')?;
    let Some(node) = read_location(node, digits) else {
        return None;
    };
    Some((node, text))
}

/// The same of an exit.
fn split_exit(row: &[u8], digits: u8) -> Option<(Node, &[u8])>
    requires { digits ≤ 4 }
    ensures { option_map (λ x. (x.0, x.1.now)) result
        ≡ fields.split_in (fields.exit_in digits) row.now }
{
    let (node, text) = cut(row, b' ')?;
    let Some(node) = read_exit(node, digits) else {
        return None;
    };
    Some((node, text))
}

/// The node of a row, and the text behind it and its space. A stack pointer has at most four digits.
pub fn split_row(row: &[u8], digits: u8) -> Option<(Node, &[u8])>
    requires { digits ≤ 4 }
    ensures { option_map (λ x. (x.0, x.1.now)) result ≡ fields.split_row digits row.now }
{
    match behind(b"N ".as_slice(), row) {
        Some(rest) => split_location(rest, digits),
        None => split_exit(behind(b"X ".as_slice(), row)?, digits),
    }
}
