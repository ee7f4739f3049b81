//! Addresses and windows as fields of a line.

ghost use Rattle.std.specs.Prelude.{◌≡◌, ◌≤◌, ◌++◌, OnOk, IfOk, IfSome, length};
ghost use Rattle.std.specs.Option.{option_map, option_and_then};
ghost use Rattle.hex_digits.specs.EitherCase as words;
ghost use Rattle.promises.specs.Sentences as sentences;

use crate::promise::{Window, Windows};
use crate::spoken::Growth;
use hex_digits::{hex_word, word_in_either_case};
use std::alloc::{AllocError, Global};
use text_fields::{Field, cut, read_list};

/// The window from an address up to the stack.
fn below_stack(growth: Growth, lo: &[u8]) -> Option<Window>
    ensures { result ≡ sentences.below_stack growth (words.word_in_either_case lo.now) }
{
    match growth {
        Growth::Down => Some(Window::BelowStack {
            lo: word_in_either_case(lo)?,
        }),
        Growth::Up => None,
    }
}

/// The window from behind the stack up to an address.
fn above_stack(growth: Growth, hi: &[u8]) -> Option<Window>
    ensures { result ≡ sentences.above_stack growth (words.word_in_either_case hi.now) }
{
    match growth {
        Growth::Down => None,
        Growth::Up => {
            let hi = word_in_either_case(hi)?;
            if hi <= 0xFF {
                Some(Window::AboveStack { hi })
            } else {
                None
            }
        }
    }
}

/// The window between two addresses.
fn between(first: &[u8], last: &[u8]) -> Option<Window>
    ensures { result ≡ sentences.between (words.word_in_either_case first.now) (words.word_in_either_case last.now) }
{
    let (lo, hi) = (word_in_either_case(first)?, word_in_either_case(last)?);
    if lo <= hi {
        Some(Window::Between { lo, hi })
    } else {
        None
    }
}

/// The window of a text.
fn window_of(growth: Growth, text: &[u8]) -> Option<Window>
    ensures { result ≡ sentences.window_of growth text.now }
{
    let (first, last) = cut(text, b'-')?;
    if last == b"SP".as_slice() {
        return below_stack(growth, first);
    }
    if first == b"SP".as_slice() {
        return above_stack(growth, last);
    }
    between(first, last)
}

/// Adds the text of a window.
fn push_window(window: Window, out: &mut Vec<u8>) -> Result<(), AllocError>
    ensures { OnOk result (out.new.items ≡ out.old.items ++ sentences.window_text window) }
{
    match window {
        Window::Between { lo, hi } => {
            out.extend_from_slice(&hex_word(lo))?;
            out.push(b'-')?;
            out.extend_from_slice(&hex_word(hi))
        }
        Window::BelowStack { lo } => {
            out.extend_from_slice(&hex_word(lo))?;
            out.extend_from_slice(b"-SP")
        }
        Window::AboveStack { hi } => {
            out.extend_from_slice(b"SP-")?;
            out.extend_from_slice(&hex_word(hi))
        }
    }
}

/// An address of four digits, which are read in either case.
#[derive(Clone, Copy)]
pub struct AddressField;

impl Field for AddressField {
    ghost use Rattle.promises.specs.Sentences.{address};

    type Value = u16;

    ghost field = { λ _. address };

    fn read(&self, text: &[u8]) -> Option<u16> {
        word_in_either_case(text)
    }

    fn push(&self, value: &u16, out: &mut Vec<u8>) -> Result<(), AllocError> {
        out.extend_from_slice(&hex_word(*value))
    }
}

/// A window of a chip.
#[derive(Clone, Copy)]
pub struct WindowField {
    pub growth: Growth,
}

impl Field for WindowField {
    ghost use Rattle.promises.specs.Sentences.{window};

    type Value = Window;

    ghost field = { λ f. window f.growth };

    fn read(&self, text: &[u8]) -> Option<Window> {
        window_of(self.growth, text)
    }

    fn push(&self, value: &Window, out: &mut Vec<u8>) -> Result<(), AllocError> {
        push_window(*value, out)
    }
}

/// The windows of a text, with commas between them.
pub fn windows_of(alloc: Global, growth: Growth, text: &[u8]) -> Result<Option<Windows>, AllocError>
    ensures { IfOk result (λ found. found ≡ sentences.windows_of growth text.now) }
{
    let Some(list) = read_list(alloc, &WindowField { growth }, b',', text)? else {
        return Ok(None);
    };
    if list.len() > 4 {
        return Ok(None);
    }
    Ok(Some(Windows::from_slice(list.as_slice())))
}

/// The addresses of a text, with commas between them.
pub fn addresses_of(alloc: Global, text: &[u8]) -> Result<Option<Vec<u16>>, AllocError>
    ensures value { IfOk result (λ found. option_map (λ list. list.items) found ≡ sentences.addresses_of text.now) }
    ensures most { IfOk result (λ found. IfSome found (λ list. length list.items ≤ 256)) }
{
    let Some(list) = read_list(alloc, &AddressField, b',', text)? else {
        return Ok(None);
    };
    if list.len() > 256 {
        return Ok(None);
    }
    Ok(Some(list))
}
