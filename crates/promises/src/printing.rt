//! The lines of promises.

ghost use Rattle.std.specs.Prelude.{◌≡◌, ◌++◌, OnOk, codes};
ghost use Rattle.hex_digits.specs.Digits.{hex};
ghost use Rattle.promises.specs.Sentences.{addresses_text, promise_line, sentence, windows_text};

use crate::fields::{AddressField, WindowField};
use crate::promise::{Promise, Window};
use crate::spoken::Growth;
use hex_digits::hex_word;
use std::alloc::AllocError;
use text_fields::push_list;

/// Adds windows with commas between them.
fn push_windows(windows: &[Window], out: &mut Vec<u8>) -> Result<(), AllocError>
    ensures { OnOk result (out.new.items ≡ out.old.items ++ windows_text windows.now) }
{
    // the text of a window is the same on both chips
    let growth = Growth::Down;
    push_list(&WindowField { growth }, b',', windows, out)
}

/// Adds addresses with commas between them.
fn push_addresses(addresses: &[u16], out: &mut Vec<u8>) -> Result<(), AllocError>
    ensures { OnOk result (out.new.items ≡ out.old.items ++ addresses_text addresses.now) }
{
    push_list(&AddressField, b',', addresses, out)
}

/// Adds a word, a site and a space.
fn push_site(word: &[u8], pc: u16, out: &mut Vec<u8>) -> Result<(), AllocError>
    ensures { OnOk result (out.new.items ≡ out.old.items ++ word.now ++ hex 4 pc ++ codes " ") }
{
    out.extend_from_slice(word)?;
    out.extend_from_slice(&hex_word(pc))?;
    out.extend_from_slice(b" ")
}

/// Adds a promise as a text says it.
fn push_sentence(promise: &Promise, out: &mut Vec<u8>) -> Result<(), AllocError>
    ensures { OnOk result (out.new.items ≡ out.old.items ++ sentence promise.now) }
{
    match promise {
        Promise::Write { pc, windows } => {
            push_site(b"write ", *pc, out)?;
            push_windows(windows.as_slice(), out)
        }
        Promise::All { windows } => {
            out.extend_from_slice(b"write * ")?;
            push_windows(windows.as_slice(), out)
        }
        Promise::Goes { pc, targets } => {
            push_site(b"targets ", *pc, out)?;
            push_addresses(targets.as_slice(), out)
        }
    }
}

/// Adds the line of a report that says a promise, without its line feed.
pub fn push_promise(promise: &Promise, out: &mut Vec<u8>) -> Result<(), AllocError>
    ensures { OnOk result (out.new.items ≡ out.old.items ++ promise_line promise.now) }
{
    out.extend_from_slice(b"P ")?;
    push_sentence(promise, out)
}
