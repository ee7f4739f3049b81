//! Scripts.

ghost use Rattle.std.specs.Prelude.{◌≡◌, ◌≤◌, length};

use crate::numbers::push_words;
use script_text::{MOST_BYTES, Reader, ScriptError};
use std::alloc::{AllocError, Global};

/// More bytes than the pieces of a row have.
const ROOM: usize = 1000;

/// Feeds a reader a text in two pieces.
fn feed_two(reader: &mut Reader, text: &[u8], cut: usize) -> Result<(), ScriptError>
    requires front { length reader.old.text ≡ 0 }
    requires room { length text.now ≤ MOST_BYTES }
    requires within { cut ≤ length text.now }
{
    reader.feed(&text[..cut])?;
    reader.feed(&text[cut..])
}

/// Feeds a reader a text byte by byte.
fn feed_bytes(reader: &mut Reader, text: &[u8]) -> Result<(), ScriptError>
    requires front { length reader.old.text ≡ 0 }
    requires room { length text.now ≤ MOST_BYTES }
{
    for byte in text {
        reader.feed(&[*byte])?;
    }
    Ok(())
}

/// Adds the numbers in digits that a reader gives at the end, or its fault.
fn push_end(out: &mut String, reader: Reader) -> Result<(), AllocError> {
    match reader.end() {
        Ok(numbers) => push_words(out, numbers.as_slice()),
        Err(error) => write!(out, "{error}"),
    }
}

/// The same, or the fault of what it was fed.
fn told(alloc: Global, reader: Reader, fed: Result<(), ScriptError>) -> Result<String, AllocError> {
    let mut text = String::new(alloc);
    match fed {
        Ok(()) => push_end(&mut text, reader)?,
        Err(error) => {
            drop(reader);
            write!(text, "{error}")?;
        }
    }
    Ok(text)
}

/// What a reader answers of a text byte by byte.
fn by_bytes(alloc: Global, text: &[u8]) -> Result<String, AllocError>
    requires room { length text.now ≤ MOST_BYTES }
{
    let mut reader = Reader::new(alloc);
    let fed = feed_bytes(&mut reader, text);
    told(alloc, reader, fed)
}

/// Whether it answers the same of the text in two pieces.
fn is_told(alloc: Global, text: &[u8], cut: usize, wanted: &str) -> Result<bool, AllocError>
    requires room { length text.now ≤ MOST_BYTES }
    requires within { cut ≤ length text.now }
{
    let mut reader = Reader::new(alloc);
    let fed = feed_two(&mut reader, text, cut);
    Ok(told(alloc, reader, fed)?.as_str() == wanted)
}

/// Whether it answers the same wherever the text is cut.
fn is_always_told(alloc: Global, text: &[u8], wanted: &str) -> Result<bool, AllocError>
    requires room { length text.now ≤ MOST_BYTES }
{
    for cut in 0..text.len() + 1 {
        if !is_told(alloc, text, cut, wanted)? {
            return Ok(false);
        }
    }
    Ok(true)
}

/// Adds what a reader answers of a text, if that is the same wherever the text is cut.
pub fn push_script(alloc: Global, out: &mut String, asked: &str) -> Result<(), AllocError> {
    let text = asked.as_bytes();
    if text.len() > MOST_BYTES {
        return Ok(());
    }
    let answer = by_bytes(alloc, text)?;
    if is_always_told(alloc, text, answer.as_str())? {
        out.push_str(answer.as_str())?;
    }
    Ok(())
}

/// Adds what a reader says of each piece, up to one that it hasn't room for.
fn push_fed(out: &mut String, reader: &mut Reader, pieces: &str) -> Result<(), AllocError>
    requires { length reader.old.text ≡ 0 }
{
    let mut room = ROOM;
    for piece in pieces.split('|') {
        if room < piece.len() {
            break;
        }
        room -= piece.len();
        match reader.feed(piece.as_bytes()) {
            Ok(()) => out.push_str("taken, ")?,
            Err(error) => write!(out, "{error}, ")?,
        }
    }
    Ok(())
}

/// Adds what a reader says of each piece, and at the end.
pub fn push_feeds(alloc: Global, out: &mut String, pieces: &str) -> Result<(), AllocError> {
    let mut reader = Reader::new(alloc);
    match push_fed(out, &mut reader, pieces) {
        Ok(()) => push_end(out, reader),
        Err(error) => {
            drop(reader);
            Err(error)
        }
    }
}
