//! Image texts.

ghost use Rattle.std.specs.Prelude.{◌≡◌, ◌≤◌, length};
ghost use Rattle.image.specs.Kept.{IsRamRange};

use crate::numbers::halves;
use ihex_read::{HexError, MOST_BYTES, Reader, Tail};
use image::{Image, RamRange, Rules};
use no_memory::Memory;
use std::alloc::{AllocError, Global};

/// More bytes than the pieces of a row have.
const ROOM: usize = 1000;

/// The rules of a chip.
fn rules_of(chip: &str) -> Rules
    ensures { IsRamRange result }
{
    match chip {
        "mcs51" => Rules::Mcs51,
        "mirrored" => Rules::Msp430(RamRange {
            lo: 0x1100,
            hi: 0x38FF,
            mirror: Some((0x0200, 0x09FF)),
        }),
        _ => Rules::Msp430(RamRange {
            lo: 0x0200,
            hi: 0x09FF,
            mirror: None,
        }),
    }
}

/// What a reader says at the end, or the fault of what it was fed.
fn ended(reader: Reader, fed: Result<(), HexError>) -> Result<Image, HexError> {
    match fed {
        Ok(()) => reader.end(),
        Err(error) => {
            drop(reader);
            Err(error)
        }
    }
}

/// Feeds a reader a text byte by byte.
fn feed_bytes(reader: &mut Reader, text: &[u8]) -> Result<(), HexError>
    requires front { length reader.old.text ≡ 0 }
    requires room { length text.now ≤ MOST_BYTES }
{
    for byte in text {
        reader.feed(&[*byte])?;
    }
    Ok(())
}

/// What a reader answers of a text in one piece.
fn in_one(alloc: Global, text: &[u8], rules: Rules) -> Result<Result<Image, HexError>, Memory>
    requires range { IsRamRange rules }
    requires room { length text.now ≤ MOST_BYTES }
{
    let mut reader = Reader::new(alloc, rules, Tail::Blank)?;
    let fed = reader.feed(text).and(Ok(()));
    Ok(ended(reader, fed))
}

/// What it answers of the text byte by byte.
fn by_bytes(alloc: Global, text: &[u8], rules: Rules) -> Result<Result<Image, HexError>, Memory>
    requires range { IsRamRange rules }
    requires room { length text.now ≤ MOST_BYTES }
{
    let mut reader = Reader::new(alloc, rules, Tail::Blank)?;
    let fed = feed_bytes(&mut reader, text);
    Ok(ended(reader, fed))
}

/// Adds the fault of a text, or that it is an image.
fn push_fault(out: &mut String, fault: Option<HexError>) -> Result<(), AllocError> {
    match fault {
        Some(fault) => write!(out, "{fault}"),
        None => out.push_str("image"),
    }
}

/// The fault that a reader told.
fn fault_of(answer: &Result<Image, HexError>) -> Option<HexError> {
    match answer {
        Ok(_) => None,
        Err(fault) => Some(*fault),
    }
}

/// Adds what a text in one piece is and byte by byte, if it is the same, and keeps the image.
pub fn push_image(
    alloc: Global,
    out: &mut String,
    image: &mut Option<Image>,
    asked: &str,
) -> Result<(), Memory> {
    let (chip, text) = halves(asked);
    let text = text.as_bytes();
    if text.len() > MOST_BYTES {
        return Ok(());
    }
    let other = by_bytes(alloc, text, rules_of(chip))?.err();
    let answer = in_one(alloc, text, rules_of(chip))?;
    let fault = fault_of(&answer);
    *image = answer.ok();
    if fault == other {
        push_fault(out, fault)?;
    }
    Ok(())
}

/// The same of a text in front of the record of the reset vector and the end record.
pub fn push_front(
    alloc: Global,
    out: &mut String,
    image: &mut Option<Image>,
    asked: &str,
) -> Result<(), Memory> {
    let text = format!(in alloc; "{asked}\n:02FFFE0000F011\n:00000001FF\n")?;
    push_image(alloc, out, image, text.as_str())
}

/// Adds what a reader says of a piece, and whether the image has ended.
fn push_answer(
    out: &mut String,
    answer: Result<usize, HexError>,
    ended: bool,
) -> Result<(), AllocError> {
    match answer {
        Ok(count) => write!(out, "{count} {ended}, "),
        Err(error) => write!(out, "{error} {ended}, "),
    }
}

/// Adds what a reader says of each piece, up to one that it hasn't room for, and whether the image has ended.
fn push_fed(out: &mut String, reader: &mut Reader, pieces: &str) -> Result<(), AllocError>
    requires { length reader.old.text ≡ 0 }
{
    let mut room = ROOM;
    for piece in pieces.split('|') {
        if room < piece.len() {
            break;
        }
        room -= piece.len();
        let answer = reader.feed(piece.as_bytes());
        push_answer(out, answer, reader.ended())?;
    }
    Ok(())
}

/// Adds what a reader says of each piece and whether the image has ended, and then of the end, and keeps the image.
pub fn push_pieces(
    alloc: Global,
    out: &mut String,
    image: &mut Option<Image>,
    asked: &str,
) -> Result<(), Memory> {
    let (tail, pieces) = halves(asked);
    let tail = if tail == "second" {
        Tail::Second
    } else {
        Tail::Blank
    };
    let mut reader = Reader::new(alloc, rules_of("msp430"), tail)?;
    let pushed = push_fed(out, &mut reader, pieces);
    let answer = reader.end();
    let fault = fault_of(&answer);
    *image = answer.ok();
    pushed?;
    Ok(push_fault(out, fault)?)
}
