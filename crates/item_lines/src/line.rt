//! The lines of a report, one for each item.

ghost use Rattle.std.specs.Prelude.{◌≡◌, ◌++◌, ◌∷◌, codes, IfOk, OnOk, OnErr};
ghost use Rattle.hex_digits.specs.Digits.{hex, short_hex, hex_bytes};
ghost use Rattle.item_lines.specs.Line.{word_set_text, byte_set_text, set_text, item_line_of, space_text, kind_text, comma_list};

use crate::instr_text::InstrText;
use call_context::{Item, Set, Space};
use hex_digits::{hex_byte, hex_word, push_short_hex};
use no_memory::Memory;
use std::alloc::{AllocError, Global};
use value_set::{Form, Progression, Vs8, Vs16};

/// Adds words with commas between them.
fn push_words(line: &mut Vec<u8>, words: &[u16]) -> Result<(), AllocError>
    ensures { OnOk result (line.new.items ≡ line.old.items ++ comma_list 4 words.now) }
{
    let [first, rest @ ..] = words else {
        return Ok(());
    };
    line.extend_from_slice(&hex_word(*first))?;
    for word in rest {
        line.push(b',')?;
        line.extend_from_slice(&hex_word(*word))?;
    }
    Ok(())
}

/// Adds the low bytes of numbers with commas between them.
fn push_bytes(line: &mut Vec<u8>, values: &[u16]) -> Result<(), AllocError>
    ensures { OnOk result (line.new.items ≡ line.old.items ++ comma_list 2 values.now) }
{
    let [first, rest @ ..] = values else {
        return Ok(());
    };
    line.extend_from_slice(&hex_byte((*first % 256) as u8))?;
    for value in rest {
        line.push(b',')?;
        line.extend_from_slice(&hex_byte((*value % 256) as u8))?;
    }
    Ok(())
}

/// Adds the stride and the count of a run.
fn push_steps(line: &mut Vec<u8>, run: &Progression) -> Result<(), AllocError>
    ensures { OnOk result (line.new.items ≡ line.old.items ++ codes "/" ++ short_hex run.now.stride ++ codes "/" ++ short_hex run.now.count) }
{
    line.push(b'/')?;
    push_short_hex(line, run.stride as u32)?;
    line.push(b'/')?;
    push_short_hex(line, run.count)
}

/// Adds the text of a set of words.
pub fn push_word_set(line: &mut Vec<u8>, values: &Vs16) -> Result<(), AllocError>
    ensures { OnOk result (line.new.items ≡ line.old.items ++ word_set_text values.now) }
{
    match values.form() {
        Form::Values(few) => push_words(line, few.as_slice()),
        Form::Run(run) => {
            if run.count == 65536 {
                return line.extend_from_slice(b"*");
            }
            line.extend_from_slice(&hex_word(run.base))?;
            push_steps(line, &run)
        }
    }
}

/// Adds the text of a set of bytes.
fn push_byte_set(line: &mut Vec<u8>, values: &Vs8) -> Result<(), AllocError>
    ensures { OnOk result (line.new.items ≡ line.old.items ++ byte_set_text values.now) }
{
    match values.form() {
        Form::Values(few) => push_bytes(line, few.as_slice()),
        Form::Run(run) => {
            if run.count == 256 {
                return line.extend_from_slice(b"*");
            }
            line.extend_from_slice(&hex_byte((run.base % 256) as u8))?;
            push_steps(line, &run)
        }
    }
}

/// Adds the text of a set.
pub fn push_set(line: &mut Vec<u8>, values: &Set) -> Result<(), AllocError>
    ensures { OnOk result (line.new.items ≡ line.old.items ++ set_text values.now) }
{
    match values {
        Set::W(words) => push_word_set(line, words),
        Set::B(bytes) => push_byte_set(line, bytes),
    }
}

/// The name of a space of addresses.
pub fn space_name(space: Space) -> &'static [u8]
    ensures { result.now ≡ space_text space }
{
    match space {
        Space::Mem => b"mem",
        Space::Ram => b"ram",
        Space::Sfr => b"sfr",
        Space::Xram => b"xram",
        Space::Code => b"code",
    }
}

/// A letter, a space and an address, as each line begins.
pub fn line_at(alloc: Global, letter: u8, pc: u16) -> Result<Vec<u8>, AllocError>
    ensures { IfOk result (λ line. line.items ≡ letter ∷ 32 ∷ hex 4 pc) }
{
    let mut line = Vec::new(alloc);
    line.push(letter)?;
    line.push(b' ')?;
    line.extend_from_slice(&hex_word(pc))?;
    Ok(line)
}

fn instr_line<C: InstrText>(
    alloc: Global,
    chip: &C,
    pc: u16,
    bytes: &[u8],
) -> Result<Vec<u8>, AllocError>
    ensures { IfOk result (λ line. line.items ≡ codes "I " ++ hex 4 pc ++ codes " " ++ hex_bytes bytes.now ++ codes " " ++ C.text_of chip.now pc bytes.now) }
{
    let mut line = line_at(alloc, b'I', pc)?;
    line.push(b' ')?;
    for byte in bytes {
        line.extend_from_slice(&hex_byte(*byte))?;
    }
    line.push(b' ')?;
    let text = chip.instr_text(pc, bytes);
    line.extend_from_slice(text.as_str().as_bytes())?;
    Ok(line)
}

/// The line of an item, without its line feed.
pub fn item_line<C: InstrText>(alloc: Global, chip: &C, item: &Item) -> Result<Vec<u8>, Memory>
    ensures { IfOk result (λ line. line.items ≡ item_line_of (C.text_of chip.now) item.now) }
{
    match item {
        Item::Instr { pc, bytes } => Ok(instr_line(alloc, chip, *pc, bytes.as_slice())?),
        Item::Edge { from, to } => {
            let mut line = line_at(alloc, b'E', *from)?;
            line.push(b' ')?;
            line.extend_from_slice(&hex_word(*to))?;
            Ok(line)
        }
        Item::Access {
            pc,
            space,
            write,
            size,
            at,
        } => {
            let mut line = line_at(alloc, b'M', *pc)?;
            line.push(b' ')?;
            line.extend_from_slice(space_name(*space))?;
            line.push(b' ')?;
            line.push(if *write { b'w' } else { b'r' })?;
            line.push(if *size == 1 { b'1' } else { b'2' })?;
            line.push(b' ')?;
            push_set(&mut line, at)?;
            Ok(line)
        }
        Item::Stack { pc, at } => {
            let mut line = line_at(alloc, b'S', *pc)?;
            line.push(b' ')?;
            push_set(&mut line, at)?;
            Ok(line)
        }
    }
}

/// Appends the line of an item. A refusal appends nothing.
pub fn put_item<C: InstrText>(chip: &C, item: &Item, out: &mut Vec<u8>) -> Result<(), Memory>
    ensures appended { OnOk result (out.new.items ≡ out.old.items ++ item_line_of (C.text_of chip.now) item.now) }
    ensures refused { OnErr result (out.new.items ≡ out.old.items) }
{
    let line = item_line(*out.allocator(), chip, item)?;
    out.extend_from_slice(line.as_slice())?;
    Ok(())
}
