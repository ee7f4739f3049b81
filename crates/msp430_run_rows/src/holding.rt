//! Whether a row holds.

ghost use Rattle.std.specs.Prelude.{◌<◌, IfSome};

use crate::doing::done_by;
use crate::placing::{choices_of, image_with};
use crate::refusing::{is_refusal, is_refused};
use arrayvec::ArrayVec;
use call_context::Item;
use hex_digits::{bytes, word};
use image::{Image, RamRange, Rules};
use msp430_emu::{Choices, Machine, Stepped};
use std::alloc::{AllocError, Global};

/// The lowest and the highest address of RAM.
const LO: u16 = 0x0200;

const HI: u16 = 0x027F;

/// Where the lower half of RAM answers a second time.
const MIRROR: (u16, u16) = (0x0A00, 0x0A3F);

/// The byte of RAM at an address.
fn ram_byte(machine: &Machine, at: u16) -> Option<u8> {
    if machine.ram.lo <= at && at <= machine.ram.hi {
        Some(machine.state.ram.byte((at - machine.ram.lo) as usize))
    } else {
        None
    }
}

/// The number of a register of this name.
fn register_of(name: &str) -> Option<usize>
    ensures { IfSome result (λ register. register < 16) }
{
    match name {
        "PC" => Some(0),
        "SP" => Some(1),
        "SR" => Some(2),
        "R3" => Some(3),
        "R5" => Some(5),
        "R6" => Some(6),
        _ => None,
    }
}

/// Whether RAM holds bytes from an address on.
fn ram_holds(machine: &Machine, at: u16, bytes: &[u8]) -> bool {
    let mut at = at;
    for byte in bytes {
        if ram_byte(machine, at) != Some(*byte) {
            return false;
        }
        at = at.wrapping_add(1);
    }
    true
}

/// Whether a register holds a number, or RAM bytes from an address on.
fn part_holds(alloc: Global, machine: &Machine, part: &str) -> Result<bool, AllocError> {
    let Some((name, held)) = part.split_once('=') else {
        return Ok(false);
    };
    if let Some(register) = register_of(name) {
        return Ok(word(held.as_bytes()) == Some(machine.state.registers[register]));
    }
    let Some(bytes) = bytes(alloc, held.as_bytes())? else {
        return Ok(false);
    };
    match word(name.as_bytes()) {
        Some(at) => Ok(ram_holds(machine, at, &bytes)),
        None => Ok(false),
    }
}

/// Whether registers and RAM hold what a row says, or the last step did it.
fn end_holds(
    alloc: Global,
    machine: &Machine,
    items: &[Item],
    end: &str,
) -> Result<bool, AllocError> {
    if end.contains('/') {
        let text = done_by(alloc, items)?;
        return Ok(text.as_str() == end);
    }
    for part in end.split(',') {
        if !part_holds(alloc, machine, part)? {
            return Ok(false);
        }
    }
    Ok(true)
}

/// Whether the next step isn't done, for this cause, and machine and choices are as before.
fn stays(machine: &mut Machine, image: &Image, choices: &mut Choices, end: &str) -> bool {
    let registers = machine.state.registers;
    let left = choices.unused().count();
    let stepped = machine.step(image, choices);
    let is_still = machine.state.registers == registers && choices.unused().count() == left;
    is_refused(&stepped, end) && is_still && ram_is_empty(machine)
}

/// Whether RAM is as behind a reset.
fn ram_is_empty(machine: &Machine) -> bool {
    for at in LO..=HI {
        if ram_byte(machine, at) != Some(0) {
            return false;
        }
    }
    true
}

/// What the last one of so many steps did, if all are done.
fn last_items(
    image: &Image,
    machine: &mut Machine,
    choices: &mut Choices,
    steps: u8,
) -> Option<ArrayVec<Item, 12>> {
    let mut items = ArrayVec::new();
    for _ in 0..steps {
        match machine.step(image, choices) {
            Stepped::Met(met) => items = met,
            _ => return None,
        }
    }
    Some(items)
}

/// Whether steps of a machine lead where a row says.
fn leads_to(
    alloc: Global,
    image: &Image,
    machine: &mut Machine,
    choices: &mut Choices,
    steps: u8,
    end: &str,
) -> Result<bool, AllocError> {
    match last_items(image, machine, choices, steps) {
        Some(_) if is_refusal(end) => Ok(stays(machine, image, choices, end)),
        Some(items) => {
            let is_end = end_holds(alloc, machine, items.as_slice(), end);
            drop(items);
            Ok(is_end? && choices.unused().count() == 0)
        }
        None => Ok(false),
    }
}

/// Whether steps from a reset on lead where a row says.
fn row_holds(
    alloc: Global,
    image: &Image,
    choices: &mut Choices,
    steps: u8,
    end: &str,
) -> Result<bool, AllocError> {
    let rules = Rules::Msp430(RamRange {
        lo: LO,
        hi: HI,
        mirror: Some(MIRROR),
    });
    let Ok(mut machine) = Machine::reset(alloc, image, rules) else {
        return Err(AllocError);
    };
    let holds = leads_to(alloc, image, &mut machine, choices, steps, end);
    drop(machine);
    holds
}

/// Whether a line holds. One of another form doesn't.
pub fn holds(alloc: Global, line: &str) -> Result<bool, AllocError> {
    let mut words = line.splitn(5, ' ');
    let Ok(steps) = words.next().unwrap_or("").parse::<u8>() else {
        return Ok(false);
    };
    let pieces = words.next().unwrap_or("");
    let choices = choices_of(alloc, words.next().unwrap_or(""))?;
    let image = image_with(alloc, pieces)?;
    let end = words.next().unwrap_or("");
    match image.zip(choices) {
        Some((image, mut choices)) => row_holds(alloc, &image, &mut choices, steps, end),
        None => Ok(false),
    }
}
