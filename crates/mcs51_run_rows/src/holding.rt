//! Whether a row holds.

use crate::ends::{is_refusal, is_refused, stands_after};
use crate::names::set;
use crate::numbers::number_of;
use arrayvec::ArrayVec;
use call_context::Item;
use mcs51_decode::Image;
use mcs51_emu::{Choices, Machine, Stepped};
use row_parts::CodeRow;
use std::alloc::{AllocError, Global};

/// A machine behind a reset, but with this PC.
fn machine_at(pc: u16) -> Machine {
    let mut machine = Machine::reset();
    set(&mut machine.state, "PC", pc);
    machine
}

/// Takes a word of what stands before the steps, and says whether it is one.
fn take_word(machine: &mut Machine, list: &mut Vec<u16>, word: &str) -> Result<bool, AllocError> {
    if word.is_empty() {
        return Ok(true);
    }
    let (name, digits) = match word.strip_prefix('?') {
        Some(digits) => ("", digits),
        None => word.split_once('=').unwrap_or(("", "")),
    };
    let Some(value) = number_of(digits) else {
        return Ok(false);
    };
    if name.is_empty() {
        list.push(value)?;
    } else {
        set(&mut machine.state, name, value);
    }
    Ok(true)
}

/// What the last one of so many steps did, if all are done.
fn last_items(
    image: &Image,
    machine: &mut Machine,
    choices: &mut Choices,
    steps: u16,
) -> Option<ArrayVec<Item, 12>> {
    let mut items = ArrayVec::new();
    for _ in 0..steps {
        match machine.step(image, choices) {
            Stepped::Met(met) => items = met,
            _ => return None,
        }
    }
    Some(items)
}

/// Whether the first step isn't done, for this cause, and machine and choices are as before.
fn stays(image: &Image, machine: &mut Machine, choices: &mut Choices, end: &str) -> bool {
    let left = choices.unused().count();
    let stepped = machine.step(image, choices);
    let fresh = Machine::reset();
    is_refused(&stepped, end) && machine.state == fresh.state && choices.unused().count() == left
}

/// Whether steps lead where a row says.
fn row_holds(
    image: &Image,
    machine: &mut Machine,
    choices: &mut Choices,
    steps: u16,
    end: &str,
) -> bool {
    if is_refusal(end.trim()) {
        return stays(image, machine, choices, end.trim());
    }
    match last_items(image, machine, choices, steps) {
        Some(items) => {
            choices.unused().count() == 0 && stands_after(&machine.state, items.as_slice(), end)
        }
        None => false,
    }
}

/// Takes what stands before the steps, and says whether it is words.
fn take_words(machine: &mut Machine, list: &mut Vec<u16>, words: &str) -> Result<bool, AllocError> {
    for word in words.split(' ') {
        if !take_word(machine, list, word)? {
            return Ok(false);
        }
    }
    Ok(true)
}

/// Whether a row of code leads where it says.
fn leads_to(alloc: Global, row: &CodeRow<'_>, end: &str) -> Result<bool, AllocError> {
    let (steps, words) = row.rest.split_once(' ').unwrap_or((row.rest, ""));
    let Some(steps) = number_of(steps) else {
        return Ok(false);
    };
    let mut machine = machine_at(row.pc);
    let mut list = Vec::new(alloc);
    let are_words = take_words(&mut machine, &mut list, words)?;
    let mut choices = Choices::new(list);
    Ok(are_words && row_holds(&row.image, &mut machine, &mut choices, steps, end))
}

/// Whether a line holds. One of another form doesn't.
pub fn holds(alloc: Global, line: &str) -> Result<bool, AllocError> {
    let (before, after) = line.split_once('>').unwrap_or(("", ""));
    match CodeRow::of(alloc, before)? {
        Some(row) => {
            let holds = leads_to(alloc, &row, after);
            drop(row);
            holds
        }
        None => Ok(false),
    }
}
