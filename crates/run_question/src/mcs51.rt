//! What a run of the MCS-51 asks.

use crate::question::{Asked, Question};
use crate::reads::{left_of, read_of, with_zeros};
use arrayvec::{ArrayString, ArrayVec};
use call_context::{Item, Space};
use image::Image;
use mcs51_chip::{ChipState, Sfr, sfr_at};
use mcs51_decode::{External, Instr, decode};
use mcs51_emu::{Choices, Machine, Stepped};
use mcs51_text::text;
use no_memory::Memory;
use std::alloc::{AllocError, Global};

/// How many steps a run has at most.
const STEPS: u32 = 1_000_000;

/// Where the run of an image along a script asks what the script doesn't answer.
pub fn mcs51_asks(alloc: Global, image: &Image, script: &[u16]) -> Result<Option<Asked>, Memory> {
    let mut machine = Machine::reset();
    let mut choices = Choices::new(Vec::from_slice(alloc, script)?);
    for done in 0..STEPS {
        match machine.step(image, &mut choices) {
            Stepped::Met(_) => {}
            Stepped::Wild(_) => return Ok(None),
            Stepped::NeedChoice => {
                let left = left_of(script, choices.unused().count());
                return Ok(Some(asked_at(alloc, &mut machine, image, left, done + 1)?));
            }
        }
    }
    Ok(None)
}

/// What the step of this number asks behind the choices that are left.
fn asked_at(
    alloc: Global,
    machine: &mut Machine,
    image: &Image,
    left: &[u16],
    step: u32,
) -> Result<Asked, AllocError> {
    let pc = machine.state.pc;
    let (instr, question) = match decode(image, pc) {
        Ok((instr, _)) => (
            text(&instr, pc),
            question_of(alloc, machine, image, &instr, left)?,
        ),
        Err(_) => (ArrayString::new(), interrupt_question(&machine.state, left)),
    };
    Ok(Asked {
        step,
        pc,
        instr,
        question,
    })
}

/// Whether the interrupt of a source may come.
fn may_come(s: &ChipState, source: u8) -> bool {
    let bit = 1u8 << source % 8;
    let is_allowed = if s.ip & bit != 0 {
        !s.serves_high
    } else {
        !(s.serves_low || s.serves_high)
    };
    s.ie & 0x80 != 0 && s.ie & bit != 0 && is_allowed
}

/// The addresses of the handlers of the interrupts that may come.
fn coming(s: &ChipState) -> ArrayVec<u16, 14> {
    let mut handlers = ArrayVec::new();
    for source in 0..6u8 {
        if may_come(s, source) {
            let _ = handlers.try_push(3 + 8 * source as u16);
        }
    }
    handlers
}

/// What is asked of interrupts, where no choice is left.
fn interrupt_question(s: &ChipState, left: &[u16]) -> Option<Question> {
    let handlers = coming(s);
    if handlers.is_empty() || !left.is_empty() {
        None
    } else {
        Some(Question::Interrupt(handlers))
    }
}

/// What a step asks that may run an instruction. The entry of an interrupt asks nothing.
fn question_of(
    alloc: Global,
    machine: &mut Machine,
    image: &Image,
    instr: &Instr,
    left: &[u16],
) -> Result<Option<Question>, AllocError> {
    if let Some(question) = interrupt_question(&machine.state, left) {
        return Ok(Some(question));
    }
    let asked = left.len();
    let place = if coming(&machine.state).is_empty() {
        asked
    } else {
        asked.saturating_sub(1)
    };
    let mut choices = Choices::new(with_zeros(alloc, left)?);
    let Stepped::Met(items) = machine.step(image, &mut choices) else {
        return Ok(None);
    };
    Ok(nth_question(image, instr, items.as_slice(), place))
}

/// The question of an instruction at a place.
fn nth_question(image: &Image, instr: &Instr, items: &[Item], place: usize) -> Option<Question> {
    match instr {
        Instr::Push(0x81) => Some(Question::PushedPointer),
        Instr::Pop(0x81) => Some(Question::PoppedPointer),
        Instr::Divide if place == 0 => Some(Question::Quotient),
        Instr::Divide => Some(Question::Remainder),
        Instr::ReadExternal(External::Indirect(_)) | Instr::WriteExternal(External::Indirect(_))
            if place == 0 => { Some(Question::HighAddress) }
        _ => items.iter().find_map(|item| read_question(image, item)),
    }
}

/// What is asked where a step reads so.
fn read_question(image: &Image, item: &Item) -> Option<Question> {
    let read = read_of(item)?;
    let (space, at) = (read.space, read.at);
    match space {
        Space::Xram => Some(Question::Byte { space, at }),
        Space::Code if image.byte(at).is_none() => Some(Question::Byte { space, at }),
        Space::Sfr => register_question(at),
        _ => None,
    }
}

/// What is asked where a special function register is read.
fn register_question(at: u16) -> Option<Question> {
    match sfr_at((at % 256) as u8) {
        Sfr::Ie | Sfr::Psw => Some(Question::OpenBits { at, values: 2 }),
        Sfr::Ip => Some(Question::OpenBits { at, values: 4 }),
        Sfr::Other => Some(Question::Byte {
            space: Space::Sfr,
            at,
        }),
        _ => None,
    }
}
