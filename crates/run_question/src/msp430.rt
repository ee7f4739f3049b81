//! What a run of the MSP430 asks.

ghost use Rattle.image.specs.declared.rule_set.Rules.TheVariants.{Msp430};
ghost use Rattle.msp430_emu.specs.Stepping.{IsMsp430};

use crate::question::{Asked, Question};
use crate::reads::{Read, left_of, read_of, with_zeros};
use arrayvec::{ArrayString, ArrayVec};
use call_context::{Item, Space};
use image::{Image, RamRange};
use msp430_decode::{
    Destination, Instr, Operation, Register, SingleOperation, Source, Width, decode,
};
use msp430_emu::{Choices, Machine, Stepped};
use msp430_text::text;
use no_memory::Memory;
use std::alloc::{AllocError, Global};

/// How many steps a run has at most.
const STEPS: u32 = 1_000_000;

/// How many bytes a step reads at most, of two words.
const BYTES: usize = 4;

/// Where the run of an image along a script asks what the script doesn't answer.
pub fn msp430_asks(
    alloc: Global,
    image: &Image,
    ram: RamRange,
    script: &[u16],
) -> Result<Option<Asked>, Memory>
    requires { IsMsp430 (Msp430 ram) }
{
    let mut machine = Machine::reset(alloc, image, ram.rules())?;
    let mut choices = Choices::new(Vec::from_slice(alloc, script)?);
    for done in 0..STEPS {
        match machine.step(image, &mut choices) {
            Stepped::Met(_) => {}
            Stepped::Wild(_) => return Ok(None),
            Stepped::NeedChoice => {
                let left = left_of(script, choices.unused().count());
                return Ok(Some(asked_at(alloc, &mut machine, image, left, done + 1)?));
            }
        }
    }
    Ok(None)
}

/// What the step of this number asks behind the choices that are left.
fn asked_at(
    alloc: Global,
    machine: &mut Machine,
    image: &Image,
    left: &[u16],
    step: u32,
) -> Result<Asked, AllocError> {
    let pc = machine.state.registers[0];
    let (instr, question) = match decode(image, pc) {
        Ok((instr, _)) => (
            text(&instr, pc),
            question_of(alloc, machine, image, &instr, left)?,
        ),
        Err(_) => (
            ArrayString::new(),
            interrupt_question(machine, image, left).ok(),
        ),
    };
    Ok(Asked {
        step,
        pc,
        instr,
        question,
    })
}

/// Whether a vector is in the image, and not erased.
fn is_raised(image: &Image, vector: u16) -> bool {
    match (image.byte(vector), image.byte(vector.wrapping_add(1))) {
        (Some(low), Some(high)) => !(low == 255 && high == 255),
        _ => false,
    }
}

/// The addresses of the vectors whose interrupts may come.
fn coming(machine: &Machine, image: &Image) -> ArrayVec<u16, 14> {
    let mut vectors = ArrayVec::new();
    if machine.state.registers[2] / 8 % 2 == 0 && !machine.state.late {
        return vectors;
    }
    for number in 0..14u16 {
        let vector = 0xFFE0 + 2 * number;
        if is_raised(image, vector) {
            let _ = vectors.try_push(vector);
        }
    }
    vectors
}

/// What is asked of interrupts by these choices; or how many choices are left to the instruction.
fn interrupt_question(machine: &Machine, image: &Image, left: &[u16]) -> Result<Question, usize> {
    let vectors = coming(machine, image);
    if vectors.is_empty() {
        return Err(left.len());
    }
    match left.split_first() {
        None => Ok(Question::Interrupt(vectors)),
        Some((choice, rest)) => {
            if *choice as usize % (1 + vectors.len()) == 0 {
                Err(rest.len())
            } else {
                Ok(Question::StatusBits)
            }
        }
    }
}

/// What a step asks that may run an instruction.
fn question_of(
    alloc: Global,
    machine: &mut Machine,
    image: &Image,
    instr: &Instr,
    left: &[u16],
) -> Result<Option<Question>, AllocError> {
    let place = match interrupt_question(machine, image, left) {
        Ok(question) => return Ok(Some(question)),
        Err(place) => place,
    };
    let front = left.len().saturating_sub(place);
    let mut choices = Choices::new(with_zeros(alloc, left)?);
    let all = choices.unused().count();
    let Stepped::Met(items) = machine.step(image, &mut choices) else {
        return Ok(None);
    };
    let used = all.saturating_sub(choices.unused().count());
    let bytes = free_bytes(machine, image, items.as_slice());
    Ok(nth_question(instr, bytes.as_slice(), place, used.saturating_sub(front)))
}

/// The question at a place, of so many that an instruction asks, where it reads these bytes that nothing holds.
fn nth_question(instr: &Instr, bytes: &[u16], place: usize, count: usize) -> Option<Question> {
    let mut place = place;
    let mut count = count;
    if let Some(question) = order_of(instr) {
        if place == 0 {
            return Some(question);
        }
        place = place.saturating_sub(1);
        count = count.saturating_sub(1);
    }
    if let Some(at) = bytes.get(place) {
        return Some(Question::Byte {
            space: Space::Mem,
            at: *at,
        });
    }
    result_question(
        instr,
        place.saturating_sub(bytes.len()),
        count.saturating_sub(bytes.len()),
    )
}

/// Whether nothing holds a byte: it is neither RAM's nor the image's.
fn is_free(machine: &Machine, image: &Image, at: u16) -> bool {
    !(machine.ram.lo <= at && at <= machine.ram.hi) && image.byte(at).is_none()
}

/// Adds the bytes of a read that nothing holds.
fn push_free(bytes: &mut ArrayVec<u16, BYTES>, machine: &Machine, image: &Image, read: Read) {
    for offset in 0..read.size {
        let at = read.at.wrapping_add(offset);
        if is_free(machine, image, at) {
            let _ = bytes.try_push(at);
        }
    }
}

/// The bytes that a step reads and nothing holds, in the order in which they are asked.
fn free_bytes(machine: &Machine, image: &Image, items: &[Item]) -> ArrayVec<u16, BYTES> {
    let mut bytes = ArrayVec::new();
    for item in items {
        if let Some(read) = read_of(item) {
            push_free(&mut bytes, machine, image, read);
        }
    }
    bytes
}

/// What an instruction asks before it reads: which of two addresses, or orders.
fn order_of(instr: &Instr) -> Option<Question> {
    match instr {
        Instr::Double {
            source: Source::Register(Register::Pc),
            destination,
            ..
        } if !matches!(destination, Destination::Register(_)) => Some(Question::Counter),
        Instr::Single {
            operation: SingleOperation::Push | SingleOperation::Call,
            operand: Source::Register(Register::Sp)
            | Source::Indexed {
                register: Register::Sp,
                ..
            }
            | Source::Indirect(Register::Sp),
            ..
        } => Some(Question::PushedOperand),
        _ => None,
    }
}

/// Whether a word operand is SR, and is read.
fn reads_status(instr: &Instr) -> bool {
    match instr {
        Instr::Double {
            operation,
            width: Width::Word,
            source,
            destination,
        } => {
            *source == Source::Register(Register::Sr)
                || (*operation != Operation::Mov
                    && *destination == Destination::Register(Register::Sr))
        }
        Instr::Single {
            width: Width::Word,
            operand,
            ..
        } => *operand == Source::Register(Register::Sr),
        _ => false,
    }
}

/// Whether an instruction sets flags, and SR is its destination.
fn leaves_status(instr: &Instr) -> bool {
    match instr {
        Instr::Double {
            operation,
            destination,
            ..
        } => {
            !matches!(operation, Operation::Mov | Operation::Bic | Operation::Bis)
                && *destination == Destination::Register(Register::Sr)
        }
        Instr::Single {
            operation: SingleOperation::Rrc | SingleOperation::Rra | SingleOperation::Sxt,
            operand,
            ..
        } => *operand == Source::Register(Register::Sr),
        _ => false,
    }
}

/// What an instruction asks behind the bytes that it reads: the question at a place, of so many.
fn result_question(instr: &Instr, place: usize, count: usize) -> Option<Question> {
    let mut place = place;
    let mut count = count;
    if reads_status(instr) {
        if place == 0 {
            return Some(Question::StatusBits);
        }
        place = place.saturating_sub(1);
        count = count.saturating_sub(1);
    }
    if leaves_status(instr) {
        return Some(Question::Status);
    }
    match instr {
        Instr::Single {
            operation: SingleOperation::Push,
            ..
        } => Some(Question::HighByte),
        Instr::Single {
            operation: SingleOperation::Rrc,
            ..
        } => Some(Question::Overflow),
        Instr::Double {
            operation: Operation::Dadd,
            width,
            ..
        } => Some(decimal_question(*width, place, count)),
        _ => None,
    }
}

/// What DADD asks of its result: V alone, or result and flags where a digit is above 9.
fn decimal_question(width: Width, place: usize, count: usize) -> Question {
    if count < 2 {
        return Question::Overflow;
    }
    if place > 0 {
        return Question::Flags;
    }
    Question::Decimal {
        values: match width {
            Width::Word => 65536,
            Width::Byte => 256,
        },
    }
}
