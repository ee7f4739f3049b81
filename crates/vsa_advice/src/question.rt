//! The questions of a step, in words.

use arrayvec::ArrayVec;
use chip_numbers::Space;
use run_question::Question;
use std::alloc::{AllocError, Global};

/// The options of the question which interrupt comes.
fn interrupts_text(
    alloc: Global,
    sources: &ArrayVec<u16, 14>,
    place: &str,
) -> Result<String, AllocError> {
    let mut text = String::from_str(alloc, "which interrupt comes? 0 is none")?;
    add_interrupts(&mut text, sources, place).and(Ok(text))
}

/// Adds the options of the question which interrupt comes, and the end of the sentence.
fn add_interrupts(
    text: &mut String,
    sources: &ArrayVec<u16, 14>,
    place: &str,
) -> Result<(), AllocError> {
    for (number, at) in sources.as_slice().iter().enumerate() {
        let option = number + 1;
        write!(text, ", {option:X} the one with its {place} at {at:04X}h")?;
    }
    text.push('.')
}

/// The options of the question what a byte reads as.
fn byte_text(alloc: Global, space: Space, at: u16) -> Result<String, AllocError> {
    match space {
        Space::Mem => format!(in alloc;
            "what does the byte at {at:04X}h read as, which neither RAM nor the image has? 0 to FF: the byte that the port or peripheral gives."
        ),
        Space::Xram => format!(in alloc;
            "what does the byte at {at:04X}h of external RAM read as? 0 to FF."
        ),
        Space::Code => format!(in alloc;
            "what does the byte at {at:04X}h of the program read as, which the image doesn't have? 0 to FF."
        ),
        _ => format!(in alloc;
            "what does the register at {at:02X}h read as? 0 to FF: the byte that the port or peripheral gives."
        ),
    }
}

/// What the bits of a register read as that it doesn't hold.
fn bits_text(at: u16) -> &'static str {
    match at {
        0xD0 => "what does bit 1 of PSW read as? 0 or 1.",
        0xA8 => "what does bit 6 of IE read as? 0 or 1.",
        _ => "what do the bits 6 and 7 of IP read as? 0 to 3.",
    }
}

/// A question whose words are always the same.
fn fixed_text(question: &Question) -> &'static str {
    match question {
        Question::Counter => {
            "what is PC as the source? 0 for the address of the instruction plus 2, 1 for plus 4."
        }
        Question::PushedOperand => {
            "when is the operand formed? 0 for before SP is lowered, 1 for behind that."
        }
        Question::StatusBits => "what do the bits 9 to 15 of SR read as? 0 to 7F.",
        Question::Status => "what is SR behind it? 0 to 1FF, the bits 0 to 8 of SR.",
        Question::HighByte => "what is the high byte of the word that it pushes? 0 to FF.",
        Question::Decimal { values: 256 } => {
            "what is the result, since a digit is above 9? 0 to FF."
        }
        Question::Decimal { .. } => "what is the result, since a digit is above 9? 0 to FFFF.",
        Question::Flags => {
            "what are the flags, since a digit is above 9? 0 to F: C, Z, N and V, from the lowest bit up."
        }
        Question::Overflow => "what is V behind it? 0 or 1.",
        Question::HighAddress => "what is the high byte of the address? 0 to FF.",
        Question::PushedPointer => {
            "which SP is stored? 0 for SP as it was, 1 for SP as it is raised."
        }
        Question::PoppedPointer => {
            "what is SP behind it? 0 for the byte that is read, 1 for one less."
        }
        Question::Quotient => "what is A behind the division by 0? 0 to FF.",
        Question::Remainder => "what is B behind the division by 0? 0 to FF.",
        Question::OpenBits { at, .. } => bits_text(*at),
        Question::Interrupt(_) | Question::Byte { .. } => "",
    }
}

/// A question and its options.
pub fn question_text(
    alloc: Global,
    question: &Question,
    is_mcs51: bool,
) -> Result<String, AllocError> {
    match question {
        Question::Interrupt(sources) => {
            interrupts_text(alloc, sources, if is_mcs51 { "handler" } else { "vector" })
        }
        Question::Byte { space, at } => byte_text(alloc, *space, *at),
        other => String::from_str(alloc, fixed_text(other)),
    }
}
