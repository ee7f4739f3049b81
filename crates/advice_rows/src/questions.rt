//! What a run asks whose script ends too early.

use hex_digits::bytes;
use row_parts::words_of;
use std::alloc::{AllocError, Global};
use vsa_advice::{asked_of, question_text};

/// Adds a record of bytes at an address to an image text.
fn add_record(text: &mut String, at: u16, bytes: &[u8]) -> Result<(), AllocError> {
    let mut sum = (bytes.len() % 256) as u8;
    sum = sum
        .wrapping_add((at / 256) as u8)
        .wrapping_add((at % 256) as u8);
    write!(text, ":{:02X}{at:04X}00", bytes.len())?;
    for byte in bytes {
        sum = sum.wrapping_add(*byte);
        write!(text, "{byte:02X}")?;
    }
    write!(text, "{:02X}\n", sum.wrapping_neg())
}

/// An image text of code at an address, and of the MSP430's vectors at FFE0h and FFFEh, which name F000h.
fn image_text(alloc: Global, at: u16, code: &[u8]) -> Result<String, AllocError> {
    let mut text = String::new(alloc);
    add_record(&mut text, at, code)?;
    add_record(&mut text, 0xFFE0, b"\x00\xF0")?;
    add_record(&mut text, 0xFFFE, b"\x00\xF0")?;
    text.push_str(":00000001FF\n")?;
    Ok(text)
}

/// The words that ask for a run of a chip.
fn run_words(alloc: Global, chip: &str) -> Result<Vec<String>, AllocError> {
    let line = format!(in alloc; "run {chip}")?;
    words_of(alloc, line.as_str())
}

/// The image text of code, and the numbers of a script behind it.
fn input_of(
    alloc: Global,
    is_mcs51: bool,
    code: &[u8],
    script: &str,
) -> Result<String, AllocError> {
    let mut text = image_text(alloc, if is_mcs51 { 0 } else { 0xF000 }, code)?;
    for number in script.split_ascii_whitespace() {
        writeln!(text, "{number}")?;
    }
    Ok(text)
}

/// What a run asks of a chip, code, and the numbers of a script: the number of the step, and the question.
fn asked_by(alloc: Global, chip: &str, code: &[u8], script: &str) -> Result<String, AllocError> {
    let is_mcs51 = chip == "mcs51";
    let words = run_words(alloc, chip)?;
    let input = input_of(alloc, is_mcs51, code, script)?;
    if let Some(asked) = asked_of(alloc, words.as_slice(), input.as_str().as_bytes())
        && let Some(question) = &asked.question
    {
        let said = question_text(alloc, question, is_mcs51)?;
        return format!(in alloc; "step {}: {said}", asked.step);
    }
    String::from_str(alloc, "none")
}

/// The same of the digits of code.
pub fn asks(alloc: Global, asked: &str) -> Result<String, AllocError> {
    let (chip, rest) = asked.split_once(' ').unwrap_or((asked, ""));
    let (digits, script) = rest.split_once(' ').unwrap_or((rest, ""));
    match bytes(alloc, digits.as_bytes())? {
        Some(code) => asked_by(alloc, chip, code.as_slice(), script),
        None => String::from_str(alloc, "no digits"),
    }
}
