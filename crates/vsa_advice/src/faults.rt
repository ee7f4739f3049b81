//! What the faults of texts mean, and what to do about them.

use crate::inputs::other_input;
use crate::source::NotedSource;
use crate::words::has_word;
use std::{io, str};
use streams::Source;

/// What is said of an input: of a line of it, by the line's number, or of the whole.
#[derive(Clone, Copy)]
pub struct Fault<'a> {
    pub line: Option<&'a str>,
    pub sentence: &'static str,
}

impl<'a> Fault<'a> {
    /// What is said of a line. Line 0 is none, but the reset of a certificate.
    fn at(line: &'a str, sentence: &'static str) -> Fault<'a> {
        Fault {
            line: if line == "0" { None } else { Some(line) },
            sentence,
        }
    }

    /// Prints it.
    pub fn print(&self, rt: &impl Eprint) -> io::Result<()> {
        let sentence = self.sentence;
        match self.line {
            Some(line) => eprintln!(rt; "vsa: line {line} {sentence}"),
            None => eprintln!(rt; "vsa: {sentence}"),
        }
    }
}

/// What the faults of an image text say of their line, and what to do.
const FAULTS: [(&str, &str); 12] = [
    (
        "NoColon",
        "of the image text must begin with a colon. Is the input an Intel HEX text? `objcopy -O ihex` makes one of an ELF file.",
    ),
    (
        "BadDigit",
        "of the image text has a character after its colon that is no hexadecimal digit.",
    ),
    (
        "BadLength",
        "of the image text is cut short or too long: its first two digits aren't the number of its data bytes.",
    ),
    (
        "BadSum",
        "of the image text has a wrong checksum: was it changed, or damaged on its way? Make the image text again.",
    ),
    (
        "BadType",
        "of the image text has a record type above 05, which Intel HEX doesn't have.",
    ),
    (
        "BadTypeLength",
        "of the image text has more or fewer data bytes than its record type must have.",
    ),
    (
        "OutOfRange",
        "of the image text has a byte above address FFFFh. MSP430X, with more than 64 KB, isn't covered.",
    ),
    (
        "Clash",
        "of the image text gives an address another byte than an earlier line. Were two programs joined?",
    ),
    (
        "Misplaced",
        "of the image text has a byte below 0200h, where the peripherals are, in RAM, or where --mirror says that RAM answers too. Say by --ram LO-HI where the chip has its RAM.",
    ),
    (
        "NoEnd",
        "of the image text isn't there: the text ends without an end record, :00000001FF. Was it cut off?",
    ),
    (
        "Trailing",
        "of the image text stands after the end record, where only blank lines may. A script is read by the mode run alone, assertions by assert, and a certificate by check.",
    ),
    (
        "NoReset",
        "of the image text ends an image without a reset vector. Both bytes at FFFEh and FFFFh must be in it. Is it an image of the 8051 (mcs51), or did the linker script forget the vectors?",
    ),
];

/// The sentence beside a name.
fn sentence_beside(sentences: &[(&'static str, &'static str)], name: &str) -> Option<&'static str> {
    for (own, sentence) in sentences.iter() {
        if *own == name {
            return Some(*sentence);
        }
    }
    None
}

/// What the line of a byte at a wrong place says, by the address of its record.
fn misplaced_at(address: u16) -> &'static str {
    if address < 0x0200 {
        "of the image text has a byte below 0200h, where the MSP430 has its peripherals. Is it an image of the 8051? Then the chip is mcs51."
    } else {
        "of the image text has a byte in RAM or in its mirror. Say by --ram LO-HI where the chip has its RAM; if the byte is a variable's first value, let the program copy it from the code at its start."
    }
}

/// The line that an answer names, as `BAD line fault` and `NO line Syntax` do, and the word after it.
fn named_line(first: &[u8]) -> Option<(&str, &str)> {
    if let Ok(text) = str::from_utf8(first)
        && let Some((_, rest)) = text.trim_end().split_once(' ')
        && let Some((line, rest)) = rest.split_once(' ')
    {
        let fault = match rest.split_once(' ') {
            Some((fault, _)) => fault,
            None => rest,
        };
        Some((line, fault))
    } else {
        None
    }
}

/// What is wrong with an input that gives no image, by how the answer begins that tells so.
pub fn image_fault<'a, S: Source + Drop>(
    first: &'a [u8],
    source: &NotedSource<S>,
) -> Option<Fault<'a>> {
    if let Some(sentence) = other_input(source.first()) {
        return Some(Fault {
            line: None,
            sentence,
        });
    }
    if let Some((line, fault)) = named_line(first)
        && let Some(sentence) = line_sentence_of(line, fault, source)
    {
        Some(Fault::at(line, sentence))
    } else {
        None
    }
}

/// What is wrong with a line of an image text.
fn line_sentence_of<S: Source + Drop>(
    line: &str,
    fault: &str,
    source: &NotedSource<S>,
) -> Option<&'static str> {
    if fault == "Misplaced"
        && let Some(address) = source.address_of(line.parse::<usize>().ok()?)
    {
        return Some(misplaced_at(address));
    }
    sentence_beside(FAULTS.as_slice(), fault)
}

/// What is wrong with the text behind an image text, by how the answer begins that tells so.
pub fn text_fault<'a>(words: &[String], first: &'a [u8]) -> Option<Fault<'a>> {
    let (line, fault) = named_line(first)?;
    let sentence = if has_word(words, "check") {
        refused_certificate(line, fault)?
    } else {
        refused_line(words)
    };
    Some(Fault::at(line, sentence))
}

/// What the refusals of a certificate say of their line.
const REFUSALS: [(&str, &str); 6] = [
    (
        "Syntax",
        "of the certificate, counted after the end record, is none that may stand there. The first line is CERT 1 or CERT 2 and the last one END, each line ends with one line feed and no carriage return, and docs/CERTIFICATE.md has the fields.",
    ),
    (
        "Order",
        "of the certificate, counted after the end record, doesn't stand above the one before it: N lines come before X lines, each kind in the order of its bytes.",
    ),
    (
        "Unknown",
        "of the certificate leads to the named node, which has no line. Is it the certificate of this image, made with the same options?",
    ),
    (
        "NoStart",
        "the certificate has no line for the node that each run begins in. Is it the certificate of this image?",
    ),
    (
        "NotIn",
        "of the certificate leads to what the named node's line doesn't have: the field, what comes there, and what that line has. Is it the certificate of this image, made with the same options?",
    ),
    (
        "HasOpen",
        "of the certificate leaves the named site open, by the named cause: from there on the program may do more than a table says. docs/TUTORIAL.md says what each cause means and what to do.",
    ),
];

/// What is said of a certificate without what a reset leaves.
const LACKS_RESET: &str =
    "a reset leaves what the named node's line doesn't have: the field, what a reset leaves there, and what the line has.";

/// What the refusal of a certificate says.
fn refused_certificate(line: &str, fault: &str) -> Option<&'static str> {
    if fault == "NotIn" && line == "0" {
        return Some(LACKS_RESET);
    }
    sentence_beside(REFUSALS.as_slice(), fault)
}

/// What a refused line of the text behind an image text says.
fn refused_line(words: &[String]) -> &'static str {
    if has_word(words, "assert") {
        "of the assertions, counted after the end record, is none: noexec LO-HI, noread SPACE LO-HI, nowrite SPACE LO-HI or stack FROM-TO LO-HI, by single blanks and four hexadecimal digits each, with the spaces mem of the msp430, and ram, sfr, xram and code of the mcs51."
    } else {
        "of the script, counted after the end record, is no number of 1 to 4 hexadecimal digits."
    }
}
