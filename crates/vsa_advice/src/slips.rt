//! What is wrong with the words of a command line that asks nothing.

use crate::usage::USAGE;
use clap::error::ErrorKind;
use clap::{ArgMatches, Error};
use image::{ChipName, RamRange};
use std::alloc::{AllocError, Global};
use std::io;
use vsa_words::{
    Mode, OptionName, Span, USUAL_RAM, Value, chip_of, mode_of, number_in, range_of, vsa_command,
};

/// What the words ask in place of an answer.
#[derive(Drop)]
pub enum Slip {
    /// The usage.
    Help,
    /// Nothing. The text says what is wrong.
    Wrong(String),
}

/// What clap says of an error, without the lines that name the usage.
fn sentence_of(alloc: Global, error: &Error) -> Result<String, AllocError> {
    let text = format!(in alloc; "{error}")?;
    let sentence = String::from_str(alloc, without_usage(text.as_str()));
    drop(text);
    sentence
}

/// A text of clap without the lines that name the usage.
fn without_usage(text: &str) -> &str {
    let text = text.strip_prefix("error: ").unwrap_or(text);
    let text = match text.split_once("\n\nUsage:") {
        Some((front, _)) => front,
        None => text,
    };
    let text = match text.split_once("\n\nFor more") {
        Some((front, _)) => front,
        None => text,
    };
    text.trim_end()
}

/// What is known of words that clap refuses.
fn hint_of(word: &str) -> Option<&'static str> {
    match word {
        "8051" | "8052" | "8031" | "8032" | "80c51" | "c51" | "mcs-51" | "mcs52" => {
            Some("the word of the 8051 is mcs51.")
        }
        "msp430x" | "msp430X" | "MSP430X" => {
            Some("the MSP430X isn't covered; a compiler makes code of the MSP430 by -mcpu=msp430.")
        }
        "--version" | "-V" => Some("./vsa --version tells the version."),
        _ => None,
    }
}

/// The first hint that a word gives.
fn first_hint(words: &[String]) -> Option<&'static str> {
    words.iter().find_map(|word| hint_of(word.as_str()))
}

/// A text with the hint that the words give.
fn with_hint(words: &[String], text: String) -> Result<Slip, AllocError> {
    let mut text = text;
    let hinted = match first_hint(words) {
        Some(hint) => write!(text, "\n  {hint}"),
        None => Ok(()),
    };
    hinted.and(Ok(Slip::Wrong(text)))
}

/// What clap refuses, in words.
fn refused(alloc: Global, words: &[String], error: &Error) -> Result<Slip, AllocError> {
    if error.kind() == ErrorKind::DisplayHelp {
        return Ok(Slip::Help);
    }
    let text = sentence_of(alloc, error)?;
    with_hint(words, text)
}

/// A word that is no mode, or no chip where the mode is one.
fn wrong_place(
    alloc: Global,
    matches: &ArgMatches<'_>,
    mode: Option<Mode>,
) -> Result<String, AllocError> {
    if mode.is_none() {
        let word = matches.get_str("mode").unwrap_or("");
        return format!(in alloc;
            "there is no mode '{word}': it is analyse, assert, check, disasm, run or gen"
        );
    }
    let word = matches.get_str("chip").unwrap_or("");
    format!(in alloc; "there is no chip '{word}': it is msp430 or mcs51")
}

/// Whether RAM may stand in a range.
fn holds_ram(text: &[u8]) -> bool {
    match range_of(text) {
        Some(Span { lo, hi }) => RamRange::new(lo, hi, None).is_some(),
        None => false,
    }
}

/// Whether an option can't have a text.
fn is_wrong(option: OptionName, text: &str) -> bool {
    match option.value() {
        Value::Range => !holds_ram(text.as_bytes()),
        Value::Number { least, most } => number_in(text.as_bytes(), least, most).is_none(),
        Value::Nothing => false,
    }
}

/// The first option whose text is wrong, and the text.
fn wrong_option<'a>(matches: &'a ArgMatches<'_>) -> Option<(OptionName, &'a str)> {
    for option in OptionName::ALL.iter() {
        if let Some(text) = matches.get_str(option.word())
            && is_wrong(*option, text)
        {
            return Some((*option, text));
        }
    }
    None
}

/// What is wrong with the text of an option.
fn wrong_text_of(alloc: Global, option: OptionName, text: &str) -> Result<String, AllocError> {
    let name = option.word();
    match option.value() {
        Value::Number { least, most } => format!(in alloc;
            "'{text}' is no number for --{name}: {least} to {most}, by 1 to 7 decimal digits"
        ),
        _ => format!(in alloc;
            "'{text}' is no range for --{name}: two addresses of four hexadecimal digits, as 0200-03FF, of which the first is even and at least 0200, and the second odd and greater"
        ),
    }
}

/// The first mode that an option is of.
fn mode_with(option: OptionName) -> &'static str {
    match Mode::ALL.iter().find(|mode| option.is_of_mode(**mode)) {
        Some(mode) => mode.word(),
        None => "",
    }
}

/// Whether an option is given. A flag always has a text.
fn is_given(matches: &ArgMatches<'_>, option: OptionName) -> bool {
    match option.value() {
        Value::Nothing => matches.get_flag(option.word()),
        _ => matches.get_str(option.word()).is_some(),
    }
}

/// The first option that the mode or the chip doesn't take.
fn foreign_option(matches: &ArgMatches<'_>, mode: Mode, chip: ChipName) -> Option<OptionName> {
    for option in OptionName::ALL.iter() {
        let is_own = option.is_of_mode(mode) && option.is_of_chip(chip);
        if !is_own && is_given(matches, *option) {
            return Some(*option);
        }
    }
    None
}

/// What is wrong with an option that the mode, or else the chip, doesn't take.
fn foreign_text(alloc: Global, option: OptionName, mode: Mode) -> Result<String, AllocError> {
    let (name, word, own) = (option.word(), mode.word(), mode_with(option));
    if option.is_of_mode(mode) {
        return format!(in alloc; "--{name} is an option of msp430, and mcs51 doesn't take it");
    }
    match option.value() {
        Value::Range => format!(in alloc;
            "{word} doesn't take --{name}: a made program has the usual RAM"
        ),
        _ => format!(in alloc; "--{name} is an option of {own}, and {word} doesn't take it"),
    }
}

/// The range that an option says.
fn range_said(matches: &ArgMatches<'_>, option: OptionName) -> Option<Span> {
    range_of(matches.get_str(option.word())?.as_bytes())
}

/// Why RAM may not have its mirror, or else that gen lacks its number.
fn wrong_memory(matches: &ArgMatches<'_>, mode: Mode) -> &'static str {
    if mode == Mode::Gen {
        return "gen needs --number N, the number of functions, 1 to 2000";
    }
    let (lo, hi) = match range_said(matches, OptionName::Ram) {
        Some(ram) => (ram.lo, ram.hi),
        None => (USUAL_RAM.lo, USUAL_RAM.hi),
    };
    match range_said(matches, OptionName::Mirror) {
        Some(mirror) if mirror.lo <= hi && lo <= mirror.hi => {
            "--mirror names an address of RAM. Without --ram LO-HI RAM is 0200-09FF"
        }
        _ => "--mirror is longer than RAM. Without --ram LO-HI RAM is 0200-09FF",
    }
}

/// What the words ask, or what is wrong with them, where they are no valid command line.
pub fn slip_of(alloc: Global, words: &[String]) -> Result<Slip, AllocError> {
    match vsa_command(alloc)?.try_get_matches_from(words) {
        Ok(matches) => {
            let slip = wrong_words(alloc, words, &matches);
            drop(matches);
            slip
        }
        Err(error) => {
            let slip = refused(alloc, words, &error);
            drop(error);
            slip
        }
    }
}

/// What is wrong with words that clap takes.
fn wrong_words(
    alloc: Global,
    words: &[String],
    matches: &ArgMatches<'_>,
) -> Result<Slip, AllocError> {
    let mode = mode_of(matches.get_str("mode"));
    let chip = chip_of(matches.get_str("chip"));
    match (mode, chip) {
        (Some(mode), Some(chip)) => Ok(Slip::Wrong(wrong_options(alloc, matches, mode, chip)?)),
        _ => with_hint(words, wrong_place(alloc, matches, mode)?),
    }
}

/// What is wrong with the options: the text of one, or that the mode or the chip doesn't take it, or the memory that they say.
fn wrong_options(
    alloc: Global,
    matches: &ArgMatches<'_>,
    mode: Mode,
    chip: ChipName,
) -> Result<String, AllocError> {
    if let Some((option, text)) = wrong_option(matches) {
        return wrong_text_of(alloc, option, text);
    }
    match foreign_option(matches, mode, chip) {
        Some(option) => foreign_text(alloc, option, mode),
        None => String::from_str(alloc, wrong_memory(matches, mode)),
    }
}

/// Says what is wrong with the words.
pub fn print_slip(rt: &impl Eprint, alloc: Global, words: &[String]) -> io::Result<()> {
    match slip_of(alloc, words) {
        Ok(Slip::Help) => eprintln!(rt; "{USAGE}"),
        Ok(Slip::Wrong(text)) => eprintln!(rt;
            "vsa: {text}\nvsa: ./vsa --help says which words there are."
        ),
        Err(_) => eprintln!(rt;
            "vsa: the command line isn't valid; ./vsa --help says which words there are."
        ),
    }
}
