//! The options of a command line.

ghost use Rattle.std.specs.Prelude.{◌≡◌, ◌↔◌, ℕ, Option, IsTrue, MatchOption, true};
ghost use Rattle.clap.specs.Words.{first_value, found_of};
ghost use Rattle.vsa_words.specs.declared.numbers.Span.{Span as ASpan};
ghost use Rattle.vsa_words.specs.declared.options.Options.{Options as AOptions};
ghost use Rattle.vsa_words.specs.Options.{Fits, IsFitting, Say, SaysNumber, SaysRange, is_given, is_of_chip as the_chip_has, is_of_mode as the_mode_has, is_said, option_word, takes_number, value_of};

use crate::numbers::{Span, number_in, range_of};
use crate::reading::Mode;
use clap::ArgMatches;
use image::ChipName;

/// The name of an option.
#[derive(Clone, Copy, Debug, PartialEq, Eq)]
pub enum OptionName {
    /// Where the MSP430's RAM stands.
    Ram,
    /// Where it answers a second time.
    Mirror,
    /// How many call sites a location keeps.
    Calls,
    /// How many targets of one instruction are followed.
    Targets,
    /// How many workers analyse.
    Workers,
    /// How many steps a run has at most.
    Steps,
    /// How many functions a made program has.
    Number,
    /// That a certificate is written.
    Cert,
}

/// What stands behind an option.
#[derive(Clone, Copy, Debug, PartialEq, Eq)]
pub enum Value {
    /// Two addresses, as `0200-09FF`.
    Range,
    /// A number from one to another.
    Number { least: u32, most: u32 },
    /// Nothing.
    Nothing,
}

impl OptionName {
    /// All of them, in the order in which the usage has them.
    pub const ALL: [OptionName; 8] = [
        OptionName::Ram,
        OptionName::Mirror,
        OptionName::Calls,
        OptionName::Targets,
        OptionName::Workers,
        OptionName::Steps,
        OptionName::Number,
        OptionName::Cert,
    ];

    /// Its word, which stands behind two hyphens.
    pub fn word<'a>(self) -> &'a str
        ensures { result.now ≡ option_word self }
    {
        match self {
            OptionName::Ram => "ram",
            OptionName::Mirror => "mirror",
            OptionName::Calls => "calls",
            OptionName::Targets => "targets",
            OptionName::Workers => "workers",
            OptionName::Steps => "steps",
            OptionName::Number => "number",
            OptionName::Cert => "cert",
        }
    }

    /// What stands behind it.
    pub fn value(self) -> Value
        ensures { result ≡ value_of self }
    {
        match self {
            OptionName::Ram | OptionName::Mirror => Value::Range,
            OptionName::Calls => Value::Number { least: 0, most: 8 },
            OptionName::Targets => Value::Number {
                least: 1,
                most: 256,
            },
            OptionName::Workers => Value::Number { least: 1, most: 16 },
            OptionName::Steps => Value::Number {
                least: 0,
                most: 1_000_000,
            },
            OptionName::Number => Value::Number {
                least: 1,
                most: 2000,
            },
            OptionName::Cert => Value::Nothing,
        }
    }

    /// Whether it is an option of a mode.
    pub fn is_of_mode(self, mode: Mode) -> bool
        ensures { result ≡ the_mode_has self mode }
    {
        match self {
            OptionName::Ram | OptionName::Mirror => !matches!(mode, Mode::Gen),
            OptionName::Calls | OptionName::Targets => {
                matches!(mode, Mode::Analyse | Mode::Assert | Mode::Check)
            }
            OptionName::Workers => matches!(mode, Mode::Analyse | Mode::Assert),
            OptionName::Steps => matches!(mode, Mode::Run),
            OptionName::Number => matches!(mode, Mode::Gen),
            OptionName::Cert => matches!(mode, Mode::Analyse),
        }
    }

    /// Whether it is an option of a chip.
    pub fn is_of_chip(self, chip: ChipName) -> bool
        ensures { result ≡ the_chip_has self chip }
    {
        match self {
            OptionName::Ram | OptionName::Mirror => matches!(chip, ChipName::Msp430),
            _ => true,
        }
    }
}

/// What the options of the words say.
#[derive(Clone, Copy, Debug, PartialEq, Eq)]
pub struct Options {
    pub ram: Option<Span>,
    pub mirror: Option<Span>,
    pub calls: Option<u8>,
    pub targets: Option<u32>,
    pub workers: Option<u32>,
    pub steps: Option<u32>,
    pub number: Option<u32>,
    pub cert: bool,
}

impl Options {
    /// Whether they say something of an option.
    fn says(&self, option: OptionName) -> bool
        ensures { result ≡ is_said self.now option }
    {
        match option {
            OptionName::Ram => self.ram.is_some(),
            OptionName::Mirror => self.mirror.is_some(),
            OptionName::Calls => self.calls.is_some(),
            OptionName::Targets => self.targets.is_some(),
            OptionName::Workers => self.workers.is_some(),
            OptionName::Steps => self.steps.is_some(),
            OptionName::Number => self.number.is_some(),
            OptionName::Cert => self.cert,
        }
    }

    /// Whether they say nothing of an option, or it is one of the mode and of the chip.
    fn fits(&self, mode: Mode, chip: ChipName, option: OptionName) -> bool
        ensures { IsTrue result ↔ IsFitting mode chip self.now option }
    {
        !self.says(option) || option.is_of_mode(mode) && option.is_of_chip(chip)
    }

    /// Whether each option of which they say something is one of the mode and of the chip.
    pub fn fit(&self, mode: Mode, chip: ChipName) -> bool
        ensures { IsTrue result ↔ Fits mode chip self.now }
    {
        for option in OptionName::ALL {
            if !self.fits(mode, chip, option) {
                return false;
            }
        }
        true
    }
}

/// What an option says by a range, where it is there: none, if its text is no range.
fn range_said(matches: &ArgMatches<'_>, option: OptionName) -> Option<Option<Span>>
    ensures { MatchOption result ((said : Option ASpan) → ¬ SaysRange (first_value (found_of matches.now)) option said)
        (SaysRange (first_value (found_of matches.now)) option) }
{
    match matches.get_str(option.word()) {
        None => Some(None),
        Some(text) => Some(Some(range_of(text.as_bytes())?)),
    }
}

/// What an option says by a number, where it is there: none, if its text is no number that it takes.
fn number_said(matches: &ArgMatches<'_>, option: OptionName) -> Option<Option<u32>>
    requires { takes_number option ≡ true }
    ensures { MatchOption result ((said : Option ℕ) → ¬ SaysNumber (first_value (found_of matches.now)) option said)
        (SaysNumber (first_value (found_of matches.now)) option) }
{
    let Value::Number { least, most } = option.value() else {
        unreachable!()
    };
    match matches.get_str(option.word()) {
        None => Some(None),
        Some(text) => Some(Some(number_in(text.as_bytes(), least, most)?)),
    }
}

/// What `--calls` says.
fn calls_said(matches: &ArgMatches<'_>) -> Option<Option<u8>>
    ensures { MatchOption result ((said : Option ℕ) → ¬ SaysNumber (first_value (found_of matches.now)) OptionName.Calls said)
        (SaysNumber (first_value (found_of matches.now)) OptionName.Calls) }
{
    match number_said(matches, OptionName::Calls)? {
        None => Some(None),
        Some(calls) => Some(Some(calls as u8)),
    }
}

/// Whether a flag is given.
fn flag_said(matches: &ArgMatches<'_>, option: OptionName) -> bool
    ensures { result ≡ is_given (first_value (found_of matches.now) (option_word option)) }
{
    match matches.get_str(option.word()) {
        None => false,
        Some(text) => text == "true",
    }
}

/// What the options say: none, if one of them doesn't take its text.
pub fn options_of(matches: &ArgMatches<'_>) -> Option<Options>
    ensures { MatchOption result ((options : AOptions) → ¬ Say (first_value (found_of matches.now)) options)
        (Say (first_value (found_of matches.now))) }
{
    Some(Options {
        ram: range_said(matches, OptionName::Ram)?,
        mirror: range_said(matches, OptionName::Mirror)?,
        calls: calls_said(matches)?,
        targets: number_said(matches, OptionName::Targets)?,
        workers: number_said(matches, OptionName::Workers)?,
        steps: number_said(matches, OptionName::Steps)?,
        number: number_said(matches, OptionName::Number)?,
        cert: flag_said(matches, OptionName::Cert),
    })
}
