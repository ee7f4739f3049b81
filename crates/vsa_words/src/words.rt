//! The words of the command line.

ghost use Rattle.std.specs.Prelude.{◌≡◌, IfNone, IfOk, IfSome, MatchOption, Some};
ghost use Rattle.image.specs.Kept.{IsRamRange};
ghost use Rattle.image.specs.declared.chip_name.ChipName.{ChipName as AChip};
ghost use Rattle.vsa_words.specs.declared.reading.Mode.{Mode as AMode};
ghost use Rattle.vsa_words.specs.declared.reading.Reading.{Reading as AReading};
ghost use Rattle.vsa_words.specs.Words.{Ask, EndsInMemory, IsAllowed, IsAsked, IsBounded, IsOnlyReading, Reads, asked, chip_word, limits_by, mode_word, rules_of, target_by as the_target_by, target_rules, task_of as the_task, text_of};

use crate::command::matches_of;
use crate::options::{Options, options_of};
use crate::reading::{Mode, Reading, Target, Task, USUAL_RAM};
use analysis_limits::Limits;
use image::{ChipName, RamRange};
use std::alloc::{AllocError, Global};

/// How many steps a run has, if the words don't say.
const USUAL_STEPS: u32 = 100;

/// The mode of a text, where it is there.
pub fn mode_of(text: Option<&str>) -> Option<Mode>
    ensures { MatchOption result ((mode : AMode) → ¬ (text_of text.entry ≡ Some (mode_word mode))) (λ mode. text_of text.entry ≡ Some (mode_word mode)) }
{
    let text = text?;
    if text == "analyse" {
        Some(Mode::Analyse)
    } else if text == "assert" {
        Some(Mode::Assert)
    } else if text == "check" {
        Some(Mode::Check)
    } else if text == "disasm" {
        Some(Mode::Disasm)
    } else if text == "run" {
        Some(Mode::Run)
    } else if text == "gen" {
        Some(Mode::Gen)
    } else {
        None
    }
}

/// The chip of a text, where it is there.
pub fn chip_of(text: Option<&str>) -> Option<ChipName>
    ensures { MatchOption result ((chip : AChip) → ¬ (text_of text.entry ≡ Some (chip_word chip))) (λ chip. text_of text.entry ≡ Some (chip_word chip)) }
{
    let text = text?;
    if text == "msp430" {
        Some(ChipName::Msp430)
    } else if text == "mcs51" {
        Some(ChipName::Mcs51)
    } else {
        None
    }
}

/// The chip with the RAM that the options say, where its RAM and its mirror may stand there.
fn target_by(chip: ChipName, options: Options) -> Option<Target>
    ensures { MatchOption result (¬ IsRamRange (target_rules (the_target_by chip options)))
        (λ target. (target ≡ the_target_by chip options) × IsRamRange (target_rules target)) }
{
    let mirror = options.mirror.map(|said| (said.lo, said.hi));
    let (lo, hi) = match options.ram {
        Some(said) => (said.lo, said.hi),
        None => (USUAL_RAM.lo, USUAL_RAM.hi),
    };
    match chip {
        ChipName::Msp430 => Some(Target::Msp430 {
            ram: RamRange::new(lo, hi, mirror)?,
        }),
        ChipName::Mcs51 => Some(Target::Mcs51),
    }
}

/// The limits that the options say, and else the usual ones.
fn limits_of(options: Options) -> Limits
    ensures { result ≡ limits_by options.calls options.targets }
{
    Limits {
        calls: options.calls.unwrap_or(Limits::USUAL.calls),
        targets: options.targets.unwrap_or(Limits::USUAL.targets),
    }
}

/// How the options have an image of a chip analysed.
fn task_of(target: Target, options: Options) -> Task
    ensures { result ≡ the_task target options }
{
    Task {
        target,
        limits: limits_of(options),
        workers: options.workers.unwrap_or(1),
        cert: options.cert,
    }
}

/// What a mode, a chip and options that fit ask, where RAM and its mirror may stand there.
fn asked_by(mode: Mode, chip: ChipName, options: Options) -> Option<Reading>
    ensures { IsAllowed (asked mode chip options) result }
{
    if let Mode::Gen = mode {
        let number = options.number?;
        return Some(Reading::Gen { chip, number });
    }
    let target = target_by(chip, options)?;
    let task = task_of(target, options);
    let steps = options.steps.unwrap_or(USUAL_STEPS);
    match mode {
        Mode::Analyse => Some(Reading::Analyse { task }),
        Mode::Assert => Some(Reading::Assert { task }),
        Mode::Check => Some(Reading::Check { task }),
        Mode::Disasm => Some(Reading::Disasm { target }),
        Mode::Run => Some(Reading::Run { target, steps }),
        Mode::Gen => unreachable!(),
    }
}

/// What a mode, a chip and options ask, where all three are there and fit.
fn reading_with(
    mode: Option<Mode>,
    chip: Option<ChipName>,
    options: Option<Options>,
) -> Option<Reading>
    ensures { IsAsked mode chip options result }
{
    let (mode, chip, options) = (mode?, chip?, options?);
    if options.fit(mode, chip) {
        asked_by(mode, chip, options)
    } else {
        None
    }
}

/// The one reading of the words, or that they have none.
fn only_reading(alloc: Global, words: &[String]) -> Result<Option<Reading>, AllocError>
    ensures { IfOk result (IsOnlyReading words.now) }
{
    let Some(matches) = matches_of(alloc, words)? else {
        return Ok(None);
    };
    let mode = mode_of(matches.get_str("mode"));
    let chip = chip_of(matches.get_str("chip"));
    Ok(reading_with(mode, chip, options_of(&matches)))
}

/// What the words ask, where the command takes them, the mode and the chip have the options, and RAM and its mirror stand
/// where the chip lets them. A made program needs its number.
pub fn reading_of(alloc: Global, words: &[String]) -> Result<Option<Reading>, AllocError>
    ensures reads { IfOk result (λ found. IfSome found (Reads words.now)) }
    ensures range { IfOk result (λ found. IfSome found (λ reading. IsRamRange (rules_of reading))) }
    ensures end { IfOk result (λ found. IfSome found (λ reading. EndsInMemory (rules_of reading))) }
    ensures bounded { IfOk result (λ found. IfSome found IsBounded) }
    ensures alone { IfOk result (λ found. IfSome found (λ reading. (other : AReading) → Reads words.now other → other ≡ reading)) }
    ensures none { IfOk result (λ found. IfNone found ((reading : AReading) → ¬ Reads words.now reading)) }
{
    only_reading(alloc, words)
}
