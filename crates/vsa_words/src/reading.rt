//! What a command line asks.

ghost use Rattle.std.specs.Prelude.{◌≡◌};
ghost use Rattle.vsa_words.specs.Words.{chip_word, mode_word, rules_of, tail_of, target_of, target_rules, usual_target, usual_task};

use analysis_limits::Limits;
use image::{ChipName, RamRange, Rules, Tail};

/// What is done with an image.
#[derive(Clone, Copy, Debug, PartialEq, Eq)]
pub enum Mode {
    /// It is analysed, and the report is written.
    Analyse,
    /// It is analysed, and assertions over the report are decided.
    Assert,
    /// A certificate behind it is checked, and the report of its table is written.
    Check,
    /// Its disassembly is written.
    Disasm,
    /// It runs along a script, and the trace is written.
    Run,
    /// A large program is made and analysed, and the report's summary is written.
    Gen,
}

impl Mode {
    /// All of them, in the order in which the usage has them.
    pub const ALL: [Mode; 6] = [
        Mode::Analyse,
        Mode::Assert,
        Mode::Check,
        Mode::Disasm,
        Mode::Run,
        Mode::Gen,
    ];

    /// Its word.
    pub fn word(self) -> &'static str
        ensures { result.now ≡ mode_word self }
    {
        match self {
            Mode::Analyse => "analyse",
            Mode::Assert => "assert",
            Mode::Check => "check",
            Mode::Disasm => "disasm",
            Mode::Run => "run",
            Mode::Gen => "gen",
        }
    }
}

/// The word of a chip.
pub fn word_of(chip: ChipName) -> &'static str
    ensures { result.now ≡ chip_word chip }
{
    match chip {
        ChipName::Msp430 => "msp430",
        ChipName::Mcs51 => "mcs51",
    }
}

/// RAM from 0200h to 09FFh, without a mirror.
pub const USUAL_RAM: RamRange = RamRange {
    lo: 0x0200,
    hi: 0x09FF,
    mirror: None,
};

/// A chip, with all that the words say of it.
#[derive(Clone, Copy, Debug, PartialEq, Eq)]
pub enum Target {
    Msp430 { ram: RamRange },
    Mcs51,
}

impl Target {
    /// A chip with the usual RAM.
    pub fn usual(chip: ChipName) -> Target
        ensures { result ≡ usual_target chip }
    {
        match chip {
            ChipName::Msp430 => Target::Msp430 { ram: USUAL_RAM },
            ChipName::Mcs51 => Target::Mcs51,
        }
    }

    /// The rules of an image.
    pub fn rules(self) -> Rules
        ensures { result ≡ target_rules self }
    {
        match self {
            Target::Msp430 { ram } => ram.rules(),
            Target::Mcs51 => Rules::Mcs51,
        }
    }
}

/// How an image is analysed.
#[derive(Clone, Copy, Debug, PartialEq, Eq)]
pub struct Task {
    pub target: Target,
    /// Call strings have at most 8 sites.
    pub limits: Limits,
    /// How many workers there are, 1 to 16.
    pub workers: u32,
    /// Whether the certificate of the table is written behind the report.
    pub cert: bool,
}

impl Task {
    /// How a made program is analysed: with the usual RAM and limits, by one worker.
    pub fn usual(chip: ChipName) -> Task
        ensures { result ≡ usual_task chip }
    {
        Task {
            target: Target::usual(chip),
            limits: Limits::USUAL,
            workers: 1,
            cert: false,
        }
    }
}

/// What the words ask.
#[derive(Clone, Copy, Debug, PartialEq, Eq)]
pub enum Reading {
    Analyse { task: Task },
    /// The assertions stand behind the image text.
    Assert { task: Task },
    /// The certificate stands behind the image text.
    Check { task: Task },
    Disasm { target: Target },
    /// At most so many steps, which are at most 1,000,000.
    Run { target: Target, steps: u32 },
    /// The analysis of a made program with so many functions, 1 to 2000, and the usual RAM and limits.
    Gen { chip: ChipName, number: u32 },
}

impl Reading {
    /// The chip whose image is read.
    fn target(self) -> Target
        ensures { result ≡ target_of self }
    {
        match self {
            Reading::Analyse { task } => task.target,
            Reading::Assert { task } => task.target,
            Reading::Check { task } => task.target,
            Reading::Disasm { target } => target,
            Reading::Run { target, .. } => target,
            Reading::Gen { chip, .. } => Target::usual(chip),
        }
    }

    /// The rules of an image.
    pub fn rules(self) -> Rules
        ensures { result ≡ rules_of self }
    {
        self.target().rules()
    }

    /// What is expected behind an image text.
    pub fn tail(self) -> Tail
        ensures { result ≡ tail_of self }
    {
        match self {
            Reading::Analyse { .. } => Tail::Blank,
            Reading::Assert { .. } => Tail::Second,
            Reading::Check { .. } => Tail::Second,
            Reading::Disasm { .. } => Tail::Blank,
            Reading::Run { .. } => Tail::Second,
            Reading::Gen { .. } => Tail::Blank,
        }
    }
}
