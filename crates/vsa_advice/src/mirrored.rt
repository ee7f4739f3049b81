//! Assertions on the mirror of RAM, which nothing can break.

ghost use Rattle.image.specs.Kept.{IsRamRange};

use assert_check::{Assertion, MOST_BYTES as MOST_SECOND, read_lines};
use chip_numbers::Space;
use ihex_read::{MOST_BYTES, Reader, Rules, Tail};
use image::RamRange;
use std::alloc::Global;
use vsa_words::{Reading, Target, reading_of};

/// An assertion on bytes of the mirror alone: its line, and where the mirrored RAM begins.
#[derive(Clone, Copy)]
pub struct Mirrored {
    pub line: u32,
    pub ram: u16,
}

/// Whether an assertion is on accesses to bytes of the mirror alone.
fn is_mirrored(assertion: Assertion, mirror: (u16, u16)) -> bool {
    match assertion {
        Assertion::NoRead { lo, hi, .. } | Assertion::NoWrite { lo, hi, .. } => {
            mirror.0 <= lo && hi <= mirror.1
        }
        Assertion::NoExec { .. } | Assertion::Stack { .. } => false,
    }
}

/// The second text behind the image text.
fn second_of(alloc: Global, rules: Rules, text: &[u8]) -> Option<&[u8]>
    requires { IsRamRange rules }
{
    let front = &text[..text.len().min(MOST_BYTES)];
    let mut reader = Reader::new(alloc, rules, Tail::Second).ok()?;
    let used = reader.feed(front).ok();
    drop(reader);
    Some(&text[used?..])
}

/// The RAM that the words of assertions name, with its mirror.
fn mirror_of(target: Target) -> Option<(RamRange, (u16, u16))> {
    match target {
        Target::Msp430 { ram } => Some((ram, ram.mirror?)),
        Target::Mcs51 => None,
    }
}

/// The first assertion that stands in a text behind the image text and is on bytes of the mirror alone. Accesses to these are told
/// by RAM's addresses, so nothing can break it.
pub fn mirrored_in(alloc: Global, words: &[String], text: &[u8]) -> Option<Mirrored> {
    let Reading::Assert { task } = reading_of(alloc, words).ok()?? else {
        return None;
    };
    let (ram, mirror) = mirror_of(task.target)?;
    let second = second_of(alloc, task.target.rules(), text)?;
    if second.len() > MOST_SECOND {
        return None;
    }
    let list = read_lines(alloc, second, &[Space::Mem]).ok()?;
    for (line, assertion) in list.as_slice() {
        if is_mirrored(*assertion, mirror) {
            let (line, ram) = (*line, ram.lo);
            return Some(Mirrored { line, ram });
        }
    }
    None
}
