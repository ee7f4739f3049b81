//! How far the stack has grown.

use hex_digits::byte;
use report_lines::{Line, Report, Set, cut};

/// The stack of a report: its first value, and how far it grows at most.
#[derive(Clone, Copy)]
pub struct Depths {
    pub grows_up: bool,
    /// The value from which the stack grows.
    pub top: u16,
    /// The value that is farthest from it.
    pub extreme: u16,
}

impl Depths {
    /// The stack of a report, if some S line says something of it.
    pub fn of(report: &Report<'_>) -> Option<Depths> {
        let extreme = report.summary.extreme?;
        let grows_up = report.grows_up();
        let top = match first_set(report) {
            Some(top) => top,
            None => top_of(report, extreme),
        };
        Some(Depths {
            grows_up,
            top,
            extreme,
        })
    }

    /// The first place of a report where the stack is deepest.
    pub fn deepest_place(&self, report: &Report<'_>) -> Option<u16> {
        for line in report.lines.iter() {
            if let Line::Stack(stack) = line
                && !stack.at.is_whole()
                && report.deepest(&stack.at) == self.extreme
            {
                return Some(stack.pc);
            }
        }
        None
    }

    /// How far a value lies from the first one.
    pub fn of_value(&self, value: u16) -> u16 {
        if self.grows_up {
            value.saturating_sub(self.top)
        } else {
            self.top.saturating_sub(value)
        }
    }

    /// How far the stack grows at most.
    pub fn most(&self) -> u16 {
        self.of_value(self.extreme)
    }

    /// The least and the greatest depth in a set.
    pub fn of_set(&self, set: &Set<'_>) -> (u16, u16) {
        let (least, greatest) = (self.of_value(set.least), self.of_value(set.greatest));
        if self.grows_up {
            (least, greatest)
        } else {
            (greatest, least)
        }
    }

    /// The least and the greatest depth in some sets, where one says something.
    pub fn of_sets(&self, sets: &Vec<Set<'_>>) -> Option<(u16, u16)> {
        let mut bounds = None;
        for set in sets.iter() {
            if !set.is_whole() {
                bounds = Some(wider(bounds, self.of_set(set)));
            }
        }
        bounds
    }

    /// A depth in parts of a hundred of the greatest one.
    pub fn share(&self, depth: u16) -> usize {
        let most = usize::from(self.most());
        if most == 0 {
            return 0;
        }
        usize::from(depth).wrapping_mul(100) / most
    }
}

/// The value of a report from which the stack grows, where no instruction sets it.
fn top_of(report: &Report<'_>, extreme: u16) -> u16 {
    let grows_up = report.grows_up();
    let mut top = extreme;
    for line in report.lines.iter() {
        if let Line::Stack(stack) = line
            && !stack.at.is_whole()
        {
            top = if grows_up {
                top.min(stack.at.least)
            } else {
                top.max(stack.at.greatest)
            };
        }
    }
    top
}

/// Where the MCS-51's program sets its stack pointer, by an instruction such as `MOV 81h,#08h`: the least such value. Until then
/// it has the reset's, from which nothing grows.
fn first_set(report: &Report<'_>) -> Option<u16> {
    if !report.grows_up() {
        return None;
    }
    let mut least: Option<u16> = None;
    for line in report.lines.iter() {
        if let Line::Instr(instr) = line
            && let Some(value) = value_set(instr.text)
        {
            least = Some(match least {
                None => value,
                Some(known) => known.min(value),
            });
        }
    }
    least
}

/// The value that an instruction of the MCS-51 sets its stack pointer to, by a constant.
fn value_set(text: &[u8]) -> Option<u16> {
    match cut(text, b'#') {
        Some((b"MOV 81h,", [digits @ .., b'h'])) => byte(digits),
        _ => None,
    }
}

/// The least and the greatest of two pairs.
fn wider(known: Option<(u16, u16)>, (least, most): (u16, u16)) -> (u16, u16) {
    match known {
        None => (least, most),
        Some((low, high)) => (low.min(least), high.max(most)),
    }
}
