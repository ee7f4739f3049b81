//! The lines of a report, and how many there are of each kind.

ghost use Rattle.std.specs.Prelude.{◌≡◌, ◌++◌, ◌∷◌, ◌+◌, ◌<◌, ◌^◌, [], if◌then◌else◌, OnOk};
ghost use Rattle.report_bytes.specs.Report as report;
ghost use Rattle.report_bytes.specs.Counting.{AreSmall, counts_with};
ghost use Rattle.std.specs.BTreeSet.{insert_key};
ghost use Rattle.std.specs.Cmp.Lexicographic.{slice_cmp};
ghost use Rattle.std.specs.List.{flat_map};
ghost use Rattle.std.specs.Ordering.{nat_cmp};

use std::alloc::{AllocError, Global};
use std::collections::BTreeSet;
use std::marker::Model;

/// How many lines of a report there are of each kind, by their first letters, and how many of them tell a whole set of
/// stack pointers.
#[derive(Clone, Copy, Debug, PartialEq, Eq)]
pub struct Counts {
    pub edges: u64,
    pub instrs: u64,
    pub accesses: u64,
    pub opens: u64,
    pub stacks: u64,
    pub whole: u64,
}

/// Whether a line begins with this letter.
fn begins_with(line: &[u8], letter: u8) -> bool
    ensures { result ≡ report.begins_with letter line.now }
{
    match line {
        [first, ..] => *first == letter,
        [] => false,
    }
}

/// Whether a line tells a whole set of stack pointers.
fn is_whole_stack(line: &[u8]) -> bool
    ensures { result ≡ report.is_whole_stack line.now }
{
    line.starts_with(b"S ") && (line.ends_with(b" *") || line.ends_with(b" 0000/2/8000"))
}

/// A count, or one more.
fn more(count: u64, is_one_more: bool) -> u64
    requires { count < 2 ^ 63 }
    ensures { result ≡ count + (if is_one_more then 1 else 0) }
{
    if is_one_more { count + 1 } else { count }
}

impl Counts {
    /// No line.
    fn none() -> Counts
        ensures { result ≡ report.counts_of [] }
    {
        Counts {
            edges: 0,
            instrs: 0,
            accesses: 0,
            opens: 0,
            stacks: 0,
            whole: 0,
        }
    }

    /// One more line.
    fn with(self, line: &[u8]) -> Counts
        requires { AreSmall self }
        ensures { result ≡ counts_with self line.now }
    {
        Counts {
            edges: more(self.edges, begins_with(line, b'E')),
            instrs: more(self.instrs, begins_with(line, b'I')),
            accesses: more(self.accesses, begins_with(line, b'M')),
            opens: more(self.opens, begins_with(line, b'O')),
            stacks: more(self.stacks, begins_with(line, b'S')),
            whole: more(self.whole, is_whole_stack(line)),
        }
    }
}

/// Lines in the order of their bytes, each once, and their counts. A line is counted as it comes in, so that none is looked
/// at again. Contracts see the bytes of the lines.
#[derive(Drop)]
pub struct Lines {
    set: BTreeSet<Vec<u8>>,
    counts: Counts,
}

impl Model for Lines {
    ghost use Rattle.std.specs.Prelude.{◌≡◌, ℕ, List};
    ghost use Rattle.report_bytes.specs.Report.{bytes_of, counts_of};

    ghost Value = { List (List ℕ) };

    ghost view = { λ l. bytes_of l.set.keys };

    ghost invariant = { λ l. l.counts ≡ counts_of (bytes_of l.set.keys) };
}

impl Lines {
    /// No line.
    pub fn new(alloc: Global) -> Lines
        ensures { result ≡ [] }
    {
        Lines {
            set: BTreeSet::new(alloc),
            counts: Counts::none(),
        }
    }

    /// Puts a line in its place, if it isn't there.
    pub fn add(&mut self, line: Vec<u8>) -> Result<(), AllocError>
        ensures { OnOk result (self.new ≡ insert_key (slice_cmp nat_cmp) self.old line.items) }
    {
        // So few lines that no count is at its end.
        let _few = self.set.len();
        let counts = self.counts.with(line.as_slice());
        let is_new = self.set.insert(line)?;
        if is_new {
            self.counts = counts;
        }
        Ok(())
    }

    /// How many there are.
    pub fn counts(&self) -> Counts
        ensures { result ≡ report.counts_of self.now }
    {
        self.counts
    }

    /// Adds them to a text, with a line feed each.
    pub fn push_to(&self, text: &mut Vec<u8>) -> Result<(), AllocError>
        ensures { OnOk result (text.new.items ≡ text.old.items ++ flat_map (λ line. line ++ 10 ∷ []) self.now) }
    {
        for line in &self.set {
            text.extend_from_slice(line.as_slice())?;
            text.push(b'\n')?;
        }
        Ok(())
    }
}
