//! Which items break an assertion.

ghost use Rattle.std.specs.Prelude.{◌≡◌, if◌then◌else◌, not};
ghost use Rattle.assert_check.specs.Assertions.{breaks_item, is_same, no_access};
ghost use Rattle.assert_check.specs.declared.assertion.Assertion.TheVariants as asserted;

use crate::assertion::Assertion;
use crate::reaching::{is_between, leaves, reaches};
use call_context::Item;
use chip_numbers::Space;

/// Whether two spaces are one.
pub(crate) fn is_same(a: Space, b: Space) -> bool
    ensures { result ≡ is_same a b }
{
    a == b
}

/// Whether an instruction of the range runs.
fn runs_in(item: &Item, lo: u16, hi: u16) -> bool
    ensures { result ≡ breaks_item (asserted.NoExec lo hi) item.now }
{
    match item {
        Item::Instr { pc, .. } => is_between(lo, hi, *pc),
        Item::Edge { .. } | Item::Access { .. } | Item::Stack { .. } => false,
    }
}

/// Whether an access is one that is asked for: a write, or a read.
fn is_asked(write: bool, asked: bool) -> bool
    ensures { result ≡ (if asked then write else not write) }
{
    if asked { write } else { !write }
}

/// Whether a byte of the range is written, or read.
fn accesses_in(item: &Item, writes: bool, space: Space, lo: u16, hi: u16) -> bool
    ensures { result ≡ breaks_item (no_access writes space lo hi) item.now }
{
    match item {
        Item::Access {
            space: its,
            write,
            size,
            at,
            ..
        } => is_asked(*write, writes) && is_same(space, *its) && reaches(at, *size, lo, hi),
        Item::Instr { .. } | Item::Edge { .. } | Item::Stack { .. } => false,
    }
}

/// Whether a stack pointer at an address of the first range leaves the second one.
fn stands_outside(item: &Item, from: u16, to: u16, lo: u16, hi: u16) -> bool
    ensures { result ≡ breaks_item (asserted.Stack from to lo hi) item.now }
{
    match item {
        Item::Stack { pc, at } => is_between(from, to, *pc) && leaves(at, lo, hi),
        Item::Instr { .. } | Item::Edge { .. } | Item::Access { .. } => false,
    }
}

/// Whether some of what an item shows breaks the assertion.
pub fn breaks(assertion: Assertion, item: &Item) -> bool
    ensures { result ≡ breaks_item assertion item.now }
{
    match assertion {
        Assertion::NoExec { lo, hi } => runs_in(item, lo, hi),
        Assertion::NoRead { space, lo, hi } => accesses_in(item, false, space, lo, hi),
        Assertion::NoWrite { space, lo, hi } => accesses_in(item, true, space, lo, hi),
        Assertion::Stack { from, to, lo, hi } => stands_outside(item, from, to, lo, hi),
    }
}
