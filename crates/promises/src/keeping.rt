//! Which steps keep promises.

ghost use Rattle.std.specs.Prelude.{◌≡◌, ◌==◌, map, Some};
ghost use Rattle.std.specs.List.{list_any, list_all};
ghost use Rattle.promises.specs.Breaking as breaking;
ghost use Rattle.promises.specs.Keeping as keeping;

use crate::promise::Window;
use crate::spoken::Growth;
use call_context::{Item, Set, Space};
use value_set::sets_have_members;

/// The first number of a set.
fn number_in(set: &Set) -> u16
    ensures { result ≡ breaking.number_in set.now }
{
    sets_have_members();
    match set {
        Set::B(bytes) => {
            let _form = bytes.form();
            bytes.nth(0) as u16
        }
        Set::W(words) => {
            let _form = words.form();
            words.nth(0)
        }
    }
}

/// The address of the instruction that runs in a step.
pub fn pc_of(items: &[Item]) -> Option<u16>
    ensures { result ≡ keeping.pc_of (map breaking.single_of items.now) }
{
    let [first, rest @ ..] = items else {
        return None;
    };
    match first {
        Item::Instr { pc, .. } => Some(*pc),
        Item::Edge { .. } | Item::Access { .. } | Item::Stack { .. } => pc_of(rest),
    }
}

/// The stack pointer before a step.
fn sp_of(items: &[Item]) -> Option<u16>
    ensures { result ≡ keeping.sp_of (map breaking.single_of items.now) }
{
    let [first, rest @ ..] = items else {
        return None;
    };
    match first {
        Item::Stack { at, .. } => Some(number_in(at)),
        Item::Instr { .. } | Item::Edge { .. } | Item::Access { .. } => sp_of(rest),
    }
}

/// Whether so many bytes from an address on stand in a window.
fn is_in(window: Window, sp: u16, at: u16, size: u8) -> bool
    ensures { result ≡ keeping.is_in window sp at size }
{
    let behind = at as u32 + size as u32;
    match window {
        Window::Between { lo, hi } => lo <= at && behind.saturating_sub(1) <= hi as u32,
        Window::BelowStack { lo } => lo <= at && behind <= sp as u32,
        Window::AboveStack { hi } => sp < at && behind.saturating_sub(1) <= hi as u32,
    }
}

/// Whether they stand in one of the windows.
fn is_in_one(windows: &[Window], sp: u16, at: u16, size: u8) -> bool
    ensures { result ≡ keeping.is_in_one windows.now sp at size }
{
    windows.iter().any(|window| is_in(*window, sp, at, size))
}

/// The same, where the stack pointer may be unknown.
fn stands_in(windows: &[Window], sp: Option<u16>, at: u16, size: u8) -> bool
    ensures { result ≡ keeping.stands_in windows.now sp at size }
{
    match sp {
        Some(sp) => is_in_one(windows, sp, at, size),
        None => false,
    }
}

/// Whether promises have their windows in a space.
fn is_memory(growth: Growth, space: Space) -> bool
    ensures { result ≡ keeping.is_memory growth space }
{
    match growth {
        Growth::Down => space == Space::Mem,
        Growth::Up => space == Space::Ram,
    }
}

/// Whether what an item writes stands in one of the windows.
fn writes_in(growth: Growth, windows: &[Window], sp: Option<u16>, item: &Item) -> bool
    ensures { result ≡ keeping.writes_in growth windows.now sp (breaking.single_of item.now) }
{
    match item {
        Item::Access {
            space,
            write,
            size,
            at,
            ..
        } => {
            if *write && is_memory(growth, *space) {
                stands_in(windows, sp, number_in(at), *size)
            } else {
                true
            }
        }
        Item::Instr { .. } | Item::Edge { .. } | Item::Stack { .. } => true,
    }
}

/// Whether what each item writes does.
fn all_write_in(growth: Growth, windows: &[Window], sp: Option<u16>, items: &[Item]) -> bool
    ensures { result ≡ list_all (λ item. keeping.writes_in growth windows.now sp (breaking.single_of item)) items.now }
{
    items
        .iter()
        .all(|item| writes_in(growth, windows, sp, item))
}

/// Whether each write of a step stands in one of the windows.
pub fn keeps_windows(growth: Growth, windows: &[Window], items: &[Item]) -> bool
    ensures { result ≡ keeping.keeps_windows growth (Some windows.now) (map breaking.single_of items.now) }
{
    all_write_in(growth, windows, sp_of(items), items)
}

/// Whether an address is one of these.
fn is_one_of(targets: &[u16], to: u16) -> bool
    ensures { result ≡ list_any (λ at. at == to) targets.now }
{
    targets.iter().any(|target| *target == to)
}

/// Whether an item goes to one of the targets.
fn goes_to(targets: &[u16], item: &Item) -> bool
    ensures { result ≡ keeping.goes_to targets.now (breaking.single_of item.now) }
{
    match item {
        Item::Edge { to, .. } => is_one_of(targets, *to),
        Item::Instr { .. } | Item::Access { .. } | Item::Stack { .. } => true,
    }
}

/// Whether each item does.
fn all_go_to(targets: &[u16], items: &[Item]) -> bool
    ensures { result ≡ list_all (λ item. keeping.goes_to targets.now (breaking.single_of item)) items.now }
{
    items.iter().all(|item| goes_to(targets, item))
}

/// Whether a step goes to one of the targets.
pub fn keeps_targets(targets: &[u16], items: &[Item]) -> bool
    ensures { result ≡ keeping.keeps_targets (Some targets.now) (map breaking.single_of items.now) }
{
    all_go_to(targets, items)
}
