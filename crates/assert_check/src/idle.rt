//! Which assertions hold for want of anything that could break them.

ghost use Rattle.std.specs.Prelude.{◌≡◌, flat_map, IfOk};
ghost use Rattle.std.specs.List.{list_any};
ghost use Rattle.std.specs.Map.{values_of};
ghost use Rattle.assert_check.specs.Idle.{idle_of, is_access_in as the_access_in, is_idle as the_idle};

use crate::assertion::Assertion;
use crate::breaking::is_same;
use call_context::{Item, Unit};
use chip_analysis::{OrderlyChip, Work};
use chip_numbers::Space;
use closing_law::ClosedBook;
use no_memory::Memory;
use std::alloc::Global;

/// Whether an item is an access to the space.
fn is_access_in(space: Space, item: &Item) -> bool
    ensures { result ≡ the_access_in space item.now }
{
    match item {
        Item::Access { space: its, .. } => is_same(space, *its),
        Item::Instr { .. } | Item::Edge { .. } | Item::Stack { .. } => false,
    }
}

/// Whether one of some items is one.
fn are_access_in(space: Space, items: &[Item]) -> bool
    ensures { result ≡ list_any (the_access_in space) items.now }
{
    items.iter().any(|item| is_access_in(space, item))
}

/// Whether one of some works shows one.
fn show_access_in<A>(space: Space, works: &[(Unit, Work<A>)]) -> bool
    ensures { result ≡ list_any (λ pair. list_any (the_access_in space) pair.1.items) works.now }
{
    works
        .iter()
        .any(|pair| are_access_in(space, pair.1.items.as_slice()))
}

/// Whether one of all items of works is one.
fn is_accessed<A>(space: Space, works: &[(Unit, Work<A>)]) -> bool
    ensures { result ≡ list_any (the_access_in space) (flat_map (λ work. work.items) (values_of works.now)) }
{
    show_access_in(space, works)
}

/// Whether the assertion is on accesses to a space to which works show none.
fn is_idle<A>(assertion: Assertion, works: &[(Unit, Work<A>)]) -> bool
    ensures { result ≡ the_idle (flat_map (λ work. work.items) (values_of works.now)) assertion }
{
    match assertion {
        Assertion::NoRead { space, .. } | Assertion::NoWrite { space, .. } => {
            !is_accessed(space, works)
        }
        Assertion::NoExec { .. } | Assertion::Stack { .. } => false,
    }
}

/// The lines of the assertions on accesses to a space to which a closed book shows none, in the order of the list: nothing could
/// break them.
pub fn idle_lines<C: OrderlyChip>(
    alloc: Global,
    book: &ClosedBook<C>,
    list: &[(u32, Assertion)],
) -> Result<Vec<u32>, Memory>
    ensures { IfOk result (λ lines. lines.items ≡ idle_of list.now (flat_map (λ work. work.items) (values_of book.now.works))) }
{
    let mut lines = Vec::new(alloc);
    for (line, assertion) in list {
        if is_idle(*assertion, book.works()) {
            lines.push(*line)?;
        }
    }
    Ok(lines)
}
