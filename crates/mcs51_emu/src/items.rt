//! The items of a step, each set with one value.

ghost use Rattle.std.specs.Prelude.{◌≡◌, ◌+◌, ◌<◌, ◌≤◌, ◌++◌, ◌∷◌, [], map};
ghost use Rattle.arrayvec.specs.ArrayVec.{array_vec_len};
ghost use Rattle.call_context.specs.declared.shown.Item.TheVariants as items;
ghost use Rattle.chip_numbers.specs.Single.Single.{Edge, Stack};
ghost use Rattle.mcs51_chip.specs.Step.{accessed};
ghost use Rattle.mcs51_emu.specs.Listing.{item_of, listed, ran, shown};

use crate::done::{Accesses, Done};
use arrayvec::ArrayVec;
use call_context::{InstrBytes, Item, Set, Space};
use mcs51_chip::{Access, Address};
use value_set::{Vs8, Vs16};

/// How many items a step has at most.
pub(crate) const ROOM: usize = 12;

/// The item of an access of a byte.
fn item(pc: u16, space: Space, write: bool, at: Set) -> Item
    ensures { result ≡ items.Access pc space write 1 at }
{
    Item::Access {
        pc,
        space,
        write,
        size: 1,
        at,
    }
}

/// The item of an access.
fn access_item(pc: u16, access: Access) -> Item
    ensures { result ≡ item_of (accessed pc access) }
{
    match access {
        Access::Internal {
            write,
            address: Address::InRam(at),
        } => item(pc, Space::Ram, write, Set::B(Vs8::one(at))),
        Access::Internal {
            write,
            address: Address::InSfr(at),
        } => item(pc, Space::Sfr, write, Set::B(Vs8::one(at))),
        Access::External { write, at } => item(pc, Space::Xram, write, Set::W(Vs16::one(at))),
        Access::Code { at } => item(pc, Space::Code, false, Set::W(Vs16::one(at))),
    }
}

/// Adds the instruction, if one ran.
fn push_instr(items: &mut ArrayVec<Item, ROOM>, pc: u16, bytes: &Option<ArrayVec<u8, 6>>)
    requires { array_vec_len items.old < 12 }
    ensures items { items.new.items ≡ items.old.items ++ map item_of (ran pc bytes.now) }
    ensures len { array_vec_len items.new ≤ array_vec_len items.old + 1 }
{
    if let Some(bytes) = bytes {
        items.push(Item::Instr {
            pc,
            bytes: InstrBytes::from_slice(bytes.as_slice()),
        });
    }
}

/// Adds an access, if there is one.
fn push_access(items: &mut ArrayVec<Item, ROOM>, pc: u16, access: Option<Access>)
    requires { array_vec_len items.old < 12 }
    ensures items { items.new.items ≡
        items.old.items ++ map item_of (map (accessed pc) (shown access)) }
    ensures len { array_vec_len items.new ≤ array_vec_len items.old + 1 }
{
    if let Some(access) = access {
        items.push(access_item(pc, access));
    }
}

/// Adds accesses.
fn push_accesses(items: &mut ArrayVec<Item, ROOM>, pc: u16, accesses: Accesses)
    requires { array_vec_len items.old < 10 }
    ensures items { items.new.items ≡
        items.old.items ++ map item_of (map (accessed pc) (listed accesses)) }
    ensures len { array_vec_len items.new ≤ array_vec_len items.old + 3 }
{
    push_access(items, pc, accesses.first);
    push_access(items, pc, accesses.second);
    push_access(items, pc, accesses.third);
}

/// What a step did, in order.
pub(crate) fn items_of(pc: u16, sp: u8, done: &Done, target: u16) -> ArrayVec<Item, ROOM>
    ensures { result.items ≡
        map item_of (Stack pc sp ∷ ran pc done.now.bytes
        ++ map (accessed pc) (listed done.now.accesses) ++ Edge pc target ∷ []) }
{
    let mut items = ArrayVec::new();
    items.push(Item::Stack {
        pc,
        at: Set::B(Vs8::one(sp)),
    });
    push_instr(&mut items, pc, &done.bytes);
    push_accesses(&mut items, pc, done.accesses);
    items.push(Item::Edge {
        from: pc,
        to: target,
    });
    items
}
