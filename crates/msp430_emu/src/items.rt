//! The items of a step, each set with one value.

ghost use Rattle.std.specs.Prelude.{◌≡◌, ◌+◌, ◌<◌, ◌≤◌, ◌++◌, map};
ghost use Rattle.arrayvec.specs.ArrayVec.{array_vec_len};
ghost use Rattle.msp430_emu.specs.Drafting.{shown};
ghost use Rattle.msp430_emu.specs.Planning.{item_of, ran, singles_of};

use crate::effect::{Access, Plan};
use crate::memory::{Layout, size_of};
use arrayvec::ArrayVec;
use call_context::{InstrBytes, Item, Set, Space};
use msp430_chip::ChipState;
use value_set::Vs16;

/// How many items a step has at most.
pub const ROOM: usize = 12;

/// Adds the instruction, if one runs.
fn push_instr(items: &mut ArrayVec<Item, ROOM>, pc: u16, bytes: &Option<ArrayVec<u8, 6>>)
    requires { array_vec_len items.old < 12 }
    ensures items { items.new.items ≡ items.old.items ++ map item_of (ran pc bytes.now) }
    ensures len { array_vec_len items.new ≤ array_vec_len items.old + 1 }
{
    if let Some(bytes) = bytes {
        items.push(Item::Instr {
            pc,
            bytes: InstrBytes::from_slice(bytes.as_slice()),
        });
    }
}

/// Adds an access, if there is one.
fn push_access(items: &mut ArrayVec<Item, ROOM>, layout: &Layout, pc: u16, access: Option<Access>)
    requires { array_vec_len items.old < 12 }
    ensures items { items.new.items ≡ items.old.items ++ map item_of (shown layout.now pc access) }
    ensures len { array_vec_len items.new ≤ array_vec_len items.old + 1 }
{
    if let Some(access) = access {
        items.push(Item::Access {
            pc,
            space: Space::Mem,
            write: access.write,
            size: size_of(access.width),
            at: Set::W(Vs16::one(layout.aligned(access.width, access.at))),
        });
    }
}

/// What a step does, in order.
pub(crate) fn items_of(layout: &Layout, s: &ChipState, plan: &Plan) -> ArrayVec<Item, ROOM>
    ensures { result.items ≡ map item_of (singles_of layout.now s.now plan.now) }
{
    let pc = s.registers[0];
    let mut items = ArrayVec::new();
    items.push(Item::Stack {
        pc,
        at: Set::W(Vs16::one(s.registers[1])),
    });
    push_instr(&mut items, pc, &plan.bytes);
    push_access(&mut items, layout, pc, plan.accesses.first);
    push_access(&mut items, layout, pc, plan.accesses.second);
    push_access(&mut items, layout, pc, plan.accesses.third);
    items.push(Item::Edge {
        from: pc,
        to: plan.registers[0],
    });
    items
}
