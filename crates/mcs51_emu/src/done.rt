//! What was done in a step.

ghost use Rattle.std.specs.Prelude.{◌≡◌, ◌∷◌, ◌++◌, []};
ghost use Rattle.mcs51_decode.specs.declared.instr.Memory.{Memory as AMemory};
ghost use Rattle.mcs51_emu.specs.Listing.{listed, shown};
ghost use Rattle.mcs51_chip.specs.Memory as memories;

use crate::memory::pointer_address;
use arrayvec::ArrayVec;
use mcs51_chip::{Access, Address, ChipState};
use mcs51_decode::{Memory, Working};

/// The accesses of a step, in order.
#[derive(Clone, Copy)]
pub(crate) struct Accesses {
    pub first: Option<Access>,
    pub second: Option<Access>,
    pub third: Option<Access>,
}

/// What a step did, but for the state behind it.
#[derive(Drop)]
pub(crate) struct Done {
    /// The instruction that ran, if one did.
    pub bytes: Option<ArrayVec<u8, 6>>,
    pub accesses: Accesses,
}

/// None.
pub(crate) const NOTHING: Accesses = Accesses {
    first: None,
    second: None,
    third: None,
};

/// What finding an operand reads: of `@Ri` it is the register.
pub(crate) fn pointer_read(s: &ChipState, working: Working) -> Option<Access>
    ensures { shown result ≡ memories.pointer_reads s.now working }
{
    match working {
        Working::Indirect(pointer) => {
            Some(Access::Internal {
                write: false,
                address: Address::InRam(pointer_address(s, pointer)),
            })
        }
        Working::Register(_) => None,
    }
}

/// The same of any operand in memory.
pub(crate) fn address_read(s: &ChipState, memory: Memory) -> Option<Access>
    ensures { shown result ≡ memories.address_reads s.now memory }
{
    match memory {
        Memory::Direct(_) => None,
        Memory::Working(working) => pointer_read(s, working),
    }
}

/// A read of a byte.
pub(crate) fn one_read(before: Option<Access>, address: Address) -> Accesses
    ensures { listed result ≡ shown before ++ memories.reads address }
{
    one_more(
        before,
        Access::Internal {
            write: false,
            address,
        },
    )
}

/// A write of a byte.
pub(crate) fn one_write(before: Option<Access>, address: Address) -> Accesses
    ensures { listed result ≡ shown before ++ memories.writes address }
{
    one_more(
        before,
        Access::Internal {
            write: true,
            address,
        },
    )
}

/// A read of a byte, and a write of one.
pub(crate) fn read_and_write(before: Option<Access>, from: Address, to: Address) -> Accesses
    ensures { listed result ≡ shown before ++ memories.reads from ++ memories.writes to }
{
    Accesses {
        first: before,
        second: Some(Access::Internal {
            write: false,
            address: from,
        }),
        third: Some(Access::Internal {
            write: true,
            address: to,
        }),
    }
}

/// An access of external RAM or of the program.
pub(crate) fn one_more(before: Option<Access>, access: Access) -> Accesses
    ensures { listed result ≡ shown before ++ access ∷ [] }
{
    Accesses {
        first: None,
        second: before,
        third: Some(access),
    }
}
