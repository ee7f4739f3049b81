//! Entries against rows worked by hand from SLAU049, chapter 2, "Interrupt Processing".

ghost use Rattle.std.specs.Prelude.{◌≡◌};
ghost use Rattle.msp430_chip.specs.Memory.{HasRam};

use super::given::{
    MIRRORED_RAM, RAM, are_equal, device, from, mirrored_device, number, one, related, run, two,
};
use abs_memory::CellList;
use call_context::{Frame, Item, Sequence, Set, Space};
use entry_value::Cells;
use msp430_chip::Device;
use msp430_decode::Width;
use msp430_entry::{Coming, add_entry_items, comings, entered, frame_of, handler_of};
use msp430_state::{FlagFact, State, Status};
use std::alloc::Global;
use std::process::Abort;
use std::test::Fail;
use value_bits::Tri;
use value_set::Vs16;

/// GIE and SCG0 are 1, the other bits of SR 0; R5 is 3, and a word of RAM is one that R6 was.
fn state(alloc: Global) -> Result<State<CellList>, Fail> {
    let mut state: State<CellList> = State::first(alloc, RAM)?;
    state.status.bits[3] = Tri::One;
    state.status.bits[6] = Tri::One;
    state.registers[1] = number(3);
    state.fact = Some(FlagFact {
        register: 5,
        added: 0,
        compared: 1,
        width: Width::Word,
    });
    state.cells.write_one(0x0210, 2, related(7, 6))?;
    Ok(state)
}

fn at(vector: u8, sp: u16) -> Coming
    ensures { result.vector ≡ vector }
{
    Coming {
        vector,
        known_sp: Some(sp),
        sp: one(sp),
    }
}

/// One of several stack pointers, that are too many to tell apart.
fn somewhere(vector: u8, sp: Vs16) -> Coming {
    Coming {
        vector,
        known_sp: None,
        sp,
    }
}

/// What may come where these are GIE, whether an interrupt may still come late, and SP.
fn all_coming(alloc: Global, gie: Tri, late: Tri, sp: Vs16) -> Result<Sequence<Coming>, Fail> {
    let (device, mut state) = (device(alloc)?, state(alloc)?);
    state.status.bits[3] = gie;
    state.late = late;
    state.sp = sp;
    Ok(comings(alloc, &device, &state)?)
}

#[test]
fn which_interrupts_come(rt: HostRuntime) -> Result<(), Fail> {
    use Tri::{Either, One, Zero};
    let (apart, many) = (two(0x0280, 0x0290), run(0x0240, 2, 32));
    let all = all_coming(rt.alloc(), One, Zero, apart)?;
    let none = all_coming(rt.alloc(), Zero, Zero, apart)?;
    let late = all_coming(rt.alloc(), Zero, Either, many)?;
    let (each, both) = (
        [at(1, 0x0280), at(1, 0x0290), at(9, 0x0280), at(9, 0x0290)],
        [somewhere(1, many), somewhere(9, many)],
    );
    are_equal(
        &rt,
        &[
            (all.as_slice(), each.as_slice()),
            (late.as_slice(), both.as_slice()),
        ],
    );
    are_equal(&rt, &[(none.as_slice().is_empty(), true)]);
    Ok(())
}

#[test]
fn frames_and_handlers(rt: HostRuntime) -> Result<(), Fail> {
    let device = device(rt.alloc())?;
    let wanted = Frame::Irq {
        vector: 1,
        sp: None,
        level: 0,
    };
    are_equal(
        &rt,
        &[(frame_of(&somewhere(1, two(0x0280, 0x0290))), wanted)],
    );
    are_equal(
        &rt,
        &[
            (handler_of(&device, 1), 0xFFFE),
            (handler_of(&device, 9), 0xF100),
        ],
    );
    Ok(())
}

/// What the handler of an interrupt at F004h begins with.
fn handler_state(alloc: Global) -> Result<State<CellList>, Fail> {
    let device = device(alloc)?;
    let state = state(alloc)?;
    Ok(entered(alloc, &device, &state, 0xF004, &one(0x0280))?)
}

/// As in the manual: PC is pushed first, then SR, and all of SR but SCG0 is cleared.
#[test]
fn what_the_handler_knows(rt: HostRuntime) -> Result<(), Fail> {
    let known = handler_state(rt.alloc())?;
    let pushed = known.cells.read(0x027C, 2);
    are_equal(
        &rt,
        &[
            (known.cells.read(0x027E, 2), related(0xF004, 0)),
            (known.registers[1], related(3, 5)),
            (known.cells.read(0x0210, 2), number(7)),
        ],
    );
    are_equal(
        &rt,
        &[
            (pushed.set.has(0x0048), true),
            (pushed.set.has(0xFE48), true),
            (pushed.set.has(0x0040), false),
        ],
    );
    let mut bits = [Tri::Zero; 9];
    bits[6] = Tri::One;
    let entry = from(2, 0xFE40);
    let ranges = [(0x027C, 0x027F)];
    are_equal(
        &rt,
        &[(
            (known.sp, known.status, known.fact, known.late, pushed.entry),
            (
                one(0x027C),
                Status { bits, entry },
                None,
                Tri::Zero,
                from(2, 0xFFFF),
            ),
        )],
    );
    are_equal(&rt, &[(known.touched.list(), ranges.as_slice())]);
    Ok(())
}

/// A push of a word at an address by the entry at F004h.
fn push(place: u16) -> Item {
    Item::Access {
        pc: 0xF004,
        space: Space::Mem,
        write: true,
        size: 2,
        at: Set::W(one(place)),
    }
}

/// What the entry of vector 9 at F004h shows is pushes of PC and of SR there, and the edge.
fn shows(
    rt: &impl Abort,
    alloc: Global,
    device: &Device,
    sp: u16,
    counter: u16,
    status: u16,
) -> Result<(), Fail>
    requires { HasRam device.now }
{
    let mut items = Sequence::new(alloc);
    add_entry_items(&mut items, device, 0xF004, &at(9, sp))?;
    let edge = Item::Edge {
        from: 0xF004,
        to: 0xF100,
    };
    let shown = [push(counter), push(status), edge];
    assert!(rt; items.as_slice() == shown.as_slice());
    Ok(())
}

#[test]
fn what_entries_show(rt: HostRuntime) -> Result<(), Fail> {
    let device = device(rt.alloc())?;
    shows(&rt, rt.alloc(), &device, 0x0280, 0x027E, 0x027C)?;
    let mirrored = mirrored_device(rt.alloc())?;
    shows(&rt, rt.alloc(), &mirrored, 0x0204, 0x1102, 0x1100)
}

/// What the handler of an interrupt at F000h begins with, where SP is behind the mirror's second word.
fn mirrored_state(alloc: Global) -> Result<State<CellList>, Fail> {
    let device = mirrored_device(alloc)?;
    let state: State<CellList> = State::first(alloc, MIRRORED_RAM)?;
    Ok(entered(alloc, &device, &state, 0xF000, &one(0x0204))?)
}

/// PC is pushed at the mirror's second word, and SR at its first one.
#[test]
fn an_entry_at_the_mirror(rt: HostRuntime) -> Result<(), Fail> {
    let known = mirrored_state(rt.alloc())?;
    let ranges = [(0x1100, 0x1103)];
    let found = (
        known.sp,
        known.cells.read(0x1102, 2),
        known.cells.read(0x1100, 2).entry,
    );
    are_equal(
        &rt,
        &[(found, (one(0x0200), related(0xF000, 0), from(2, 0xFFFF)))],
    );
    are_equal(&rt, &[(known.touched.list(), ranges.as_slice())]);
    Ok(())
}
