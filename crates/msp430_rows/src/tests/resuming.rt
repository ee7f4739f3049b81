//! Resumed states against rows worked by hand.

use super::given::{RAM, are_equal, from, number, one};
use abs_memory::CellList;
use entry_value::{Entry, Word};
use msp430_decode::Width;
use msp430_resume::resume;
use msp430_state::{FlagFact, State};
use std::alloc::Global;
use std::test::Fail;
use value_bits::Tri;
use value_set::Vs16;

/// R4 is 4 and compared with 7, and interrupts are enabled.
fn suspended(alloc: Global) -> Result<State<CellList>, Fail> {
    let mut state: State<CellList> = State::first(alloc, RAM)?;
    state.registers[0] = number(4);
    state.status.bits[3] = Tri::One;
    state.fact = Some(FlagFact {
        register: 4,
        added: 0,
        compared: 7,
        width: Width::Word,
    });
    Ok(state)
}

/// What a handler left in SR and R4.
fn left(alloc: Global, status: Option<Entry>, r4: Word) -> Result<State<CellList>, Fail> {
    let mut state: State<CellList> = State::first(alloc, RAM)?;
    state.status.entry = status;
    state.registers[0] = r4;
    Ok(state)
}

/// R4 as it was.
fn own() -> Word {
    Word {
        set: Vs16::any(),
        entry: from(4, 0xFFFF),
    }
}

/// SP, GIE and R4 where the state goes on, and whether the fact stays.
type Resumed = (Vs16, Tri, Word, bool);

fn resumed(alloc: Global, status: Option<Entry>, r4: Word) -> Result<Resumed, Fail> {
    let at = suspended(alloc)?;
    let exit = left(alloc, status, r4)?;
    let state = resume(alloc, true, &at, 0xF000, 0x0280, &exit)?;
    Ok((
        state.sp,
        state.status.bits[3],
        state.registers[0],
        state.fact.is_some(),
    ))
}

/// What the handler gave back is what it was, and with it the fact. A handler may clear GIE in SR on the stack.
#[test]
fn rows_of_resumed_states(rt: HostRuntime) -> Result<(), Fail> {
    for (status, r4, gie, word, is_kept) in [
        (from(2, 0xFFFF), own(), Tri::One, 4, true),
        (from(2, 0xFFF7), own(), Tri::Zero, 4, false),
        (from(2, 0xFFFF), number(9), Tri::One, 9, false),
        (None, own(), Tri::Zero, 4, false),
    ] {
        let found = resumed(rt.alloc(), status, r4)?;
        are_equal(&rt, &[(found, (one(0x0280), gie, number(word), is_kept))]);
    }
    Ok(())
}
