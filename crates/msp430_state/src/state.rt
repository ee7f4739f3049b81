//! States.

ghost use Rattle.std.specs.Prelude.{◌≡◌, ◌≤◌, ◌∷◌, [], IfOk};
ghost use Rattle.entry_value.specs.Cells as the_cells;
ghost use Rattle.msp430_state.specs.Known as known;

use crate::fact::{FlagFact, common_fact, is_fact_within};
use crate::status::Status;
use crate::words::{are_within, copy_all, join_all, unknown, widen_all};
use call_context::Frame;
use entry_value::{Cells, Word};
use image::RamRange;
use irq_frames::Ranges;
use known_parts::{common_bit, is_bit_within};
use no_memory::Memory;
use std::alloc::Global;
use std::marker::Model;
use value_bits::Tri;
use value_set::Vs16;

/// What is known of a state of the MSP430, over any representation of the cells of its RAM.
#[derive(Drop)]
pub struct State<M: Cells> {
    /// SP.
    pub sp: Vs16,
    /// SR.
    pub status: Status,
    /// Whether an interrupt may still come behind an instruction that forbade it.
    pub late: Tri,
    /// R4 to R15.
    pub registers: [Word; 12],
    /// What the flags say of a register.
    pub fact: Option<FlagFact>,
    /// RAM.
    pub cells: M,
    /// The bytes of RAM that may be other ones than when the interrupt came.
    pub touched: Ranges,
}

impl<M: Cells> Model for State<M> {
    ghost use Rattle.msp430_state.specs.Known.{Known};

    ghost Value = { Known };

    ghost view = { λ s. record { sp = s.sp; status = s.status; late = s.late; registers = s.registers; fact = s.fact; cells = M.map s.cells; touched = s.touched } };
}

/// All even words.
fn even_words() -> Vs16
    ensures { result ≡ known.even_words }
{
    match Vs16::run(0, 2, 0x8000) {
        Some(set) => set,
        None => unreachable!(),
    }
}

/// One range.
#[tactic(auto, unfolding(irq_frames::specs::Ranges::with_range))]
fn range(alloc: Global, lo: u16, hi: u16) -> Result<Ranges, Memory>
    requires { lo ≤ hi }
    ensures { IfOk result (λ touched. touched ≡ (lo, hi) ∷ []) }
{
    let mut touched = Ranges::new(alloc);
    touched.add(lo, hi)?;
    Ok(touched)
}

/// All RAM in an interrupt's frame, else nothing.
fn all_touched(alloc: Global, frame: &Frame, ram: RamRange) -> Result<Ranges, Memory>
    requires { ram.lo ≤ ram.hi }
    ensures { IfOk result (λ touched. touched ≡ known.all_touched (known.is_interrupt frame.now) ram.lo ram.hi) }
{
    match frame {
        Frame::Base => Ok(Ranges::new(alloc)),
        Frame::Irq { .. } => range(alloc, ram.lo, ram.hi),
    }
}

impl<M: Cells> State<M> {
    /// What is known where each bit is one value, SP is even, and all else is any.
    fn of_bit(alloc: Global, bit: Tri, ram: RamRange, touched: Ranges) -> Result<State<M>, Memory>
        requires { ram.lo ≤ ram.hi }
        ensures { IfOk result (λ state. state ≡ known.known_of bit ram.lo ram.hi touched) }
    {
        Ok(State {
            sp: even_words(),
            status: Status::of(bit),
            late: bit,
            registers: [unknown(); 12],
            fact: None,
            cells: M::empty(alloc, ram.lo, ram.hi)?,
            touched,
        })
    }

    /// What is known behind a reset, of a device with this RAM.
    pub fn first(alloc: Global, ram: RamRange) -> Result<State<M>, Memory>
        requires { ram.lo ≤ ram.hi }
        ensures { IfOk result (λ first. first ≡ known.first_known ram.lo ram.hi) }
    {
        State::of_bit(alloc, Tri::Zero, ram, Ranges::new(alloc))
    }

    /// What is known of every state in a frame.
    pub fn top(alloc: Global, frame: &Frame, ram: RamRange) -> Result<State<M>, Memory>
        requires { ram.lo ≤ ram.hi }
        ensures { IfOk result (λ top. top ≡ known.top_known ram.lo ram.hi (known.is_interrupt frame.now)) }
    {
        let touched = all_touched(alloc, frame, ram)?;
        State::of_bit(alloc, Tri::Either, ram, touched)
    }

    /// An equal state.
    pub fn copy(&self, alloc: Global) -> Result<State<M>, Memory>
        ensures { IfOk result (λ copy. copy ≡ self.now) }
    {
        Ok(State {
            sp: self.sp,
            status: self.status,
            late: self.late,
            registers: copy_all(&self.registers),
            fact: self.fact,
            cells: self.cells.copy(alloc)?,
            touched: self.touched.copy(alloc)?,
        })
    }

    /// What is known of both.
    #[tactic(auto, unfolding(crate::specs::Known::known_joined))]
    pub fn join(&self, alloc: Global, new: &State<M>) -> Result<State<M>, Memory>
        ensures { IfOk result (λ joined. joined ≡ known.known_joined self.now new.now) }
    {
        Ok(State {
            sp: self.sp.join(&new.sp),
            status: self.status.joined(&new.status),
            late: common_bit(self.late, new.late),
            registers: join_all(&self.registers, &new.registers),
            fact: common_fact(&self.fact, &new.fact),
            cells: self.cells.join(alloc, &new.cells)?,
            touched: self.touched.united(alloc, &new.touched)?,
        })
    }

    /// What is known of both, where each set that has to grow goes on to the next marks, and without marks to a whole class.
    #[tactic(auto, unfolding(crate::specs::Known::known_widened))]
    pub fn widen(&self, alloc: Global, new: &State<M>, marks: &[u16]) -> Result<State<M>, Memory>
        ensures { IfOk result (λ widened. widened ≡ known.known_widened marks.now self.now new.now) }
    {
        Ok(State {
            sp: self.sp.widen(&new.sp, marks),
            status: self.status.joined(&new.status),
            late: common_bit(self.late, new.late),
            registers: widen_all(&self.registers, &new.registers, marks),
            fact: common_fact(&self.fact, &new.fact),
            cells: self.cells.widen(alloc, &new.cells, marks)?,
            touched: self.touched.united(alloc, &new.touched)?,
        })
    }

    /// Whether this says all that the other one says.
    #[tactic(auto, unfolding(crate::specs::Known::known_within))]
    pub fn within(&self, held: &State<M>) -> bool
        ensures { result ≡ known.known_within self.now held.now }
    {
        self.sp.within(&held.sp)
            && self.status.within(&held.status)
            && is_bit_within(self.late, held.late)
            && are_within(&self.registers, &held.registers)
            && is_fact_within(&self.fact, &held.fact)
            && self.cells.within(&held.cells)
            && self.touched.within(&held.touched)
    }
}
