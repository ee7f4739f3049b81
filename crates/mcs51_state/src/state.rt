//! States.

ghost use Rattle.std.specs.Prelude.{◌≡◌, ◌<◌, ◌∷◌, ℕ, All, [], IfOk};
ghost use Rattle.mcs51_state.specs.Known as known;

use crate::bytes::{one_byte, one_of, unknown};
use crate::fact::{
    CarryFact, LinearFact, common_carry, common_linear, is_carry_within, is_linear_within,
};
use crate::levels::Levels;
use crate::status::Status;
use call_context::Frame;
use entry_value::{Byte, Cells};
use irq_frames::Ranges;
use no_memory::Memory;
use std::alloc::Global;
use std::marker::Model;
use value_bits::Tri;
use value_set::Vs8;

/// What is known of a state of the MCS-51, over any representation of the cells of its RAM.
#[derive(Drop)]
pub struct State<M: Cells> {
    pub sp: Vs8,
    /// The accumulator.
    pub a: Byte,
    pub b: Byte,
    pub dpl: Byte,
    pub dph: Byte,
    pub ie: Byte,
    pub ip: Byte,
    pub psw: Status,
    /// The interrupt levels that may be in service.
    pub levels: Levels,
    /// What the accumulator is by a byte of RAM.
    pub linear_fact: Option<LinearFact>,
    /// What CY says of a byte.
    pub carry_fact: Option<CarryFact>,
    /// RAM.
    pub cells: M,
    /// The bytes of RAM that may be other ones than when the interrupt came.
    pub touched: Ranges,
}

impl<M: Cells> Model for State<M> {
    ghost use Rattle.mcs51_state.specs.Known.{Known};

    ghost Value = { Known };

    ghost view = { λ s. record { sp = s.sp; a = s.a; b = s.b; dpl = s.dpl; dph = s.dph; ie = s.ie; ip = s.ip; psw = s.psw; levels = s.levels; linear_fact = s.linear_fact; carry_fact = s.carry_fact; cells = M.map s.cells; touched = s.touched } };
}

/// All RAM in an interrupt's frame, else nothing.
#[tactic(auto, unfolding(irq_frames::specs::Ranges::with_range))]
fn all_touched(alloc: Global, frame: &Frame) -> Result<Ranges, Memory>
    ensures { IfOk result (λ touched. touched ≡ known.all_touched (known.is_interrupt frame.now)) }
{
    let mut touched = Ranges::new(alloc);
    if let Frame::Irq { .. } = frame {
        touched.add(0, 255)?;
    }
    Ok(touched)
}

/// Marks for the words of cells.
fn word_marks(alloc: Global, marks: &[u8]) -> Result<Vec<u16>, Memory>
    ensures { IfOk result (λ words. words.items ≡ marks.now) }
{
    let mut words = Vec::new(alloc);
    for mark in marks {
        words.push(*mark as u16)?;
    }
    Ok(words)
}

impl<M: Cells> State<M> {
    /// What is known behind a reset.
    pub fn first(alloc: Global) -> Result<State<M>, Memory>
        ensures { IfOk result (λ first. first ≡ known.first_known) }
    {
        Ok(State {
            sp: Vs8::one(7),
            a: one_byte(0),
            b: one_byte(0),
            dpl: one_byte(0),
            dph: one_byte(0),
            ie: one_of(&[0, 0x40]),
            ip: one_of(&[0, 0x40, 0x80, 0xC0]),
            psw: Status::of(Tri::Zero),
            levels: Levels::only_none(),
            linear_fact: None,
            carry_fact: None,
            cells: M::empty(alloc, 0, 255)?,
            touched: Ranges::new(alloc),
        })
    }

    /// What is known of every state in a frame.
    pub fn top(alloc: Global, frame: &Frame) -> Result<State<M>, Memory>
        ensures { IfOk result (λ top. top ≡ known.top_known (known.is_interrupt frame.now)) }
    {
        Ok(State {
            sp: Vs8::any(),
            a: unknown(),
            b: unknown(),
            dpl: unknown(),
            dph: unknown(),
            ie: unknown(),
            ip: unknown(),
            psw: Status::of(Tri::Either),
            levels: Levels::all(),
            linear_fact: None,
            carry_fact: None,
            cells: M::empty(alloc, 0, 255)?,
            touched: all_touched(alloc, frame)?,
        })
    }

    /// An equal state.
    pub fn copy(&self, alloc: Global) -> Result<State<M>, Memory>
        ensures { IfOk result (λ copy. copy ≡ self.now) }
    {
        Ok(State {
            sp: self.sp,
            a: self.a,
            b: self.b,
            dpl: self.dpl,
            dph: self.dph,
            ie: self.ie,
            ip: self.ip,
            psw: self.psw,
            levels: self.levels,
            linear_fact: self.linear_fact,
            carry_fact: self.carry_fact,
            cells: self.cells.copy(alloc)?,
            touched: self.touched.copy(alloc)?,
        })
    }

    /// What is known of both.
    #[tactic(auto, unfolding(crate::specs::Known::known_joined))]
    pub fn join(&self, alloc: Global, new: &State<M>) -> Result<State<M>, Memory>
        ensures { IfOk result (λ joined. joined ≡ known.known_joined self.now new.now) }
    {
        Ok(State {
            sp: self.sp.join(&new.sp),
            a: self.a.join(&new.a),
            b: self.b.join(&new.b),
            dpl: self.dpl.join(&new.dpl),
            dph: self.dph.join(&new.dph),
            ie: self.ie.join(&new.ie),
            ip: self.ip.join(&new.ip),
            psw: self.psw.joined(&new.psw),
            levels: self.levels.joined(&new.levels),
            linear_fact: common_linear(&self.linear_fact, &new.linear_fact),
            carry_fact: common_carry(&self.carry_fact, &new.carry_fact),
            cells: self.cells.join(alloc, &new.cells)?,
            touched: self.touched.united(alloc, &new.touched)?,
        })
    }

    /// What is known of both, where each set that has to grow goes on to the next marks, and without marks to a whole class.
    #[tactic(auto, unfolding(crate::specs::Known::known_widened))]
    pub fn widen(&self, alloc: Global, new: &State<M>, marks: &[u8]) -> Result<State<M>, Memory>
        ensures { IfOk result (λ widened. widened ≡ known.known_widened marks.now self.now new.now) }
    {
        let words = word_marks(alloc, marks)?;
        Ok(State {
            sp: self.sp.widen(&new.sp, marks),
            a: self.a.widen(&new.a, marks),
            b: self.b.widen(&new.b, marks),
            dpl: self.dpl.widen(&new.dpl, marks),
            dph: self.dph.widen(&new.dph, marks),
            ie: self.ie.widen(&new.ie, marks),
            ip: self.ip.widen(&new.ip, marks),
            psw: self.psw.joined(&new.psw),
            levels: self.levels.joined(&new.levels),
            linear_fact: common_linear(&self.linear_fact, &new.linear_fact),
            carry_fact: common_carry(&self.carry_fact, &new.carry_fact),
            cells: self.cells.widen(alloc, &new.cells, &words)?,
            touched: self.touched.united(alloc, &new.touched)?,
        })
    }

    /// Whether the sets and relations of the registers say all that those of the other one say.
    #[tactic(auto, unfolding(crate::specs::Known::registers_within))]
    fn registers_within(&self, held: &State<M>) -> bool
        ensures { result ≡ known.registers_within self.now held.now }
    {
        self.sp.within(&held.sp)
            && self.a.within(&held.a)
            && self.b.within(&held.b)
            && self.dpl.within(&held.dpl)
            && self.dph.within(&held.dph)
            && self.ie.within(&held.ie)
            && self.ip.within(&held.ip)
    }

    /// Whether this says all that the other one says.
    #[tactic(auto, unfolding(crate::specs::Known::known_within))]
    pub fn within(&self, held: &State<M>) -> bool
        ensures { result ≡ known.known_within self.now held.now }
    {
        self.registers_within(held)
            && self.psw.within(&held.psw)
            && self.levels.within(&held.levels)
            && is_linear_within(&self.linear_fact, &held.linear_fact)
            && is_carry_within(&self.carry_fact, &held.carry_fact)
            && self.cells.within(&held.cells)
            && self.touched.within(&held.touched)
    }
}
