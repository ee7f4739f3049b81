//! What is known of the bits of a set.

ghost use Rattle.std.specs.Prelude.{◌≡◌, ◌+◌, ◌^◌, ◌<◌, ◌≤◌, ◌++◌, ◌==◌, length, take, drop, replicate, slice_index_or};
ghost use Rattle.std.specs.List.{list_all};
ghost use Rattle.std.specs.Int.{bit_at};
ghost use Rattle.value_set.specs.Form.{IsNormal, IsNormalRun};
ghost use Rattle.value_bits.specs.Bits as bits;
ghost use Rattle.value_bits.specs.Sets as sets;
ghost use Rattle.value_bits.specs.Lefts as lefts;

use crate::tri::{Logic, Lowest, Top, Tri, tri_and, tri_or, tri_xor};
use arrayvec::ArrayVec;
use value_set::{Form, Progression};

/// How many bits a number has at most.
pub const WIDEST: usize = 16;

/// Whether all numbers have one bit at a place.
fn all_have(values: &[u16], place: u32, bit: u16) -> bool
    requires { place < 16 }
    ensures { result ≡ list_all (λ v. bit_at v place == bit) values.now }
{
    values.iter().all(|value| (*value >> place) % 2 == bit)
}

/// The bit that is a number.
fn tri(bit: u16) -> Tri
    ensures { result ≡ bits.tri bit }
{
    if bit == 1 { Tri::One } else { Tri::Zero }
}

/// Whether all numbers of a run have the bit of its base at a place.
#[tactic(auto, using(std::proofs::lemmas::Nat::one_shl))]
fn is_fixed(width: u32, place: u32, run: &Progression) -> bool
    requires narrow { width ≤ 16 }
    requires within { place < width }
    requires normal { IsNormalRun (2 ^ width) run.now.base run.now.stride run.now.count }
    ensures { result ≡ bits.is_fixed width place run.now }
{
    let base = run.base as u32;
    let last = base + (run.count - 1) * run.stride as u32;
    (run.stride as u32) % (1 << (place + 1)) == 0
        || (last < 1 << width && base >> place == last >> place)
}

/// The bit of a run at a place.
#[tactic(auto, unfolding(crate::specs::Bits::known_bit))]
fn bit_of_run(width: u32, place: u32, run: &Progression) -> Tri
    requires narrow { width ≤ 16 }
    requires within { place < width }
    requires normal { IsNormalRun (2 ^ width) run.now.base run.now.stride run.now.count }
    ensures { result ≡ bits.known_bit width place (Form.Run run.now) }
{
    if is_fixed(width, place, run) {
        tri((run.base >> place) % 2)
    } else {
        Tri::Either
    }
}

/// The bit of a list at a place.
#[tactic(auto, unfolding(crate::specs::Bits::known_bit))]
fn bit_of_list(width: u32, place: u32, values: &[u16]) -> Tri
    requires { place < 16 }
    ensures { result ≡ bits.known_bit width place (Form.Values values.now) }
{
    if all_have(values, place, 1) {
        Tri::One
    } else if all_have(values, place, 0) {
        Tri::Zero
    } else {
        Tri::Either
    }
}

/// The bit of a set at a place.
fn known_bit(width: u32, place: u32, set: &Form) -> Tri
    requires narrow { width ≤ 16 }
    requires within { place < width }
    requires normal { IsNormal (2 ^ width) set.now }
    ensures { result ≡ bits.known_bit width place set.now }
{
    match set {
        Form::Values(values) => bit_of_list(width, place, values.as_slice()),
        Form::Run(run) => bit_of_run(width, place, run),
    }
}

/// The bits of a set of numbers of a width, the lowest one first.
pub fn known_bits(width: u32, set: &Form) -> ArrayVec<Tri, WIDEST>
    requires narrow { width ≤ 16 }
    requires normal { IsNormal (2 ^ width) set.now }
    ensures { result.items ≡ bits.known_bits width set.now }
{
    let mut known = ArrayVec::new();
    for place in 0..width {
        known.push(known_bit(width, place, set));
    }
    known
}

/// The bits of the results of a logic operation on the members of two sets.
pub fn logic_bits(width: u32, logic: Logic, first: &Form, second: &Form) -> ArrayVec<Tri, WIDEST>
    requires narrow { width ≤ 16 }
    requires first_normal { IsNormal (2 ^ width) first.now }
    requires second_normal { IsNormal (2 ^ width) second.now }
    ensures { result.items ≡ sets.logic_bits width logic first.now second.now }
{
    let mut known = ArrayVec::new();
    for place in 0..width {
        let bit = known_bit(width, place, first);
        known.push(tri_logic(logic, bit, known_bit(width, place, second)));
    }
    known
}

/// The bit of a result, where what is known of both bits decides it.
fn tri_logic(logic: Logic, first: Tri, second: Tri) -> Tri
    ensures { result ≡ bits.tri_logic logic first second }
{
    match logic {
        Logic::And => tri_and(first, second),
        Logic::Or => tri_or(first, second),
        Logic::Xor => tri_xor(first, second),
    }
}

/// Some bits, and others above them.
pub fn joined(low: &[Tri], high: &[Tri]) -> ArrayVec<Tri, WIDEST>
    requires { length low.now + length high.now ≤ 16 }
    ensures { result.items ≡ low.now ++ high.now }
{
    let mut all = ArrayVec::new();
    for bit in low {
        all.push(*bit);
    }
    for bit in high {
        all.push(*bit);
    }
    all
}

/// The bits of the members of a set, shifted to the right by one place.
pub fn shift_bits(place: u32, top: Top, known: &[Tri]) -> ArrayVec<Tri, WIDEST>
    requires narrow { place < 16 }
    requires wide { length known.now ≡ place + 1 }
    ensures { result.items ≡ sets.shift_bits place top known.now }
{
    joined(&known[1..], [top_bit(place, top, known)].as_slice())
}

fn top_bit(place: u32, top: Top, known: &[Tri]) -> Tri
    requires { length known.now ≡ place + 1 }
    ensures { result ≡ sets.top_bit place top known.now }
{
    match top {
        Top::Sign => known[place as usize],
        Top::Low => known[0],
        Top::Put(bit) => bit,
    }
}

/// The bits of the members of a set, shifted to the left by one place.
pub fn left_bits(place: u32, lowest: Lowest, known: &[Tri]) -> ArrayVec<Tri, WIDEST>
    requires narrow { place < 16 }
    requires wide { length known.now ≡ place + 1 }
    ensures { result.items ≡ lefts.left_bits place lowest known.now }
{
    joined(
        [lowest_bit(place, lowest, known)].as_slice(),
        &known[..place as usize],
    )
}

fn lowest_bit(place: u32, lowest: Lowest, known: &[Tri]) -> Tri
    requires { length known.now ≡ place + 1 }
    ensures { result ≡ lefts.lowest_bit place lowest known.now }
{
    match lowest {
        Lowest::High => known[place as usize],
        Lowest::Given(bit) => bit,
    }
}

/// Bits whose halves change places.
pub fn exchanged_bits(half: usize, known: &[Tri]) -> ArrayVec<Tri, WIDEST>
    requires narrow { half ≤ 8 }
    requires wide { length known.now ≡ half + half }
    ensures { result.items ≡ drop half known.now ++ take half known.now }
{
    joined(&known[half..], &known[..half])
}

/// The low 8 bits, and bit 7 in place of the others.
pub fn extended_bits(known: &[Tri]) -> ArrayVec<Tri, WIDEST>
    requires { length known.now ≡ 16 }
    ensures { result.items ≡ take 8 known.now ++ replicate 8 (slice_index_or known.now 7 Tri.Either) }
{
    joined(&known[..8], [known[7]; 8].as_slice())
}
