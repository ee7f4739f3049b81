//! Registers of a state.

ghost use Rattle.std.specs.Prelude.{◌≡◌, ◌++◌, None, replicate};
ghost use Rattle.value_set.specs.Form.{IsNormalRun};
ghost use Rattle.value_bits.specs.Bits.{from_bits};
ghost use Rattle.value_bits.specs.declared.tri.Tri.TheVariants.{Either};
ghost use Rattle.msp430_state.specs.Known.{even_words as all_even_words};
ghost use Rattle.msp430_alu.specs.Registers as registers;

use entry_value::{Cells, Entry, Word};
use msp430_decode::Register;
use msp430_state::State;
use value_bits::{Tri, w16};
use value_set::{Form, Progression, Vs16};

/// All even words.
fn even_words() -> Vs16
    ensures { result ≡ all_even_words }
{
    match Vs16::run(0, 2, 0x8000) {
        Some(set) => set,
        None => unreachable!(),
    }
}

/// The even numbers of a set as they are; of another one by AND.
fn cleared_parts(set: &Vs16) -> Vs16
    ensures { result ≡ registers.cleared_parts set.now }
{
    if set.within(&even_words()) {
        return *set;
    }
    w16::and(set, &Vs16::one(0xFFFE))
}

/// A run without gaps, without bit 0: from its first number on every second one.
fn each_second(run: Progression) -> Vs16
    requires { IsNormalRun 65536 run.base 1 run.count }
    ensures { result ≡ registers.each_second run }
{
    let odd = run.base % 2;
    match Vs16::run(run.base - odd, 2, (run.count + odd as u32 + 1) / 2) {
        Some(set) => set,
        None => unreachable!(),
    }
}

/// The numbers of a set without bit 0.
pub fn even_parts(set: &Vs16) -> Vs16
    ensures { result ≡ registers.even_parts set.now }
{
    match set.form() {
        Form::Run(run) if run.stride == 1 => each_second(run),
        _ => cleared_parts(set),
    }
}

/// SR as a word, from its bits 0 to 8: its bits 9 to 15 may be any.
fn status_set(held: &[Tri; 9]) -> Vs16
    ensures { result ≡ from_bits 16 (held.now ++ replicate 7 Either) }
{
    let mut bits = [Tri::Either; 16];
    bits[..9].copy_from_slice(held);
    w16::from_bits(&bits)
}

/// The relation that SR gets with a word: one to SR stays. The AND mask has the bits that SR doesn't hold, and the OR mask
/// hasn't.
pub fn status_relation(entry: &Option<Entry>) -> Option<Entry>
    ensures { result ≡ registers.status_relation entry.now }
{
    match entry {
        Some(entry) if entry.place == 2 => Some(Entry {
            place: 2,
            and: entry.and | 0xFE00,
            or: entry.or & 0x01FF,
        }),
        _ => None,
    }
}

/// A set without a relation.
pub(crate) fn plain(set: Vs16) -> Word
    ensures { result ≡ record { set = set; entry = None } }
{
    Word { set, entry: None }
}

/// What a register may hold, where PC counts so.
pub fn register_word<M: Cells>(state: &State<M>, counted: &Vs16, register: Register) -> Word
    ensures { result ≡ registers.register_word state.now counted.now register }
{
    match register {
        Register::Pc => plain(*counted),
        Register::Sp => plain(state.sp),
        Register::Sr => Word {
            set: status_set(&state.status.bits),
            entry: state.status.entry,
        },
        Register::R3 => plain(Vs16::one(0)),
        _ => state.registers[register.number() as usize - 4],
    }
}
