//! Rows of known bits: of the manuals, and worked by hand from their rules.

use crate::given::{are_equal, list8, list16, run8, run16};
use value_bits::{AllFlags, FourFlags, FourKnown, Lowest, Top, Tri, w8, w16};
use value_set::{Vs8, Vs16};

/// The examples of ANL, ORL, XRL, RR, RRC, RL, RLC and SWAP in the MCS-51 instruction set.
#[test]
fn rows_of_bytes(rt: HostRuntime) {
    let (a, b) = (Vs8::one(0xC3), Vs8::one(0xC5));
    are_equal(
        &rt,
        &[
            (w8::and(&a, &Vs8::one(0x55)), Vs8::one(0x41)),
            (w8::or(&a, &Vs8::one(0x55)), Vs8::one(0xD7)),
            (w8::xor(&a, &Vs8::one(0xAA)), Vs8::one(0x69)),
            (w8::shift_right(&b, Top::Low), Vs8::one(0xE2)),
            (w8::shift_right(&b, Top::Put(Tri::Zero)), Vs8::one(0x62)),
            (w8::shift_left(&b, Lowest::High), Vs8::one(0x8B)),
            (w8::shift_left(&b, Lowest::Given(Tri::Zero)), Vs8::one(0x8A)),
            (w8::swap_digits(&b), Vs8::one(0x5C)),
        ],
    );
}

fn shifted(x: u16, top: Top) -> Vs16 {
    w16::shift_right(&Vs16::one(x), top)
}

/// The examples of SWPB and SXT in SLAU049, and shifts of words.
#[test]
fn rows_of_words(rt: HostRuntime) {
    are_equal(
        &rt,
        &[
            (w16::swap_bytes(&Vs16::one(0x40BF)), Vs16::one(0xBF40)),
            (w16::sign_extend(&Vs16::one(0x0080)), Vs16::one(0xFF80)),
            (w16::sign_extend(&Vs16::one(0xFF7F)), Vs16::one(0x007F)),
        ],
    );
    are_equal(
        &rt,
        &[
            (shifted(0x8001, Top::Sign), Vs16::one(0xC000)),
            (shifted(0x7FFF, Top::Sign), Vs16::one(0x3FFF)),
            (shifted(0x0001, Top::Low), Vs16::one(0x8000)),
            (shifted(0x8002, Top::Low), Vs16::one(0x4001)),
            (shifted(0x0002, Top::Put(Tri::One)), Vs16::one(0x8001)),
            (shifted(0x8000, Top::Put(Tri::Zero)), Vs16::one(0x4000)),
            (
                shifted(0x0003, Top::Put(Tri::Either)),
                list16(&rt, &[0x0001, 0x8001]),
            ),
        ],
    );
}

fn decimal_words(x: u16, y: u16, carry: Tri) -> Vs16 {
    w16::decimal_add(&Vs16::one(x), &Vs16::one(y), carry)
}

/// Four digits: 1234 + 5678 = 6912 and the like.
#[test]
fn decimal_sums_of_words(rt: HostRuntime) {
    let run = run16(&rt, 0x0000, 0x0010, 17);
    are_equal(
        &rt,
        &[
            (decimal_words(0x1234, 0x5678, Tri::Zero), Vs16::one(0x6912)),
            (decimal_words(0x0999, 0x0001, Tri::Zero), Vs16::one(0x1000)),
            (decimal_words(0x4705, 0x0295, Tri::One), Vs16::one(0x5001)),
            (decimal_words(0x9999, 0x0001, Tri::Zero), Vs16::one(0x0000)),
            (decimal_words(0x9999, 0x9999, Tri::One), Vs16::one(0x9999)),
            (decimal_words(0x0000, 0x0000, Tri::One), Vs16::one(0x0001)),
            (
                decimal_words(0x0999, 0x0000, Tri::Either),
                list16(&rt, &[0x0999, 0x1000]),
            ),
            (decimal_words(0x000A, 0x0001, Tri::Zero), Vs16::any()),
            (decimal_words(0x0001, 0xB000, Tri::Zero), Vs16::any()),
            (
                w16::decimal_add(&run, &Vs16::one(0x0000), Tri::Zero),
                Vs16::any(),
            ),
        ],
    );
}

fn decimal_bytes(x: u8, y: u8, carry: Tri) -> Vs8 {
    w8::decimal_add(&Vs8::one(x), &Vs8::one(y), carry)
}

#[test]
fn decimal_sums_of_bytes(rt: HostRuntime) {
    are_equal(
        &rt,
        &[
            (decimal_bytes(0x27, 0x35, Tri::Zero), Vs8::one(0x62)),
            (decimal_bytes(0x58, 0x46, Tri::One), Vs8::one(0x05)),
            (decimal_bytes(0x99, 0x01, Tri::Zero), Vs8::one(0x00)),
            (decimal_bytes(0x09, 0x90, Tri::Zero), Vs8::one(0x99)),
            (decimal_bytes(0x1A, 0x00, Tri::Zero), Vs8::any()),
        ],
    );
}

fn adjusted(a: u8, carry: Tri, half: Tri) -> Vs8 {
    w8::decimal_adjust(&Vs8::one(a), carry, half)
}

/// The two examples of DA in the MCS-51 instruction set, 56 + 67 + 1 and 30 + 99, and sums of two digits each.
#[test]
fn decimal_adjustments(rt: HostRuntime) {
    are_equal(
        &rt,
        &[
            (adjusted(0xBE, Tri::Zero, Tri::Zero), Vs8::one(0x24)),
            (adjusted(0xC9, Tri::Zero, Tri::Zero), Vs8::one(0x29)),
            (adjusted(0x11, Tri::Zero, Tri::One), Vs8::one(0x17)),
            (adjusted(0x20, Tri::One, Tri::Zero), Vs8::one(0x80)),
            (adjusted(0x32, Tri::One, Tri::One), Vs8::one(0x98)),
            (adjusted(0x9A, Tri::Zero, Tri::Zero), Vs8::one(0x00)),
            (adjusted(0xFA, Tri::Zero, Tri::Zero), Vs8::one(0x60)),
            (adjusted(0x45, Tri::Zero, Tri::Zero), Vs8::one(0x45)),
            (
                adjusted(0x11, Tri::Zero, Tri::Either),
                list8(&rt, &[0x11, 0x17]),
            ),
            (
                w8::decimal_adjust(&Vs8::any(), Tri::Either, Tri::Zero),
                Vs8::any(),
            ),
        ],
    );
}

/// A bit as `0`, `1` or `x`.
fn bit_of(digit: char) -> Tri {
    match digit {
        '0' => Tri::Zero,
        '1' => Tri::One,
        _ => Tri::Either,
    }
}

/// Puts the bits of a row, the last one first.
fn put_bits(bits: &mut [Tri], row: &str) {
    for (bit, digit) in bits.iter_mut().zip(row.chars().rev()) {
        *bit = bit_of(digit);
    }
}

/// Bits, the highest one first.
fn bits8(row: &str) -> [Tri; 8] {
    let mut bits = [Tri::Either; 8];
    put_bits(&mut bits, row);
    bits
}

fn bits16(row: &str) -> [Tri; 16] {
    let mut bits = [Tri::Either; 16];
    put_bits(&mut bits, row);
    bits
}

#[test]
fn known_bits(rt: HostRuntime) {
    let list = list8(&rt, &[0x05, 0x07]);
    are_equal(
        &rt,
        &[
            (w8::bits(&list), bits8("000001x1")),
            (w8::bits(&run8(&rt, 0x40, 4, 17)), bits8("xxxxxx00")),
            (w8::bits(&run8(&rt, 0x40, 2, 17)), bits8("01xxxxx0")),
            (w8::bits(&run8(&rt, 0xF0, 1, 0x20)), bits8("xxxxxxxx")),
            (w8::bits(&run8(&rt, 0xF1, 4, 17)), bits8("xxxxxx01")),
            (w8::bits(&run8(&rt, 0x03, 8, 0x20)), bits8("xxxxx011")),
        ],
    );
    let words = run16(&rt, 0x0200, 4, 0x20);
    are_equal(&rt, &[(w16::bits(&words), bits16("000000100xxxxx00"))]);
    are_equal(&rt, &[(w16::from_bits(&w16::bits(&words)), words)]);
    are_equal(&rt, &[(w8::from_bits(&w8::bits(&list)), list)]);
}

/// A counter that is 5 or 7, and words from FFF0h past the turn to 000Fh, beside single numbers.
#[test]
fn orders(rt: HostRuntime) {
    let counter = list8(&rt, &[0x05, 0x07]);
    let round = run16(&rt, 0xFFF0, 1, 0x20);
    are_equal(
        &rt,
        &[
            (w8::at_least(&counter, &Vs8::one(0x05)), Tri::One),
            (w8::at_least(&counter, &Vs8::one(0x06)), Tri::Either),
            (w8::at_least(&counter, &Vs8::one(0x08)), Tri::Zero),
            (w16::at_least(&round, &Vs16::one(0x0000)), Tri::One),
            (w16::at_least(&round, &Vs16::one(0xFFFF)), Tri::Either),
            (w16::at_least(&Vs16::one(0xFFFF), &round), Tri::One),
            (w8::equal(&counter, &Vs8::one(0x06)), Tri::Zero),
            (w8::equal(&counter, &Vs8::one(0x07)), Tri::Either),
            (w16::equal(&round, &Vs16::one(0x0010)), Tri::Zero),
            (w16::equal(&Vs16::one(5), &Vs16::one(5)), Tri::One),
        ],
    );
}

/// Bytes below 100h are their own low bytes, and their own words with the high byte 0.
#[test]
fn bytes_as_words(rt: HostRuntime) {
    let bytes = list8(&rt, &[0x02, 0x80, 0xFF]);
    let words = list16(&rt, &[0x02, 0x80, 0xFF]);
    let others = list16(&rt, &[0x02, 0x0102, 0x0280]);
    let run = run8(&rt, 0x10, 2, 0x20);
    are_equal(
        &rt,
        &[
            (w16::low(&words), bytes),
            (w16::low(&others), list8(&rt, &[0x02, 0x80])),
        ],
    );
    are_equal(
        &rt,
        &[
            (w16::pair(&bytes, &Vs8::one(0)), words),
            (
                w16::pair(&bytes, &Vs8::one(1)),
                list16(&rt, &[0x0102, 0x0180, 0x01FF]),
            ),
            (w16::pair(&run, &Vs8::one(0)), run16(&rt, 0x0010, 2, 0x20)),
        ],
    );
}

/// Carry, zero, sign and the lowest bit of the sum of two bytes and a carry.
struct SumFlags;

impl AllFlags for SumFlags {
    ghost use Rattle.std.specs.Prelude.{◌+◌, ◌%◌, ◌==◌, nat_le};
    ghost use Rattle.value_bits.specs.AllFlags.{flag_at};

    ghost modulus = { λ operation. 256 };

    ghost value = { λ operation place x y carry. flag_at place (record {
      first = nat_le 256 (x + y + carry);
      second = (x + y + carry) % 256 == 0;
      third = nat_le 128 ((x + y + carry) % 256);
      fourth = (x + y + carry) % 2 == 1;
    }) };

    fn are_set(&self, x: u16, y: u16, carry: u16) -> FourFlags {
        let sum = x + y + carry;
        FourFlags {
            first: 256 <= sum,
            second: sum % 256 == 0,
            third: 128 <= sum % 256,
            fourth: sum % 2 == 1,
        }
    }
}

fn sum_flags(a: &Vs8, b: &Vs8, carry: Tri) -> FourKnown {
    w8::all_agreed(&SumFlags, a, b, carry)
}

/// Four flags as `0`, `1` and `x`.
fn known(row: &str) -> FourKnown {
    let mut bits = [Tri::Either; 4];
    put_bits(&mut bits, row);
    let [fourth, third, second, first] = bits;
    FourKnown {
        first,
        second,
        third,
        fourth,
    }
}

#[test]
fn all_flags_at_once(rt: HostRuntime) {
    let (one, any) = (Vs8::one(0x01), Vs8::any());
    let low = list8(&rt, &[0x01, 0x03]);
    let high = list8(&rt, &[0x7D, 0xFD]);
    are_equal(
        &rt,
        &[
            (sum_flags(&one, &Vs8::one(0xFF), Tri::Zero), known("1100")),
            (sum_flags(&low, &Vs8::one(0x10), Tri::Either), known("000x")),
            (sum_flags(&low, &high, Tri::One), known("x0x1")),
            (sum_flags(&any, &low, Tri::Zero), known("xxxx")),
        ],
    );
}

/// More than 256 combinations.
#[test]
fn large_sets(rt: HostRuntime) {
    let any = Vs16::any();
    let even = run16(&rt, 0x0000, 2, 0x8000);
    are_equal(
        &rt,
        &[
            (w16::and(&any, &Vs16::one(0xFFFE)), even),
            (
                w16::and(&any, &Vs16::one(0x0003)),
                list16(&rt, &[0, 1, 2, 3]),
            ),
            (
                w16::or(&any, &Vs16::one(0x0001)),
                run16(&rt, 0x0001, 2, 0x8000),
            ),
            (w16::xor(&any, &Vs16::one(0x1234)), any),
            (
                w16::shift_right(&even, Top::Put(Tri::Zero)),
                run16(&rt, 0, 1, 0x8000),
            ),
            (w16::shift_right(&even, Top::Low), run16(&rt, 0, 1, 0x8000)),
            (w16::shift_right(&even, Top::Sign), any),
        ],
    );
}

/// Bytes of words, and words of bytes, of large sets.
#[test]
fn halves_of_large_sets(rt: HostRuntime) {
    let even = run16(&rt, 0x0000, 2, 0x8000);
    let (long, longer) = (run16(&rt, 0, 1, 0x200), run16(&rt, 0, 8, 0x400));
    are_equal(
        &rt,
        &[
            (w16::swap_bytes(&even), run16(&rt, 0, 1, 0xFF00)),
            (w16::swap_bytes(&long), run16(&rt, 0, 1, 0xFF02)),
            (w16::sign_extend(&longer), run16(&rt, 0, 8, 0x2000)),
            (
                w16::pair(&Vs8::any(), &Vs8::one(0x02)),
                run16(&rt, 0x0200, 1, 0x100),
            ),
            (
                w16::pair(&Vs8::any(), &list8(&rt, &[2, 3])),
                run16(&rt, 0x0200, 1, 0x200),
            ),
        ],
    );
    let list = list16(&rt, &[0x1234, 0x5634]);
    are_equal(
        &rt,
        &[
            (w16::low(&even), run8(&rt, 0x00, 2, 0x80)),
            (w16::low(&list), Vs8::one(0x34)),
            (
                w16::high(&run16(&rt, 0x0200, 1, 0x200)),
                list8(&rt, &[2, 3]),
            ),
            (w16::high(&Vs16::one(0x1234)), Vs8::one(0x12)),
        ],
    );
}
