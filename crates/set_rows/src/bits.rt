//! Calls on known bits and digits over all samples.

use crate::operations::CarryOut;
use crate::sums::Sum;
use value_bits::{Lowest, Top, Tri, w8, w16};
use value_set::{Vs8, Vs16};

/// What a bit may be.
const BITS: [Tri; 3] = [Tri::Zero, Tri::One, Tri::Either];

/// A bit as a number: 2 is either.
fn number_of(bit: Tri) -> u32 {
    match bit {
        Tri::Zero => 0,
        Tri::One => 1,
        Tri::Either => 2,
    }
}

/// Adds the decimal sums of two sets, with each carry.
pub fn add_decimal_sums(sum: &mut Sum, one: &Vs8, other: &Vs8) {
    for carry in BITS {
        sum.add_set(&w8::decimal_add(one, other, carry));
    }
}

/// Adds the carry of the sum of two sets, with each carry.
pub fn add_carries(sum: &mut Sum, one: &Vs8, other: &Vs8) {
    for carry in BITS {
        sum.add(number_of(w8::agreed(&CarryOut, one, other, carry)));
    }
}

/// The bits of each set, and what they make.
pub fn bits(all: &[Vs8]) -> Sum {
    let mut sum = Sum::new();
    for set in all {
        let bits = w8::bits(set);
        for bit in bits {
            sum.add(number_of(bit));
        }
        sum.add_set(&w8::from_bits(&bits));
    }
    sum
}

/// Each set moved down a place by each top bit, up a place by each lowest bit, and with its digits changed.
pub fn moved(all: &[Vs8]) -> Sum {
    let mut sum = Sum::new();
    for set in all {
        for top in [Top::Sign, Top::Low] {
            sum.add_set(&w8::shift_right(set, top));
        }
        sum.add_set(&w8::shift_left(set, Lowest::High));
        for bit in BITS {
            sum.add_set(&w8::shift_right(set, Top::Put(bit)));
            sum.add_set(&w8::shift_left(set, Lowest::Given(bit)));
        }
        sum.add_set(&w8::swap_digits(set));
    }
    sum
}

/// Each set adjusted to decimal, with each carry and half carry.
pub fn adjusted(all: &[Vs8]) -> Sum {
    let mut sum = Sum::new();
    for set in all {
        for carry in BITS {
            for half in BITS {
                sum.add_set(&w8::decimal_adjust(set, carry, half));
            }
        }
    }
    sum
}

fn word(low: u8, high: u8) -> u16 {
    u16::from(high) * 256 + u16::from(low)
}

/// Words of two sets of bytes, and what is made of them.
#[derive(Drop)]
struct Words {
    all: Vs16,
    low: Vs8,
    high: Vs8,
    swapped: Vs16,
    extended: Vs16,
}

impl Words {
    fn of(lows: &Vs8, highs: &Vs8) -> Words {
        let all = w16::pair(lows, highs);
        Words {
            all,
            low: w16::low(&all),
            high: w16::high(&all),
            swapped: w16::swap_bytes(&all),
            extended: w16::sign_extend(&all),
        }
    }

    /// Whether the word of two bytes has its results.
    fn has(&self, low: u8, high: u8) -> bool {
        let sign = if low < 128 { 0 } else { 0xFF };
        self.all.has(word(low, high))
            && self.low.has(low)
            && self.high.has(high)
            && self.swapped.has(word(high, low))
            && self.extended.has(word(low, sign))
    }
}

/// How many words of two sets have their results.
fn words_of(lows: &Vs8, highs: &Vs8) -> u32 {
    let words = Words::of(lows, highs);
    let mut count = 0u32;
    for place in 0..lows.count() {
        let low = lows.nth(place);
        for other in 0..highs.count() {
            count = count.wrapping_add(u32::from(words.has(low, highs.nth(other))));
        }
    }
    count
}

/// Of one of 23 pairs of sets how many words have their results: all.
pub fn word_results(all: &[Vs8]) -> Sum {
    let mut turn = 0u8;
    let mut sum = Sum::new();
    for lows in all {
        for highs in all {
            turn = turn.wrapping_add(11);
            if turn < 11 {
                sum.add(words_of(lows, highs));
            }
        }
    }
    sum
}
