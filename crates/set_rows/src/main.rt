//! Every call of sets of bytes and of their known bits, over all pairs of some hundred sets. A line of the standard output has a
//! call, how many answers it gave, and a sum of them. What stands there is worked out by `tools/set-model`, by plain loops over the
//! 256 numbers.
#![tactic(auto)]

mod bits;
mod calls;
mod operations;
mod samples;
mod sums;

use crate::bits::{adjusted, bits, moved, word_results};
use crate::calls::{Call, ends, gathered, members, over_pairs, runs};
use crate::samples::some_samples;
use crate::sums::Sum;
use std::io;
use value_set::Vs8;

/// Prints what each call on two sets answers.
fn print_pairs(rt: &HostRuntime, all: &[Vs8]) -> io::Result<()> {
    let (zero, one) = (Vs8::one(0), Vs8::one(1));
    let either = zero.join(&one);
    for (name, call) in &[
        ("twice", Call::Twice),
        ("within", Call::Within),
        ("join", Call::Join),
        ("widen", Call::Widen(&[])),
        ("widen", Call::Widen(&[0x00, 0x40, 0x80])),
        ("widen", Call::Widen(&[0xF0, 0x20])),
        ("add", Call::Add),
        ("sub", Call::Sub),
        ("cut", Call::Cut),
        ("combine", Call::Combine(&zero)),
        ("combine", Call::Combine(&one)),
        ("combine", Call::Combine(&either)),
        ("and", Call::And),
        ("or", Call::Or),
        ("xor", Call::Xor),
        ("decimal_add", Call::DecimalAdd),
        ("agreed", Call::Agreed),
    ] {
        println!(rt; "{name} {}", over_pairs(all, *call))?;
    }
    Ok(())
}

/// Prints names of calls, and what these answer.
fn print_all(rt: &HostRuntime, answers: &[(&str, Sum)]) -> io::Result<()> {
    for (name, sum) in answers {
        println!(rt; "{name} {sum}")?;
    }
    Ok(())
}

/// Prints what each call answers: on one set, on two, and on the bits of sets.
fn print_answers(rt: &HostRuntime, all: &[Vs8]) -> io::Result<()> {
    let gathered = gathered(rt.alloc(), all)?;
    println!(rt; "{} sets", all.len())?;
    print_all(
        rt,
        &[
            ("members", members(all)),
            ("run", runs()),
            ("gather", gathered),
            ("ends", ends(all)),
        ],
    )?;
    print_pairs(rt, all)?;
    print_all(
        rt,
        &[
            ("bits", bits(all)),
            ("shift", moved(all)),
            ("decimal_adjust", adjusted(all)),
            ("words", word_results(all)),
        ],
    )
}

fn main(rt: HostRuntime) -> io::Result<()> {
    let all = some_samples(rt.alloc())?;
    print_answers(&rt, all.as_slice())
}
