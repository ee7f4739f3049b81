//! Some hundred sets to try the calls on.

use std::alloc::{AllocError, Global};
use value_set::Vs8;

/// Adds a set that isn't there yet.
fn add_sample(all: &mut Vec<Vs8>, set: Option<Vs8>) -> Result<(), AllocError> {
    if let Some(set) = set {
        if !all.as_slice().contains(&set) {
            all.push(set)?;
        }
    }
    Ok(())
}

/// Lists of 1 to 16 numbers from a base on, whose gaps grow from a stride on.
fn add_lists(
    alloc: Global,
    all: &mut Vec<Vs8>,
    base: u8,
    stride: u8,
    growth: u8,
) -> Result<(), AllocError> {
    let mut numbers = Vec::new(alloc);
    let mut number = base;
    let mut step = stride;
    for _ in 0..16 {
        numbers.push(number)?;
        number = number.wrapping_add(step);
        step = step.wrapping_add(growth);
        add_sample(all, Vs8::gather(&numbers))?;
    }
    Ok(())
}

/// Runs of a stride up to the longest one, and lists of 16 numbers.
fn add_runs(all: &mut Vec<Vs8>, stride: u8) -> Result<(), AllocError> {
    for base in [0, 6, 0x7F, 0xF0] {
        for more in [15, 16, 17, 25, 31, 36, 51, 63, 85, 127, 255] {
            add_sample(all, Vs8::run(base, stride, more + 1))?;
        }
    }
    Ok(())
}

/// Lists, with numbers next to each other, at equal gaps, past the turn, at growing gaps, and scattered; runs, and runs past the turn.
pub fn some_samples(alloc: Global) -> Result<Vec<Vs8>, AllocError> {
    let mut all = Vec::new(alloc);
    for (base, stride, growth) in [
        (0, 1, 0),
        (3, 16, 0),
        (16, 17, 0),
        (200, 7, 0),
        (5, 0, 1),
        (128, 31, 5),
        (9, 111, 64),
    ] {
        add_lists(alloc, &mut all, base, stride, growth)?;
    }
    for stride in [1, 2, 3, 4, 5, 7, 8, 10, 15] {
        add_runs(&mut all, stride)?;
    }
    Ok(all)
}
