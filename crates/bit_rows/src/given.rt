//! What rows begin with, and how they are held against answers.

use std::fmt::Debug;
use std::process::Abort;
use value_set::{Vs8, Vs16};

pub(crate) fn run8(rt: &impl Abort, base: u8, stride: u8, count: u32) -> Vs8 {
    Vs8::run(base, stride, count).expect(rt, "a run of bytes")
}

pub(crate) fn run16(rt: &impl Abort, base: u16, stride: u16, count: u32) -> Vs16 {
    Vs16::run(base, stride, count).expect(rt, "a run of words")
}

pub(crate) fn list8(rt: &impl Abort, values: &[u8]) -> Vs8 {
    Vs8::gather(values).expect(rt, "a list of bytes")
}

pub(crate) fn list16(rt: &impl Abort, values: &[u16]) -> Vs16 {
    Vs16::gather(values).expect(rt, "a list of words")
}

/// Each answer is the one beside it.
pub(crate) fn are_equal<T: Debug + PartialEq>(rt: &impl Abort, rows: &[(T, T)]) {
    for (found, wanted) in rows {
        assert_eq!(rt; *found, *wanted);
    }
}
