//! Rows of sets that reports print, and the calls of sets of words.

use crate::given::{are_equal, list8, list16, run8, run16};
use value_set::{Form, Operation, Vs8, Vs16};

#[test]
fn joins_and_sums(rt: HostRuntime) {
    let (low, round) = (run8(&rt, 0x00, 1, 0x20), run8(&rt, 0xF0, 1, 0x20));
    let sixteen = Vs8::one(0x10);
    are_equal(
        &rt,
        &[
            (
                run8(&rt, 0x00, 4, 0x20).join(&Vs8::one(0x02)),
                run8(&rt, 0x00, 2, 0x3F),
            ),
            (round.add(&sixteen), low),
            (low.sub(&sixteen), round),
            (low.twice(), run8(&rt, 0x00, 2, 0x20)),
            (run8(&rt, 0x00, 4, 0x40).twice(), run8(&rt, 0x00, 8, 0x20)),
        ],
    );
}

#[test]
fn widens_to_marks(rt: HostRuntime) {
    let held = run8(&rt, 0x00, 1, 0x20);
    let new = Vs8::one(0x20);
    are_equal(
        &rt,
        &[
            (
                held.widen(&new, &[0x00, 0x01, 0x40]),
                run8(&rt, 0x00, 1, 0x40),
            ),
            (held.widen(&new, &[]), Vs8::any()),
            (held.widen(&Vs8::one(0x1F), &[]), held),
        ],
    );
}

#[test]
fn a_run_past_the_turn(rt: HostRuntime) {
    let run = run8(&rt, 0xF0, 1, 0x20);
    let even = run8(&rt, 0x00, 2, 0x3F);
    are_equal(
        &rt,
        &[
            (run.has(0x05), true),
            (run.has(0x10), false),
            (run.within(&run8(&rt, 0xE0, 1, 0x40)), true),
            (even.within(&run8(&rt, 0x00, 4, 0x20)), false),
        ],
    );
    let low = Vs8::gather(&[0, 1, 2, 3, 4, 5, 6, 7]);
    are_equal(&rt, &[(run.cut(0, 8), low), (run.cut(0x10, 0xE0), None)]);
}

#[test]
fn no_such_sets(rt: HostRuntime) {
    are_equal(
        &rt,
        &[
            (Vs8::gather(&[]), None),
            (Vs8::run(0, 1, 0), None),
            (Vs8::run(0, 1, 257), None),
            (Vs8::run(0, 0, 2), None),
            (Vs8::run(0, 16, 17), None),
            (Vs8::run(0, 255, 3), None),
        ],
    );
    are_equal(
        &rt,
        &[
            (Vs16::gather(&[]), None),
            (Vs16::run(0, 1, 0), None),
            (Vs16::run(0, 1, 65537), None),
            (Vs16::run(0, 0, 2), None),
            (Vs16::run(0, 4096, 17), None),
        ],
    );
}

#[test]
fn long_lists(rt: HostRuntime) {
    let mut list = [0x1000; 300];
    let same = Vs16::gather(list.as_slice());
    for i in 0..300u16 {
        list[i as usize] = 0x2000 - 8 * i;
    }
    are_equal(
        &rt,
        &[
            (same, Some(Vs16::one(0x1000))),
            (
                Vs16::gather(list.as_slice()),
                Some(run16(&rt, 0x16A8, 8, 300)),
            ),
        ],
    );
}

/// Lists below 100h are the same as bytes and as words. A run past the turn is gathered anew.
#[test]
fn bytes_and_words(rt: HostRuntime) {
    let bytes = list8(&rt, &[0x02, 0x80, 0xFF]);
    let words = list16(&rt, &[0x02, 0x80, 0xFF]);
    are_equal(
        &rt,
        &[
            (Vs16::from_bytes(&bytes), words),
            (
                Vs16::from_bytes(&run8(&rt, 0x10, 2, 0x20)),
                run16(&rt, 0x0010, 2, 0x20),
            ),
            (
                Vs16::from_bytes(&run8(&rt, 0xF8, 1, 0x18)),
                run16(&rt, 0x0000, 1, 0x100),
            ),
        ],
    );
    are_equal(
        &rt,
        &[
            (words.as_bytes(), Some(bytes)),
            (Vs16::one(0x0100).as_bytes(), None),
            (run16(&rt, 0x0000, 1, 0x20).as_bytes(), None),
        ],
    );
}

/// Answers the first number.
struct First {
    modulus: u32,
}

impl Operation for First {
    ghost modulus = { λ operation. operation.modulus };

    ghost answer = { λ operation x y carry. x };

    fn apply(&self, x: u16, _y: u16, _carry: u16) -> u16 {
        x
    }

    ghost stays_below = { λ operation x y carry x_below y_below carry_below. x_below };
}

#[test]
fn words(rt: HostRuntime) {
    let list = list16(&rt, &[0x0400, 0x0200, 0x0400]);
    let all = run16(&rt, 0x0000, 2, 0x8000);
    are_equal(
        &rt,
        &[
            (list.count(), 2),
            (list.join(&Vs16::one(0x0300)).count(), 3),
            (Vs16::any().count(), 65536),
        ],
    );
    are_equal(
        &rt,
        &[
            (list.within(&all), true),
            (all.has(0xFFFE), true),
            (all.has(0xFFFF), false),
        ],
    );
    are_equal(
        &rt,
        &[
            (all.add(&list), all),
            (all.sub(&list), all),
            (list.twice(), list16(&rt, &[0x0400, 0x0800])),
            (
                Vs16::one(0).widen(&Vs16::one(2), &[0, 0x40]),
                run16(&rt, 0x0000, 2, 0x20),
            ),
        ],
    );
    are_equal(&rt, &[(all.cut(0x0201, 2), Some(Vs16::one(0x0202)))]);
}

/// The least member of a set.
fn least_of(set: &Vs16) -> Option<u16> {
    let place = 0;
    if place < set.count() {
        Some(set.nth(place))
    } else {
        None
    }
}

/// The base, the stride and the count of a run.
fn run_of(set: &Vs16) -> Option<(u16, u16, u32)> {
    match set.form() {
        Form::Run(run) => Some((run.base, run.stride, run.count)),
        Form::Values(_) => None,
    }
}

#[test]
fn forms(rt: HostRuntime) {
    let list = list16(&rt, &[0x0400, 0x0200]);
    let run = run16(&rt, 0x0000, 2, 0x8000);
    are_equal(&rt, &[(least_of(&list), Some(0x0200))]);
    are_equal(&rt, &[(run_of(&run), Some((0, 2, 0x8000)))]);
}

/// The least and the greatest member of a set.
fn ends_of(set: &Vs16) -> (u16, u16) {
    (set.least(), set.greatest())
}

/// One word, a list, a run, one past the turn, and all words.
#[test]
fn ends(rt: HostRuntime) {
    let list = list16(&rt, &[0x0400, 0x0200, 0x0300]);
    let (run, round) = (run16(&rt, 0x0200, 2, 0x20), run16(&rt, 0xFFF2, 3, 0x20));
    are_equal(
        &rt,
        &[
            (ends_of(&Vs16::one(0x1234)), (0x1234, 0x1234)),
            (ends_of(&list), (0x0200, 0x0400)),
            (ends_of(&run), (0x0200, 0x023E)),
            (ends_of(&round), (0x0001, 0xFFFE)),
            (ends_of(&Vs16::any()), (0x0000, 0xFFFF)),
        ],
    );
}

#[test]
fn combines(rt: HostRuntime) {
    let first = First { modulus: 65536 };
    let seven = Vs16::one(7);
    let found = Vs16::combine(&first, &seven, &Vs16::one(1), &Vs16::one(0));
    are_equal(&rt, &[(found, seven)]);
    let First { modulus: _ } = first;
}
