//! The least and the greatest stack pointer of a set.

use report_bytes::{greatest_number, least_number};
use value_set::{Vs8, Vs16};

fn least_of(base: u16, stride: u16, count: u32) -> Option<Option<u16>> {
    Some(least_number(&Vs16::run(base, stride, count)?))
}

#[test]
fn rows_of_the_least_stack_pointer(rt: HostRuntime) {
    for (base, stride, count, least) in [
        (0x0200, 2, 0x20, Some(0x0200)),
        (0x0274, 2, 3, Some(0x0274)),
        // runs that go round
        (0xFFF0, 2, 0x20, Some(0x0000)),
        (0xFFF0, 3, 0x20, Some(0x0002)),
        (0x0001, 2, 0x8000, Some(0x0001)),
        // whole sets
        (0x0000, 2, 0x8000, None),
        (0x0000, 1, 0x10000, None),
    ] {
        assert_eq!(rt; least_of(base, stride, count), Some(least));
    }
}

fn greatest_of(base: u8, stride: u8, count: u32) -> Option<Option<u8>> {
    Some(greatest_number(&Vs8::run(base, stride, count)?))
}

#[test]
fn rows_of_the_greatest_stack_pointer(rt: HostRuntime) {
    for (base, stride, count, greatest) in [
        (0x07, 2, 0x20, Some(0x45)),
        (0x33, 1, 3, Some(0x35)),
        // runs that go round
        (0xF0, 2, 0x20, Some(0xFE)),
        (0xF1, 3, 0x20, Some(0xFD)),
        (0x00, 2, 0x80, Some(0xFE)),
        // all bytes
        (0x00, 1, 0x100, None),
    ] {
        assert_eq!(rt; greatest_of(base, stride, count), Some(greatest));
    }
}
