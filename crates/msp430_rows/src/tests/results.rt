//! Results that no instruction writes, against rows worked by hand from SLAU049, chapter 3: of CMP, of BIT and of CALL.

use super::given::{are_equal, number};
use msp430_decode::{Operation, SingleOperation, Width};
use msp430_results::{FlagBits, double_made, single_made};
use value_bits::Tri::{self, Either, One, Zero};

fn flags(carry: Tri, zero: Tri, negative: Tri, overflow: Tri) -> Option<FlagBits> {
    Some(FlagBits {
        carry,
        zero,
        negative,
        overflow,
    })
}

#[test]
fn rows(rt: HostRuntime) {
    use Operation::{Bit, Cmp};
    use Width::{Byte, Word};
    are_equal(
        &rt,
        &[
            (
                double_made(Cmp, Byte, &number(0x0080), &number(0x007F), Either, None),
                (number(0x00FF), flags(Zero, Zero, One, One)),
            ),
            (
                double_made(Bit, Word, &number(0x00FF), &number(0xFF00), Either, None),
                (number(0x0000), flags(Zero, One, Zero, Zero)),
            ),
            (
                single_made(SingleOperation::Call, Word, &number(0xF000), Either, None),
                (number(0xF000), None),
            ),
        ],
    );
}
