//! Works of stores of the MCS-51 of which something is promised.

use crate::images::image_of;
use call_context::{Item, Sequence, Set, Unit};
use chip_analysis::Chip;
use chip_numbers::Space;
use image::Rules;
use mcs51_flow::{Limits, Mcs51Chip};
use promises::{Promise, Window, Windows};
use std::alloc::Global;
use std::test::Fail;
use value_set::Vs8;

/// MOV @R0,#0.
const STORES: &str = ":02000000760088\n:00000001FF\n";

fn chip_of(alloc: Global) -> Option<Mcs51Chip> {
    let limits = Limits {
        calls: 6,
        targets: 64,
    };
    let image = image_of(alloc, Rules::Mcs51, STORES)?;
    Mcs51Chip::new(alloc, image, limits).ok()
}

/// The chip where the instruction stores up to 30h.
fn promised(alloc: Global) -> Option<Mcs51Chip> {
    let window = Window::Between { lo: 0, hi: 0x30 };
    let promise = Promise::Write {
        pc: 0,
        windows: Windows::from_slice(&[window]),
    };
    let promises = vec![in alloc; promise].ok()?;
    let chip = chip_of(alloc)?;
    Some(chip.with_promises(Sequence::from_vec(promises)))
}

/// Where the first instruction writes RAM.
fn written(alloc: Global, chip: &Mcs51Chip) -> Option<Vs8> {
    let (node, start) = chip.start(alloc).ok()?;
    let work = chip.work(alloc, &Unit::One(node), &start, None).ok()?;
    for item in work.items.as_slice() {
        if let Item::Access {
            space: Space::Ram,
            write: true,
            at: Set::B(at),
            ..
        } = item
        {
            return Some(*at);
        }
    }
    None
}

#[test]
fn a_store_is_shown_where_it_is_promised(rt: HostRuntime) -> Result<(), Fail> {
    let chip = chip_of(rt.alloc()).ok_or("a chip")?;
    assert_eq!(rt; written(rt.alloc(), &chip), Some(Vs8::any()));
    let chip = promised(rt.alloc()).ok_or("a chip with a promise")?;
    let wanted = Vs8::run(0, 1, 0x31).ok_or("a run")?;
    assert_eq!(rt; written(rt.alloc(), &chip), Some(wanted));
    Ok(())
}
