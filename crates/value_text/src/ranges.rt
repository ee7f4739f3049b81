//! Touched ranges.

ghost use Rattle.std.specs.Prelude.{◌≡◌, ◌++◌, ◌≤◌, IfOk, OnOk};
ghost use Rattle.std.specs.Option.{option_map};
ghost use Rattle.irq_frames.specs.Ranges.{AreRanges};
ghost use Rattle.value_text.specs.Ranges as fields;

use irq_frames::Ranges;
use no_memory::Memory;
use std::alloc::{AllocError, Global};
use text_fields::{Field, cut, number, push_list_or_mark, push_number, read_list_or_mark};

/// A range as a field, with addresses of so many digits.
#[derive(Clone, Copy)]
struct RangeField {
    digits: u8,
    ghost few: { digits ≤ 4 },
}

impl Field for RangeField {
    type Value = (u16, u16);

    ghost use Rattle.value_text.specs.Ranges.{range_field};

    ghost field = { λ range. range_field range.digits };

    fn read(&self, text: &[u8]) -> Option<(u16, u16)> {
        let (first, last) = cut(text, b'-')?;
        Some((number(first, self.digits)?, number(last, self.digits)?))
    }

    fn push(&self, value: &(u16, u16), out: &mut Vec<u8>) -> Result<(), AllocError> {
        push_number(out, value.0, self.digits)?;
        out.push(b'-')?;
        push_number(out, value.1, self.digits)
    }
}

/// Whether ranges from an address on to another ascend, and neither overlap nor touch.
fn are_ranges(from: u16, hi: u16, ranges: &[(u16, u16)]) -> bool
    ensures { result ≡ fields.are_ranges from hi ranges.now }
{
    let mut low = from as u32;
    for range in ranges {
        if low <= range.0 as u32 && range.0 <= range.1 && range.1 <= hi {
            low = range.1 as u32 + 2;
        } else {
            return false;
        }
    }
    true
}

/// The addresses of these ranges.
fn ranges_of(alloc: Global, ranges: &[(u16, u16)]) -> Result<Ranges, Memory>
    requires { AreRanges 0 65535 ranges.now }
    ensures { IfOk result (λ all. all ≡ ranges.now) }
{
    let mut all = Ranges::new(alloc);
    for range in ranges {
        all.add(range.0, range.1)?;
    }
    Ok(all)
}

/// The ranges that a text spells, of addresses of so many digits from one on to another.
pub fn read_ranges(
    alloc: Global,
    digits: u8,
    lo: u16,
    hi: u16,
    text: &[u8],
) -> Result<Option<Ranges>, Memory>
    requires { digits ≤ 4 }
    ensures { IfOk result (λ found. found ≡ (fields.ranges_field digits lo hi).value text.now) }
{
    let field = RangeField { digits };
    let Some(ranges) = read_list_or_mark(alloc, &field, b',', b"-".as_slice(), text)? else {
        return Ok(None);
    };
    if !are_ranges(lo, hi, &ranges) {
        return Ok(None);
    }
    Ok(Some(ranges_of(alloc, &ranges)?))
}

/// Adds ranges of addresses of so many digits.
pub fn push_ranges(digits: u8, ranges: &Ranges, out: &mut Vec<u8>) -> Result<(), AllocError>
    requires { digits ≤ 4 }
    ensures { OnOk result (out.new.items ≡ out.old.items ++ fields.ranges_text digits ranges.now) }
{
    let field = RangeField { digits };
    push_list_or_mark(&field, b',', b"-".as_slice(), ranges.list(), out)
}
