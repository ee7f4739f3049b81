//! The sets of long lists. They are read once for each page of the numbers, so that no copy of them is kept.

ghost use Rattle.std.specs.Prelude.{◌≡◌, ◌+◌, ◌<◌, ◌≤◌, length, map, All, IsNone, IfSome};
ghost use Rattle.std.specs.List.{fold};
ghost use Rattle.value_set.specs.Form as forms;
ghost use Rattle.value_set.specs.Form.{Ascends, ascending, hull_base, greater};
ghost use Rattle.value_set.specs.Gaps.{decided, onward, lesser, HasMarks};

use crate::few::{Few, LONGEST};
use crate::form::Form;
use crate::gap::Gap;
use crate::gathering::{common_stride, farthest, make, put, steps_to};
use crate::number::Number;
use arrayvec::ArrayVec;

/// How many numbers a page has, which are marked at once.
const PAGE: usize = 4096;

/// The set of the numbers of a long list.
pub fn gather_long<N: Number>(modulus: u32, list: &[N]) -> Form
    requires small { modulus ≤ 65536 }
    requires below { All (λ n. N.number n < modulus) list.now }
    requires some { 1 ≤ length list.now }
    ensures { result ≡ forms.gather modulus (map N.number list.now) }
{
    match few_of(list) {
        Some(few) => Form::Values(few),
        None => run_of(modulus, list),
    }
}

/// The numbers of a list in ascending order, where they are few.
fn few_of<N: Number>(list: &[N]) -> Option<Few<LONGEST>>
    ensures few { IfSome result (λ few. length few ≤ 16 × (few ≡ ascending (map N.number list.now))) }
    ensures many { IsNone result → 16 < length (ascending (map N.number list.now)) }
{
    let mut values = ArrayVec::new();
    for number in list {
        put(&mut values, number.number());
        if values.len() > LONGEST {
            return None;
        }
    }
    Some(Few::from_slice(values.as_slice()))
}

/// The run that many numbers are drawn from.
fn run_of<N: Number>(modulus: u32, list: &[N]) -> Form
    requires small { modulus ≤ 65536 }
    requires below { All (λ n. N.number n < modulus) list.now }
    requires many { 16 < length (ascending (map N.number list.now)) }
    ensures { result ≡ forms.gather modulus (map N.number list.now) }
{
    let base = base_of(modulus, list);
    let stride = common_stride(modulus, base, list) as u32;
    let count = steps_to(farthest(modulus, base, list), stride);
    make(modulus, base as u32, stride, count)
}

/// The number behind the widest gap on the circle, the least one of several.
fn base_of<N: Number>(modulus: u32, list: &[N]) -> u16
    requires small { modulus ≤ 65536 }
    requires below { All (λ n. N.number n < modulus) list.now }
    requires some { 1 ≤ length list.now }
    ensures value { result ≡ hull_base modulus (ascending (map N.number list.now)) }
    ensures below { result < modulus }
{
    let mut gap = Gap::around(modulus, least(list), greatest(list));
    for page in 0..modulus.div_ceil(PAGE as u32) {
        gap = past_page(modulus, page * PAGE as u32, list, gap);
    }
    gap.base
}

/// The least number of a list, or the greatest of all numbers.
fn least<N: Number>(list: &[N]) -> u16
    ensures { result ≡ fold lesser 65535 (map N.number list.now) }
{
    let mut least = u16::MAX;
    for number in list {
        least = least.min(number.number());
    }
    least
}

/// The greatest number of a list, or 0.
fn greatest<N: Number>(list: &[N]) -> u16
    ensures { result ≡ fold greater 0 (map N.number list.now) }
{
    let mut greatest = 0;
    for number in list {
        greatest = number.number().max(greatest);
    }
    greatest
}

/// The widest gap once the numbers of a page have come too.
fn past_page<N: Number>(modulus: u32, low: u32, list: &[N], gap: Gap) -> Gap
    requires small { modulus ≤ 65536 }
    requires below { All (λ n. N.number n < modulus) list.now }
    requires page { low ≤ 61440 }
    requires upward { Ascends gap.previous modulus (onward low (ascending (map N.number list.now))) }
    ensures decides { let numbers = ascending (map N.number list.now) in
        decided result (onward (low + 4096) numbers) ≡ decided gap (onward low numbers) }
    ensures still_upward { Ascends result.previous modulus (onward (low + 4096) (ascending (map N.number list.now))) }
{
    let marked = marks_of(low, list);
    let mut gap = gap;
    for (place, is_there) in marked.iter().enumerate() {
        if *is_there {
            gap = gap.past((low + place as u32) as u16);
        }
    }
    gap
}

/// Which numbers of a page a list has.
fn marks_of<N: Number>(low: u32, list: &[N]) -> [bool; PAGE]
    requires { low ≤ 61440 }
    ensures { HasMarks low (map N.number list.now) result }
{
    let mut marked = [false; PAGE];
    for number in list {
        let number = number.number() as u32;
        if low <= number && number < low + PAGE as u32 {
            marked[(number - low) as usize] = true;
        }
    }
    marked
}
