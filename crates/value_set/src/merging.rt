//! Two ascending lists, walked along side by side.

ghost use Rattle.std.specs.Prelude.{◌≡◌, ℕ, ◌≤◌, ◌↔◌, ◌++◌, IsTrue, length};
ghost use Rattle.std.specs.List.{Contains};
ghost use Rattle.value_set.specs.Form.{Ascends};
ghost use Rattle.value_set.specs.Joining as joins;
ghost use Rattle.value_set.specs.Merging as merging;

use crate::few::{Few, LONGEST};

/// Whether each number of an ascending list is one of another.
pub fn list_within(smaller: &[u16], larger: &[u16]) -> bool
    requires smaller_ascends { Ascends 0 65536 smaller.now }
    requires larger_ascends { Ascends 0 65536 larger.now }
    ensures { IsTrue result ↔ ((v : ℕ) → Contains smaller.now v → Contains larger.now v) }
{
    let mut found = 0;
    for number in larger {
        if found == smaller.len() {
            return true;
        }
        if smaller[found] < *number {
            return false;
        }
        if smaller[found] == *number {
            found += 1;
        }
    }
    found == smaller.len()
}

/// Adds numbers at the end, where there is room for all of them.
fn with_all(few: Few<LONGEST>, numbers: &[u16]) -> Option<Few<LONGEST>>
    requires { length few ≤ 16 }
    ensures { result ≡ merging.if_few (few ++ numbers.now) }
{
    if few.len() + numbers.len() > LONGEST {
        return None;
    }
    let mut all = few;
    for number in numbers {
        all.push(*number);
    }
    Some(all)
}

/// Two ascending lists together, where they are few.
pub fn few_together(first: &[u16], second: &[u16]) -> Option<Few<LONGEST>>
    requires first_ascends { Ascends 0 65536 first.now }
    requires second_ascends { Ascends 0 65536 second.now }
    ensures { result ≡ joins.few_together first.now second.now }
{
    let mut few = Few::new();
    let (mut at, mut other) = (0, 0);
    while at < first.len() && other < second.len() {
        if few.len() == LONGEST {
            return None;
        }
        let (one, two) = (first[at], second[other]);
        if one < two {
            few.push(one);
            at += 1;
        } else if two < one {
            few.push(two);
            other += 1;
        } else {
            few.push(one);
            at += 1;
            other += 1;
        }
    }
    if at < first.len() {
        return with_all(few, &first[at..]);
    }
    with_all(few, &second[other..])
}
