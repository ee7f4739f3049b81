//! Makes a stated number of calls on sets, and prints the sum of what they answer. It is timed from outside.
#![tactic(auto)]

use std::{env, io};
use value_set::Vs16;

/// How many sets there are of a kind.
const SETS: usize = 16;

/// Runs of some hundred members with several strides, some past the turn.
fn runs() -> [Vs16; SETS] {
    let mut all = [Vs16::any(); SETS];
    for place in 0..SETS {
        let base = (place * 4001) as u16;
        let stride = [1, 2, 4, 8][place % 4];
        if let Some(set) = Vs16::run(base, stride, 0x200) {
            all[place] = set;
        }
    }
    all
}

/// Lists of eight members.
fn lists() -> [Vs16; SETS] {
    let mut all = [Vs16::any(); SETS];
    for place in 0..SETS {
        if let Some(set) = Vs16::run((place * 3) as u16, 5, 8) {
            all[place] = set;
        }
    }
    all
}

/// Makes a call on one pair of sets after another.
fn repeat<F: Fn(&Vs16, &Vs16) -> u32>(sets: &[Vs16; SETS], times: u32, call: F) -> u32
    requires { F.IsAlwaysCallable call }
{
    let mut sum = 0u32;
    for turn in 0..times {
        let pair = turn as usize % (SETS * SETS);
        sum = sum.wrapping_add(call(&sets[pair / SETS], &sets[pair % SETS]));
    }
    sum
}

/// Inclusion by a plain loop over members.
fn within_by_members(set: &Vs16, other: &Vs16) -> bool {
    for place in 0..set.count() {
        if !has_by_members(other, set.nth(place)) {
            return false;
        }
    }
    true
}

/// Membership by a plain loop over members.
fn has_by_members(set: &Vs16, value: u16) -> bool {
    for place in 0..set.count() {
        if set.nth(place) == value {
            return true;
        }
    }
    false
}

/// How many members two sets have together, by a plain loop over members.
fn together_by_members(set: &Vs16, other: &Vs16) -> u32 {
    let mut sum = other.count();
    for place in 0..set.count() {
        if !has_by_members(other, set.nth(place)) {
            sum = sum.wrapping_add(1);
        }
    }
    sum
}

/// The sum of the answers of a call by its name, or none of another name.
fn sum_of(name: &str, times: u32) -> Option<u32> {
    let (runs, lists) = (runs(), lists());
    let sum = match name {
        "nothing" => repeat(&runs, times, |_, other| other.count()),
        "has" => repeat(&runs, times, |set, _| u32::from(set.has(4003))),
        "has_by_members" => repeat(&runs, times, |set, _| u32::from(has_by_members(set, 4003))),
        "within" => repeat(&runs, times, |set, other| u32::from(set.within(other))),
        "within_by_members" => repeat(
            &runs,
            times,
            |set, other| u32::from(within_by_members(set, other)),
        ),
        "join" => repeat(&runs, times, |set, other| set.join(other).count()),
        "join_by_members" => repeat(&runs, times, together_by_members),
        "widen" => repeat(
            &runs,
            times,
            |set, other| set
                .widen(other, [0x0000, 0x8000, 0xFFFF].as_slice())
                .count(),
        ),
        "cut" => repeat(
            &runs,
            times,
            |set, _| set.cut(0x1000, 0x800).map_or(0, |part| part.count()),
        ),
        "add" => repeat(&runs, times, |set, other| set.add(other).count()),
        "within_lists" => repeat(&lists, times, |set, other| u32::from(set.within(other))),
        "join_lists" => repeat(&lists, times, |set, other| set.join(other).count()),
        "add_lists" => repeat(&lists, times, |set, other| set.add(other).count()),
        _ => return None,
    };
    Some(sum)
}

fn main(rt: HostRuntime) -> io::Result<()> {
    let words: Vec<String> = env::args(&rt)?.collect(rt.alloc())?;
    let mut times = 256;
    if let Some(word) = words.get(1) {
        times = word.as_str().parse::<u32>().unwrap_or(256);
    }
    for word in words.iter().skip(2) {
        match sum_of(word.as_str(), times) {
            Some(sum) => println!(&rt; "{sum}")?,
            None => println!(&rt; "no such call")?,
        }
    }
    Ok(())
}
