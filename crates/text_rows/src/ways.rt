//! Ways from an address.

ghost use Rattle.std.specs.Prelude.{◌≡◌, [], IfOk};
ghost use Rattle.call_context.specs.declared.node.Frame.{Frame as AFrame};

use crate::numbers::{halves, run_of, word_of};
use arrayvec::ArrayVec;
use call_context::{Calls, Frame, Item, Node, Sequence};
use no_memory::Memory;
use std::alloc::{AllocError, Global};
use unit_ways::{Site, Ways, add_each, add_either};
use value_set::Vs16;

/// A number that is known.
#[derive(Drop)]
struct Number {
    number: u8,
}

/// An address in the base frame, with no calls; of two numbers that of the way on stands for both.
#[derive(Drop)]
struct Place {
    pc: u16,
}

impl Site for Place {
    type Known = Number;

    ghost address = { λ place. place.pc };

    ghost frame_of = { λ place. AFrame.Base };

    ghost label = { λ place to. [] };

    ghost joined = { λ on jumped. on };

    fn pc(&self) -> u16 {
        self.pc
    }

    fn frame(&self) -> Frame {
        Frame::Base
    }

    fn calls_at(&self, to: u16) -> Calls {
        Calls::new()
    }

    fn copy(&self, alloc: Global, known: &Number) -> Result<Number, Memory> {
        Ok(Number {
            number: known.number,
        })
    }

    fn join(&self, alloc: Global, on: &Number, jumped: &Number) -> Result<Number, Memory> {
        Ok(Number { number: on.number })
    }
}

/// Where an edge from F000h leads, if a state is posted there, in the base frame and with no calls.
fn way_of(item: &Item, node: &Node) -> Option<u16> {
    match (item, node) {
        (Item::Edge { from: 0xF000, to }, Node::At(at, calls, Frame::Base))
            if at == to && calls.is_empty() => Some(*to),
        _ => None,
    }
}

/// Adds where a way goes, and with which number.
fn push_way(out: &mut String, way: Option<u16>, number: u8) -> Result<(), AllocError> {
    let blank = if out.is_empty() { "" } else { ", " };
    match way {
        Some(to) => write!(out, "{blank}{to:04X} {number}"),
        None => write!(out, "{blank}other"),
    }
}

/// Adds where each way goes, and with which number.
fn push_each(out: &mut String, ways: &Ways<Number>) -> Result<(), AllocError> {
    let (items, posts) = (ways.items.as_slice(), ways.posts.as_slice());
    if items.len() != posts.len() {
        return out.push_str("other edges");
    }
    for (item, (node, known)) in items.iter().zip(posts) {
        push_way(out, way_of(item, node), known.number)?;
    }
    Ok(())
}

/// The set of addresses with commas between them, at most sixteen.
fn list_of(text: &str) -> Vs16 {
    let mut numbers: ArrayVec<u16, 16> = ArrayVec::new();
    for digits in text.split(',') {
        let _ = numbers.try_push(word_of(digits));
    }
    Vs16::gather(numbers.as_slice()).unwrap_or(Vs16::any())
}

/// Adds the two ways of a jump.
fn push_either(alloc: Global, ways: &mut Ways<Number>, asked: &str) -> Result<(), Memory> {
    let (behind, target) = halves(asked);
    let (behind, target) = (word_of(behind), word_of(target));
    let on = Some(Number { number: 1 });
    let jumped = Some(Number { number: 2 });
    let site = Place { pc: 0xF000 };
    add_either(alloc, ways, &site, behind, target, on, jumped)
}

/// Adds the ways to a set of addresses.
fn push_set(alloc: Global, ways: &mut Ways<Number>, kind: &str, asked: &str) -> Result<(), Memory> {
    let (base, stride, count) = run_of(asked);
    let set = match kind {
        "each" => list_of(asked),
        _ => Vs16::run(base, stride, count).unwrap_or(Vs16::any()),
    };
    let site = Place { pc: 0xF000 };
    add_each(alloc, ways, &site, &set, Number { number: 5 })
}

/// Adds the ways to a set of addresses, or of a jump.
pub fn push_ways(alloc: Global, out: &mut String, kind: &str, asked: &str) -> Result<(), Memory> {
    let mut ways = Ways {
        items: Sequence::new(alloc),
        posts: Sequence::new(alloc),
        opens: Sequence::new(alloc),
    };
    let found = match kind {
        "either" => push_either(alloc, &mut ways, asked),
        _ => push_set(alloc, &mut ways, kind, asked),
    };
    let pushed = push_each(out, &ways);
    drop(ways);
    found?;
    Ok(pushed?)
}
