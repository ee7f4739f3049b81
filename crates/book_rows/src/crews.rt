//! The analysis of a small chip by several workers.

ghost use Rattle.std.specs.Prelude.{◌<◌, ◌≤◌};

use crate::books::{Sizes, sizes_of};
use crate::chip::{failing, of_shape};
use crate::shape::Shape;
use chip_analysis::Chip;
use holding_gate::HoldingGate;
use no_memory::Memory;
use std::alloc::Global;
use std::sync::Wait;
use std::thread::Threads;
use worker_crew::fixpoint;
use worker_rounds::NoGate;

/// The sizes of the book that some workers make. None says that memory ran out.
fn crew_sizes<R: Threads + Wait + Sync, C: Chip<Base: Send> + Send + Sync>(
    rt: &R,
    alloc: Global,
    chip: &C,
    workers: u32,
) -> Option<Sizes>
    requires some_worker { 0 < workers }
    requires few { workers ≤ 16 }
{
    match fixpoint(rt, alloc, chip, workers, &NoGate) {
        Ok(book) => Some(sizes_of(book)),
        Err(Memory) => None,
    }
}

#[test]
fn each_number_of_workers_finishes(rt: HostRuntime) {
    for workers in 1..=16 {
        let found = crew_sizes(&rt, rt.alloc(), &of_shape(Shape::Tree(2_000)), workers);
        assert_eq!(rt; found, Some((true, 2_001, 2_001, 4_002)));
    }
}

/// Three claims are given back, where a worker is left that goes on.
#[test]
fn others_go_on_without_memory(rt: HostRuntime) {
    let tree = Shape::Tree(40);
    let found = [
        crew_sizes(&rt, rt.alloc(), &failing(tree, 3), 4),
        crew_sizes(&rt, rt.alloc(), &failing(tree, 3), 3),
        crew_sizes(&rt, rt.alloc(), &failing(tree, 1), 1),
    ];
    assert_eq!(rt; found, [Some((true, 41, 41, 88)), None, None]);
}

/// Whether two workers work at once, and tell the gate all that they do.
fn is_told<R: Threads + Wait + Sync, C: Chip<Base: Send> + Send + Sync>(
    rt: &R,
    alloc: Global,
    chip: &C,
    gate: &HoldingGate,
) -> bool {
    match fixpoint(rt, alloc, chip, 2, gate) {
        Ok(book) => {
            let (_, _, journal) = book.into_parts();
            gate.saw_all(journal.as_slice())
        }
        Err(Memory) => false,
    }
}

#[test]
fn two_workers_work_at_once(rt: HostRuntime) {
    let gate = HoldingGate::new(1, 2);
    let told = is_told(&rt, rt.alloc(), &of_shape(Shape::Tree(40)), &gate);
    assert!(rt; told);
}
