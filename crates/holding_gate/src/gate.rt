//! The gate.

use book_rules::Event;
use std::sync::atomic::AtomicU64;
use std::sync::atomic::Ordering::SeqCst;
use std::thread;
use worker_rounds::Gate;

/// What a seat told of itself.
#[derive(Drop)]
struct Told {
    before: AtomicU64,
    after: AtomicU64,
    /// 1 where a claim of it was held.
    held: AtomicU64,
}

fn told_nothing() -> Told {
    Told {
        before: AtomicU64::new(0),
        after: AtomicU64::new(0),
        held: AtomicU64::new(0),
    }
}

/// Holds claims until each of some seats has one that is held: a program that runs fewer seats at once never gets past it.
#[derive(Drop)]
pub struct HoldingGate {
    /// How many claims pass before those that are held.
    passing: u64,
    /// How many seats are waited for, at most four.
    seats: u32,
    calls: AtomicU64,
    told: [Told; 4],
    /// How often it was given up.
    late: AtomicU64,
}

/// How often a held seat looks at the others.
const LOOKS: u64 = 1_000_000_000;

impl HoldingGate {
    /// A gate at which so many claims pass before those that are held, until so many seats are.
    pub fn new(passing: u64, seats: u32) -> Self {
        HoldingGate {
            passing,
            seats: seats.min(4),
            calls: AtomicU64::new(0),
            told: [
                told_nothing(),
                told_nothing(),
                told_nothing(),
                told_nothing(),
            ],
            late: AtomicU64::new(0),
        }
    }

    /// What a seat told.
    fn told(&self, seat: u32) -> &Told {
        &self.told[(seat % 4) as usize]
    }

    /// Whether each seat was held.
    fn are_held(&self) -> bool {
        for seat in 0..self.seats {
            if self.told(seat).held.load(SeqCst) == 0 {
                return false;
            }
        }
        true
    }

    /// Waits until each seat is held.
    fn hold(&self, seat: u32) {
        self.told(seat).held.store(1, SeqCst);
        for _ in 0..LOOKS {
            if self.are_held() {
                return;
            }
            thread::yield_now();
        }
        self.late.fetch_add(1, SeqCst);
    }

    /// Whether no held claim was given up, and each seat told as many claims and posts as the journal has of it, some of both.
    pub fn saw_all(&self, journal: &[Event]) -> bool {
        for seat in 0..self.seats {
            let told = self.told(seat);
            let counts = (told.before.load(SeqCst), told.after.load(SeqCst));
            if counts_of(journal, seat) != counts || counts.1 == 0 {
                return false;
            }
        }
        self.late.load(SeqCst) == 0 && self.are_held()
    }
}

impl Gate for HoldingGate {
    fn before(&self, seat: u32) {
        self.told(seat).before.fetch_add(1, SeqCst);
        if self.calls.fetch_add(1, SeqCst) >= self.passing {
            self.hold(seat);
        }
    }

    fn after(&self, seat: u32) {
        self.told(seat).after.fetch_add(1, SeqCst);
    }
}

/// How many claims of this seat there are, and how many posts.
fn counts_of(journal: &[Event], seat: u32) -> (u64, u64) {
    let mut claims = 0u64;
    let mut posts = 0u64;
    for event in journal {
        match event {
            Event::Claim { seat: other, .. } => {
                claims = claims.saturating_add(u64::from(*other == seat));
            }
            Event::Post { seat: other, .. } => {
                posts = posts.saturating_add(u64::from(*other == seat));
            }
            Event::GiveBack { .. } => {}
        }
    }
    (claims, posts)
}
