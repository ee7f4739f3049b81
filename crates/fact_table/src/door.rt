//! The door before the turns.

use std::hint;
use std::sync::atomic::AtomicU64;
use std::sync::atomic::Ordering::SeqCst;

/// How often a seat looks whether the door is free before it draws its ticket all the same: for a millisecond or some, longer
/// than a turn takes in which its thread sleeps once.
const LOOKS: u32 = 100_000;

/// Where seats wait that want a turn. Who is through draws a ticket, and opens the door behind its turn, so that mostly one
/// ticket is out: tickets are served in order, and each one that is out with a thread that doesn't run makes all behind it wait.
/// At the door whoever looks first is next. Nothing depends on it: the lock is that of the turns.
#[derive(Drop)]
pub struct Door {
    /// 1 where someone is through.
    taken: AtomicU64,
}

impl Door {
    pub fn new() -> Self {
        Door {
            taken: AtomicU64::new(0),
        }
    }

    /// Looks until it is through. Who isn't after a while goes on without, and gets nothing that would open the door.
    pub(crate) fn enter(&self) -> Option<Inside<'_>> {
        for _ in 0..LOOKS {
            if self.taken.load(SeqCst) == 0 && self.taken.swap(1, SeqCst) == 0 {
                return Some(Inside { of: self });
            }
            hint::spin_loop();
        }
        None
    }
}

/// Who is through. It opens the door again when it is dropped.
pub(crate) struct Inside<'a> {
    of: &'a Door,
}

impl Drop for Inside<'_> {
    fn drop(self) {
        let Self { of } = self;
        of.taken.store(0, SeqCst);
    }
}
