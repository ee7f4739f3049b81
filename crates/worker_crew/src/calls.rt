//! How a worker that leaves units calls another one for them.

use crossbeam_utils::sync::{EventCount, Key};
use std::hint;
use std::sync::atomic::AtomicU64;
use std::sync::atomic::Ordering::SeqCst;

/// How often a worker that has no unit looks for a call before it sleeps: for a twentieth of a millisecond or some tenths, as the
/// processor is. To wake who sleeps takes the system as long as some units take, and who was woken comes later still.
const LOOKS: u32 = 4_000;

/// What workers share beside the book: a call that one of them takes, and the bell at which they sleep.
#[derive(Drop)]
pub(crate) struct Calls {
    /// 1 where a call wasn't taken yet.
    open: AtomicU64,
    /// How many workers look for one.
    looking: AtomicU64,
    bell: EventCount,
}

impl Calls {
    pub(crate) fn new() -> Self {
        Calls {
            open: AtomicU64::new(0),
            looking: AtomicU64::new(0),
            bell: EventCount::new(),
        }
    }

    /// Calls one worker: one that looks, if there is any, and else one that sleeps. Who looks no more claims again before it sleeps,
    /// so that no unit is left for want of a call.
    pub(crate) fn call_one(&self) {
        if 0 < self.looking.load(SeqCst) {
            self.open.store(1, SeqCst);
        } else {
            self.bell.notify_one();
        }
    }

    /// Calls all.
    pub(crate) fn call_all(&self) {
        self.open.store(1, SeqCst);
        self.bell.notify_all();
    }

    /// Announces a look. A call behind it is for the one that looks.
    pub(crate) fn watch(&self) -> Watch<'_> {
        self.looking.fetch_add(1, SeqCst);
        Watch { of: self }
    }

    /// Announces a sleep. Each call behind it ends that sleep, unless another one takes it.
    pub(crate) fn announce(&self) -> Key<'_> {
        self.bell.prepare_wait()
    }
}

/// A look that is announced.
pub(crate) struct Watch<'a> {
    of: &'a Calls,
}

impl Watch<'_> {
    /// Looks for a call for a while, and takes it. It answers whether there was one.
    pub(crate) fn was_called(self) -> bool {
        for _ in 0..LOOKS {
            if self.of.open.load(SeqCst) == 1 && self.of.open.swap(0, SeqCst) == 1 {
                return true;
            }
            hint::spin_loop();
        }
        false
    }
}

impl Drop for Watch<'_> {
    fn drop(self) {
        let Self { of } = self;
        of.looking.fetch_sub(1, SeqCst);
    }
}
