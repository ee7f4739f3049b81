//! The calls of a stream in memory, of which some fail.

ghost use Rattle.std.specs.Prelude.{◌≡◌, ◌≤◌, OnOk, OnErr, is_err};
ghost use Rattle.streams.specs.Count.{one_more};
ghost use Rattle.vsa_io.specs.Fakes.{is_failing};

use streams::Failed;

/// How many calls there were, the numbers of those that fail, and how many have failed.
#[derive(Drop)]
pub struct Calls {
    pub count: u64,
    pub failing: Vec<u64>,
    pub faults: u64,
}

impl Calls {
    /// No call yet.
    pub fn new(failing: Vec<u64>) -> Calls
        ensures { result ≡ record { count = 0; failing = failing; faults = 0 } }
    {
        Calls {
            count: 0,
            failing,
            faults: 0,
        }
    }

    /// Counts the next call, which fails if its number is one of those.
    pub fn begin(&mut self) -> Result<(), Failed>
        ensures fails { is_err result ≡ is_failing self.old.failing.items self.old.count }
        ensures after { OnOk result (self.new ≡ record self.old { count = one_more self.old.count }) }
        ensures after_failure { OnErr result (self.new ≡ record self.old {
          count = one_more self.old.count;
          faults = one_more self.old.faults;
        }) }
        ensures never_falls { self.old.faults ≤ self.new.faults }
    {
        self.count = self.count.saturating_add(1);
        if self.failing.contains(&self.count) {
            return Err(self.fail());
        }
        Ok(())
    }

    /// Counts a fault.
    pub fn fail(&mut self) -> Failed
        ensures after { self.new ≡ record self.old { faults = one_more self.old.faults } }
        ensures never_falls { self.old.faults ≤ self.new.faults }
    {
        self.faults = self.faults.saturating_add(1);
        Failed
    }
}
