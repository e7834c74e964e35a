ghost use Rattle.std.specs.Prelude.{◌≡◌, ◌≤◌, ◌^◌, ◌<◌, true, false, Ok, Err, OnOk, OnErr, if◌then◌else◌};
ghost use Rattle.pgw_wire.specs.Memory.{no_calls, is_failing, succeeded, failed};
ghost use Rattle.pgw_wire.specs.Outside.{counted};

use crate::Failed;
use std::marker::Model;

/// Which calls of an object in memory fail, by their numbers, counted from 0; how many calls there were, and how many of
/// them failed. Both counts stop at the largest `u64`.
#[derive(Drop)]
pub struct FailingCalls {
    fails: Vec<u64>,
    calls: u64,
    faults: u64,
}

impl Model for FailingCalls {
    ghost use Rattle.pgw_wire.specs.Memory.{Calls};

    ghost Value = { Calls };

    ghost view = { λ c. record { fails = c.fails.items; calls = c.calls; faults = c.faults } };
}

impl FailingCalls {
    /// Calls of which those with a number in `fails` fail. None was made.
    pub fn new(fails: Vec<u64>) -> FailingCalls
        ensures { result ≡ no_calls fails.items }
    {
        FailingCalls {
            fails,
            calls: 0,
            faults: 0,
        }
    }

    /// Counts a call. It is `Failed`, and counts as a fault, exactly where its number is one of those that fail.
    pub fn call(&mut self) -> Result<(), Failed>
        ensures answer { result ≡ (if is_failing self.old then Err (record {}) else Ok tt) }
        ensures ok { OnOk result (self.new ≡ succeeded self.old) }
        ensures err { OnErr result (self.new ≡ failed self.old) }
        ensures faults { self.old.faults ≤ self.new.faults }
    {
        let fails = self.fails.contains(&self.calls);
        self.calls = self.calls.saturating_add(1);
        if fails {
            self.fail();
            return Err(Failed);
        }
        Ok(())
    }

    /// Counts a fault of a call that was counted.
    pub fn fail(&mut self)
        ensures counts { self.new ≡ record self.old { faults = counted self.old.faults } }
        ensures rises { self.old.faults ≤ self.new.faults }
    {
        self.faults = self.faults.saturating_add(1);
    }

    /// How many calls there were.
    pub fn calls(&self) -> u64
        ensures { result ≡ self.now.calls }
    {
        self.calls
    }

    /// How many calls failed.
    pub fn faults(&self) -> u64
        ensures { result ≡ self.now.faults }
    {
        self.faults
    }
}
