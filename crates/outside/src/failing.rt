// Calls that are made to fail, for tests of what their callers do.
ghost use Rattle.std.specs.Prelude.{◌≡◌, IfOk};
ghost use Rattle.outside.specs.Inner.Failing.{passes, after_call};

use crate::faults::Memory;
use std::alloc::Global;
use std::marker::Model;

/// The numbers of the calls that fail, from 0, and how many calls were made, up to 2^64 - 1.
#[derive(Drop)]
pub struct FailingCalls {
    numbers: Vec<u64>,
    calls: u64,
}

impl Model for FailingCalls {
    ghost use Rattle.outside.specs.Inner.Failing.{FailingCalls};

    ghost Value = { FailingCalls };

    ghost view = { λ f. record { numbers = f.numbers.items; calls = f.calls } };
}

impl FailingCalls {
    pub fn new(alloc: Global, numbers: &[u64]) -> Result<FailingCalls, Memory>
        ensures { IfOk result (λ f. f ≡ record { numbers = numbers.now; calls = 0 }) }
    {
        let numbers = numbers.to_vec(alloc)?;
        Ok(FailingCalls { numbers, calls: 0 })
    }

    /// Counts a call, and tells whether it is let through.
    pub fn pass(&mut self) -> bool
        ensures passes { result ≡ passes self.old }
        ensures after { self.new ≡ after_call self.old }
    {
        let fails = self.numbers.contains(&self.calls);
        self.calls = self.calls.saturating_add(1);
        !fails
    }
}
