//! Counts of faults, and plans of which calls of a double fail.
ghost use Rattle.std.specs.Prelude.{◌≡◌, ◌≤◌, IfOk, OnErr, OnOk, is_err};
ghost use Rattle.byte_ports.specs.Calls.{Rose, counted};
ghost use Rattle.byte_ports.specs.FaultPlan.{new_plan, fails_next, after_call};

use crate::Failed;
use std::alloc::{AllocError, Global};
use std::marker::Model;

/// How many calls have failed. The count holds at its last value.
#[derive(Drop)]
pub struct FaultCount {
    faults: u64,
}

impl Model for FaultCount {
    ghost use Rattle.std.specs.Prelude.{ℕ};

    ghost Value = { ℕ };

    ghost view = { λ c. c.faults };
}

impl FaultCount {
    /// A count of no fault.
    pub fn new() -> Self
        ensures { result ≡ 0 }
    {
        FaultCount { faults: 0 }
    }

    /// Counts a fault.
    pub fn fail(&mut self) -> Failed
        ensures value { self.new ≡ counted self.old }
        ensures counted { self.old ≤ self.new }
        ensures cause { Rose self.old self.new }
    {
        self.faults = self.faults.saturating_add(1);
        Failed
    }
}

/// Which calls of a double fail, counted from 1, with its counts of calls and faults.
#[derive(Drop)]
pub struct FaultPlan {
    failing: Vec<u64>,
    calls: u64,
    faults: FaultCount,
}

impl Model for FaultPlan {
    ghost use Rattle.byte_ports.specs.FaultPlan.{Plan};

    ghost Value = { Plan };

    ghost view = { λ p. record { failing = p.failing.items; calls = p.calls; faults = p.faults } };
}

impl FaultPlan {
    /// The plan of which these calls fail, before the first of them.
    pub fn new(alloc: Global, failing: &[u64]) -> Result<Self, AllocError>
        ensures { IfOk result (λ p. p ≡ new_plan failing.now) }
    {
        Ok(FaultPlan {
            failing: Vec::from_slice(alloc, failing)?,
            calls: 0,
            faults: FaultCount::new(),
        })
    }

    /// Counts a call, and fails where it is one of those that fail.
    pub fn count_call(&mut self) -> Result<(), Failed>
        ensures fails { is_err result ≡ fails_next self.old }
        ensures plan { self.new ≡ after_call self.old (is_err result) }
        ensures counted { self.old.faults ≤ self.new.faults }
        ensures kept { OnOk result (self.new.faults ≡ self.old.faults) }
        ensures cause { OnErr result (Rose self.old.faults self.new.faults) }
    {
        self.calls = self.calls.saturating_add(1);
        if self.failing.contains(&self.calls) {
            return Err(self.fail());
        }
        Ok(())
    }

    /// Counts a fault of the call that was counted last.
    pub fn fail(&mut self) -> Failed
        ensures plan { self.new ≡ record self.old { faults = counted self.old.faults } }
        ensures counted { self.old.faults ≤ self.new.faults }
        ensures cause { Rose self.old.faults self.new.faults }
    {
        self.faults.fail()
    }
}
