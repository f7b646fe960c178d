//! Counts of faults.
ghost use Rattle.std.specs.Prelude.{◌≡◌, ◌≤◌, ◌↔◌, IsErr, IsTrue, OnOk, OnErr};
ghost use Rattle.slate_types.specs.Faults.{Rose};
ghost use Rattle.slate_store.specs.Plan.{is_planned, next_call};

use crate::Failed;

/// How many calls have failed. The count stands still at its type's end.
#[derive(Drop)]
pub(crate) struct Faults {
    count: u64,
}

impl Faults {
    pub(crate) fn none() -> Faults
        ensures { result.count ≡ 0 }
    {
        Faults { count: 0 }
    }

    /// Counts a fault, and gives it.
    pub(crate) fn raise(&mut self) -> Failed
        ensures later { self.old.count ≤ self.new.count }
        ensures rose { Rose self.old.count self.new.count }
    {
        self.count = self.count.saturating_add(1);
        Failed
    }
}

/// The calls that are to fail, by their numbers from 1.
#[derive(Drop)]
pub(crate) struct FaultPlan {
    failing: Vec<u64>,
    calls: u64,
    faults: Faults,
}

impl FaultPlan {
    pub(crate) fn new(failing: Vec<u64>) -> FaultPlan
        ensures failing { result.failing.items ≡ failing.items }
        ensures calls { result.calls ≡ 0 }
        ensures faults { result.faults.count ≡ 0 }
    {
        FaultPlan {
            failing,
            calls: 0,
            faults: Faults::none(),
        }
    }

    /// Counts a call, and fails where its number is named.
    pub(crate) fn step(&mut self) -> Result<(), Failed>
        ensures later { self.old.faults.count ≤ self.new.faults.count }
        ensures still { OnOk result (self.new.faults.count ≡ self.old.faults.count) }
        ensures cause { OnErr result (Rose self.old.faults.count self.new.faults.count) }
        ensures failing { self.new.failing.items ≡ self.old.failing.items }
        ensures counted { self.new.calls ≡ next_call self.old.calls }
        ensures planned { IsErr result ↔ IsTrue (is_planned self.old.failing.items (next_call self.old.calls)) }
    {
        self.calls = self.calls.saturating_add(1);
        if self.failing.contains(&self.calls) {
            return Err(self.faults.raise());
        }
        Ok(())
    }

    /// Counts a fault for another cause, and gives it.
    pub(crate) fn raise(&mut self) -> Failed
        ensures later { self.old.faults.count ≤ self.new.faults.count }
        ensures rose { Rose self.old.faults.count self.new.faults.count }
        ensures failing { self.new.failing.items ≡ self.old.failing.items }
        ensures calls { self.new.calls ≡ self.old.calls }
    {
        self.faults.raise()
    }
}
