//! Doors in memory.

ghost use Rattle.std.specs.Prelude.{◌≡◌, ℕ, ◌+◌, ◌≤◌, [], ◌∷◌, ◌++◌, drop, length, MatchOption, Some, IsTrue, IsErr, IfOk, IfSome, OnErr};
ghost use Rattle.cs_base.specs.Faults.{HasRisen};
ghost use Rattle.cs_doors.specs.Doors.{first_of, is_listed, next_call, planned_door};
ghost use Rattle.cs_doors.specs.Lending.{HasLent};

use crate::door::Door;
use cs_base::{Failed, Faults};
use cs_io::MemLink;
use std::alloc::Global;
use std::collections::VecDeque;
use std::marker::Model;

/// What the calls of a door are to find, and which of them are to fail.
#[derive(Drop)]
pub struct DoorPlan {
    coming: VecDeque<Option<MemLink>>,
    failing: Vec<u64>,
}

impl Model for DoorPlan {
    ghost use Rattle.cs_doors.specs.Doors.{MemDoorPlan};

    ghost Value = { MemDoorPlan };

    ghost view = { λ a. record { coming = a.coming.items; failing = a.failing.items } };
}

impl DoorPlan {
    /// The calls find this, one after another, and then nobody. Those of these numbers, from 1 on, fail, and leave what
    /// comes as it was.
    pub fn new(coming: VecDeque<Option<MemLink>>, failing: Vec<u64>) -> DoorPlan
        ensures { result ≡ record { coming = coming.items; failing = failing.items } }
    {
        DoorPlan { coming, failing }
    }

    /// Nobody comes.
    pub(crate) fn none(alloc: Global) -> DoorPlan
        ensures { result ≡ record { coming = []; failing = [] } }
    {
        DoorPlan {
            coming: VecDeque::new(alloc),
            failing: Vec::new(alloc),
        }
    }
}

/// A door in memory, whose listed calls fail, as do those for which there is no memory.
#[derive(Drop)]
pub struct MemDoor {
    coming: VecDeque<Option<MemLink>>,
    lent: usize,
    returned: Vec<MemLink>,
    failing: Vec<u64>,
    calls: u64,
    faults: Faults,
}

impl Model for MemDoor {
    ghost use Rattle.std.specs.Prelude.{ℕ, List, ◌+◌, ◌≤◌, vec_len, vec_capacity};
    ghost use Rattle.cs_doors.specs.Doors.{MemDoorState};

    ghost Value = { MemDoorState };

    ghost view = { λ a. record { coming = a.coming.items; lent = a.lent; returned = a.returned.items; failing = a.failing.items; calls = a.calls; faults = a.faults } };

    // there is room for each link that is to come back
    ghost invariant = { λ a. vec_len a.returned + a.lent ≤ vec_capacity a.returned };
}

impl MemDoor {
    /// A door of this plan.
    pub fn new(alloc: Global, plan: DoorPlan) -> MemDoor
        ensures { result ≡ planned_door plan }
    {
        MemDoor {
            coming: plan.coming,
            lent: 0,
            returned: Vec::new(alloc),
            failing: plan.failing,
            calls: 0,
            faults: Faults::new(),
        }
    }

    /// The links that came back.
    pub fn returned(&self) -> &[MemLink]
        ensures { result.now ≡ self.now.returned }
    {
        self.returned.as_slice()
    }

    /// How many faults it had.
    pub fn faults(&self) -> Faults
        ensures { result ≡ self.now.faults }
    {
        self.faults
    }
}

impl Door for MemDoor {
    type Link = MemLink;

    ghost given = { λ s. Some (length s.returned + s.lent) };

    ghost returned = { λ s. Some s.returned };

    ghost faults = { λ s. s.faults };

    fn next(&mut self) -> Result<Option<MemLink>, Failed>
        ensures given { IfOk result (λ found. MatchOption found (self.new.lent ≡ self.old.lent) (λ _. self.new.lent ≡ self.old.lent + 1)) }
        ensures lent { IfOk result (λ found. IfSome found (λ _. HasLent 1 (Some (length self.new.returned + self.new.lent)) (Some self.new.returned))) }
        ensures returned { self.new.returned ≡ self.old.returned }
        ensures err { OnErr result ((self.new.lent ≡ self.old.lent) × (self.new.coming ≡ self.old.coming)) }
        ensures counted { self.old.faults ≤ self.new.faults }
        ensures failed { OnErr result (HasRisen self.old.faults self.new.faults) }

        // The listed calls fail, and another one only for want of memory; each finds what comes next.
        ensures listed { IsTrue (is_listed self.old.failing (next_call self.old.calls)) → IsErr result }
        ensures exact { IfOk result (λ found. found ≡ first_of self.old.coming) }
        ensures coming { IfOk result (λ _. self.new.coming ≡ drop 1 self.old.coming) }
        ensures calls { self.new.calls ≡ next_call self.old.calls }
        ensures plan { self.new.failing ≡ self.old.failing }
    {
        self.calls = self.calls.saturating_add(1);
        let fails = self.failing.contains(&self.calls);
        if fails || self.returned.reserve(self.lent + 1).is_err() {
            self.faults.raise();
            return Err(Failed);
        }
        let found = self.coming.pop_front().flatten();
        if found.is_some() {
            self.lent += 1;
        }
        Ok(found)
    }

    fn back(&mut self, link: MemLink)
        requires { HasLent 1 (Some (length self.old.returned + self.old.lent)) (Some self.old.returned) }
        ensures returned { self.new.returned ≡ self.old.returned ++ link ∷ [] }
        ensures given { self.new.lent + 1 ≡ self.old.lent }
        ensures faults { self.new.faults ≡ self.old.faults }

        // What is to come stays.
        ensures coming { self.new.coming ≡ self.old.coming }
        ensures calls { self.new.calls ≡ self.old.calls }
        ensures plan { self.new.failing ≡ self.old.failing }
    {
        self.lent -= 1;
        self.returned.push_reserved(link);
    }
}
