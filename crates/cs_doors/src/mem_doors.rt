//! The doors of all nodes, in memory.

ghost use Rattle.std.specs.Prelude.{◌≡◌, ℕ, ◌+◌, ◌<◌, ◌≤◌, [], ◌∷◌, ◌++◌, drop, length, Some, IsTrue, IsErr, IfOk, IfSome, OnOk, OnErr};
ghost use Rattle.cs_base.specs.Faults.{HasRisen};
ghost use Rattle.cs_doors.specs.Doors.{first_door, is_listed, next_call};
ghost use Rattle.cs_doors.specs.Lending.{HasLent};

use crate::door::Door;
use crate::doors::Doors;
use crate::mem_door::{DoorPlan, MemDoor};
use cs_base::{Failed, Faults, NodeId};
use std::alloc::Global;
use std::collections::VecDeque;
use std::marker::Model;

/// Doors in memory, whose listed calls fail, as do those for which there is no memory.
#[derive(Drop)]
pub struct MemDoors {
    alloc: Global,
    planned: VecDeque<DoorPlan>,
    lent: usize,
    returned: Vec<(NodeId, MemDoor)>,
    failing: Vec<u64>,
    calls: u64,
    faults: Faults,
}

impl Model for MemDoors {
    ghost use Rattle.std.specs.Prelude.{ℕ, List, ◌+◌, ◌≤◌, vec_len, vec_capacity};
    ghost use Rattle.cs_doors.specs.Doors.{MemDoorsState};

    ghost Value = { MemDoorsState };

    ghost view = { λ a. record { planned = a.planned.items; lent = a.lent; returned = a.returned.items; failing = a.failing.items; calls = a.calls; faults = a.faults } };

    // there is room for each door that is to come back
    ghost invariant = { λ a. vec_len a.returned + a.lent ≤ vec_capacity a.returned };
}

impl MemDoors {
    /// The doors of these plans, given in this order, whichever node asks, and then doors to which nobody comes. The calls
    /// of these numbers, from 1 on, fail; such a call leaves the plans as they were.
    pub fn new(alloc: Global, planned: VecDeque<DoorPlan>, failing: Vec<u64>) -> MemDoors
        ensures { result ≡ record { planned = planned.items; lent = 0; returned = []; failing = failing.items; calls = 0; faults = 0 } }
    {
        MemDoors {
            alloc,
            planned,
            lent: 0,
            returned: Vec::new(alloc),
            failing,
            calls: 0,
            faults: Faults::new(),
        }
    }

    /// The doors that came back, each with its node.
    pub fn returned(&self) -> &[(NodeId, MemDoor)]
        ensures { result.now ≡ self.now.returned }
    {
        self.returned.as_slice()
    }

    /// How many faults there were here or at a door that is back.
    pub fn faults(&self) -> Faults
        ensures { result ≡ self.now.faults }
    {
        self.faults
    }
}

impl Doors for MemDoors {
    ghost use Rattle.cs_doors.specs.LendsNone.{lends_none};

    type Door = MemDoor;

    ghost given = { λ s. Some (length s.returned + s.lent) };

    ghost returned = { λ s. Some s.returned };

    ghost faults = { λ s. s.faults };

    ghost lends = { λ s. lends_none (length s.returned) s.lent };

    fn listen(&mut self, _node: NodeId, _port: u16) -> Result<MemDoor, Failed>
        ensures fresh { IfOk result (λ door. (door.faults ≡ 0) × (length door.returned + door.lent ≡ 0) × (door.returned ≡ [])) }
        ensures given { OnOk result (self.new.lent ≡ self.old.lent + 1) }
        ensures lent { OnOk result ((k : ℕ) → HasLent k (Some (length self.old.returned + self.old.lent)) (Some self.old.returned) → HasLent (k + 1) (Some (length self.new.returned + self.new.lent)) (Some self.new.returned)) }
        ensures returned { self.new.returned ≡ self.old.returned }
        ensures err { OnErr result ((self.new.lent ≡ self.old.lent) × (self.new.planned ≡ self.old.planned)) }
        ensures counted { self.old.faults ≤ self.new.faults }
        ensures failed { OnErr result (HasRisen self.old.faults self.new.faults) }

        // The listed calls fail, and another one only for want of memory; each gives the next door.
        ensures listed { IsTrue (is_listed self.old.failing (next_call self.old.calls)) → IsErr result }
        ensures exact { IfOk result (λ door. door ≡ first_door self.old.planned) }
        ensures planned { OnOk result (self.new.planned ≡ drop 1 self.old.planned) }
        ensures calls { self.new.calls ≡ next_call self.old.calls }
        ensures plan { self.new.failing ≡ self.old.failing }
    {
        self.calls = self.calls.saturating_add(1);
        let fails = self.failing.contains(&self.calls);
        if fails || self.returned.reserve(self.lent + 1).is_err() {
            self.faults.raise();
            return Err(Failed);
        }
        let door = first(self.alloc, &mut self.planned);
        self.lent += 1;
        Ok(door)
    }

    fn back(&mut self, node: NodeId, door: MemDoor)
        requires { HasLent 1 (Some (length self.old.returned + self.old.lent)) (Some self.old.returned) }
        ensures returned { self.new.returned ≡ self.old.returned ++ (node, door) ∷ [] }
        ensures given { self.new.lent + 1 ≡ self.old.lent }
        ensures lent { (k : ℕ) → HasLent (k + 1) (Some (length self.old.returned + self.old.lent)) (Some self.old.returned) → HasLent k (Some (length self.new.returned + self.new.lent)) (Some self.new.returned) }
        ensures counted { self.old.faults ≤ self.new.faults }
        ensures faults { 0 < door.faults → HasRisen self.old.faults self.new.faults }

        // A door without a fault leaves the count as it was, and what is planned stays.
        ensures quiet { door.faults ≡ 0 → self.new.faults ≡ self.old.faults }
        ensures planned { self.new.planned ≡ self.old.planned }
        ensures calls { self.new.calls ≡ self.old.calls }
        ensures plan { self.new.failing ≡ self.old.failing }
    {
        if door.faults().count() > 0 {
            self.faults.raise();
        }
        self.lent -= 1;
        self.returned.push_reserved((node, door));
    }
}

fn first(alloc: Global, planned: &mut VecDeque<DoorPlan>) -> MemDoor
    ensures door { result ≡ first_door planned.old.items }
    ensures rest { planned.new.items ≡ drop 1 planned.old.items }
{
    let plan = match planned.pop_front() {
        Some(plan) => plan,
        None => DoorPlan::none(alloc),
    };
    MemDoor::new(alloc, plan)
}
