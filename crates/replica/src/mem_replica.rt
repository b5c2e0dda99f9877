//! Replicas on stores in memory.

ghost use Rattle.std.specs.Prelude.{◌≡◌, ◌≤◌, Some};
ghost use Rattle.cs_store.specs.Mem.{IsSameDisk, faults_of, plan_of};
ghost use Rattle.cs_store.specs.Plan.{sooner};
ghost use Rattle.cs_store.specs.declared.plan.Fault.TheVariants as fault;

use crate::Replica;
use cs_store::{MemStore, Outcome};

/// A replica on a store in memory, whose calls fail as they are told to.
pub trait MemReplica: Replica<Disk = MemStore> {
    /// Lets the j-th call of its store from now fail.
    fn fail_at(&mut self, j: u32)
        requires { 1 ≤ j }
        ensures plan { plan_of (Self.disk self.new) ≡ Some (sooner (plan_of (Self.disk self.old)) (record { calls = j; fault = fault.Fail })) }
        ensures durable { Self.durable self.new ≡ Self.durable self.old }
        ensures whole { Self.is_whole self.old → Self.is_whole self.new }
        ensures disk { IsSameDisk (Self.disk self.old) (Self.disk self.new) }
        ensures faults { faults_of (Self.disk self.new) ≡ faults_of (Self.disk self.old) };

    /// Stops the node at the j-th call of its store from now, once that call's effect is pending.
    fn stop_at(&mut self, j: u32, outcome: Outcome)
        requires { 1 ≤ j }
        ensures plan { plan_of (Self.disk self.new) ≡ Some (sooner (plan_of (Self.disk self.old)) (record { calls = j; fault = fault.Stop outcome })) }
        ensures durable { Self.durable self.new ≡ Self.durable self.old }
        ensures whole { Self.is_whole self.old → Self.is_whole self.new }
        ensures disk { IsSameDisk (Self.disk self.old) (Self.disk self.new) }
        ensures faults { faults_of (Self.disk self.new) ≡ faults_of (Self.disk self.old) };
}
