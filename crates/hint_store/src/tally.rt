//! The last number of each peer, and how many hints it has.

ghost use Rattle.std.specs.Prelude.{◌≡◌, ◌++◌, ◌∷◌, [], ℕ, ◌+◌, ◌-◌, ◌==◌, ◌<◌, ◌≤◌, ◌^◌, if◌then◌else◌, slice_index_or, IfOk, OnOk};
ghost use Rattle.durable_state.specs.State.{last_of};
ghost use Rattle.hint_store.specs.Tallies.{numbers_from, SetsAt};

use cs_base::{Items, NodeId};
use durable_state::LastNumber;
use std::alloc::{AllocError, Global};

/// By the number of the peer.
#[derive(Clone, Copy)]
pub(crate) struct Tally {
    pub last: [u64; 7],
    pub count: [usize; 7],
}

/// Puts the last number of a peer behind those that are there, if one was given.
fn push_number(onto: &mut Vec<LastNumber>, peer: usize, last: u64) -> Result<(), AllocError>
    requires { peer ≤ 6 }
    ensures { OnOk result (onto.new.items ≡ onto.old.items ++ (if last == 0 then [] else record { peer = peer; last = last } ∷ [])) }
{
    if last > 0 {
        if let Some(peer) = NodeId::new(peer as u8) {
            onto.push(LastNumber { peer, last })?;
        }
    }
    Ok(())
}

impl Tally {
    /// No numbers, and no hints.
    pub fn none() -> Tally
        ensures last { (peer : ℕ) → slice_index_or result.last peer 0 ≡ 0 }
        ensures numbers { numbers_from 0 result.last ≡ [] }
        ensures count { (peer : ℕ) → slice_index_or result.count peer 0 ≡ 0 }
    {
        Tally {
            last: [0; 7],
            count: [0; 7],
        }
    }

    /// These last numbers, and no hints. Of two of one peer the first counts.
    pub fn of_numbers(numbers: &[LastNumber]) -> Tally
        ensures last { (peer : ℕ) → slice_index_or result.last peer 0 ≡ last_of numbers.now peer }
        ensures count { (peer : ℕ) → slice_index_or result.count peer 0 ≡ 0 }
    {
        let mut tally = Tally::none();
        for done in 0..numbers.len() {
            let number = &numbers[numbers.len() - 1 - done];
            tally.set_last(number.peer, number.last);
        }
        tally
    }

    /// Sets the last number of a peer.
    fn set_last(&mut self, peer: NodeId, last: u64)
        ensures last { SetsAt peer last self.old.last self.new.last }
        ensures count { self.new.count ≡ self.old.count }
    {
        self.last[usize::from(peer.number())] = last;
    }

    /// The last number of a peer.
    pub fn last(&self, peer: NodeId) -> u64
        ensures { result ≡ slice_index_or self.now.last peer 0 }
    {
        self.last[usize::from(peer.number())]
    }

    /// How many hints a peer has.
    pub fn count(&self, peer: NodeId) -> usize
        ensures { result ≡ slice_index_or self.now.count peer 0 }
    {
        self.count[usize::from(peer.number())]
    }

    /// One hint more of a peer.
    pub fn gain(&mut self, peer: NodeId)
        requires { slice_index_or self.old.count peer 0 + 1 < 2 ^ 64 }
        ensures count { SetsAt peer (slice_index_or self.old.count peer 0 + 1) self.old.count self.new.count }
        ensures last { self.new.last ≡ self.old.last }
    {
        self.count[usize::from(peer.number())] += 1;
    }

    /// One hint more of a peer, which has this number.
    pub fn give(&mut self, peer: NodeId, number: u64)
        requires { slice_index_or self.old.count peer 0 + 1 < 2 ^ 64 }
        ensures last { SetsAt peer number self.old.last self.new.last }
        ensures count { SetsAt peer (slice_index_or self.old.count peer 0 + 1) self.old.count self.new.count }
    {
        self.last[usize::from(peer.number())] = number;
        self.count[usize::from(peer.number())] += 1;
    }

    /// So many hints of a peer go.
    pub fn lose(&mut self, peer: NodeId, count: usize)
        requires { count ≤ slice_index_or self.old.count peer 0 }
        ensures count { SetsAt peer (slice_index_or self.old.count peer 0 - count) self.old.count self.new.count }
        ensures last { self.new.last ≡ self.old.last }
    {
        self.count[usize::from(peer.number())] -= count;
    }

    /// The last numbers of the peers that have one.
    pub fn numbers(&self, alloc: Global) -> Result<Items<LastNumber>, AllocError>
        ensures { IfOk result (λ numbers. numbers ≡ numbers_from 0 self.now.last) }
    {
        let mut numbers = Vec::new(alloc);
        for (peer, last) in self.last.iter().enumerate() {
            push_number(&mut numbers, peer, *last)?;
        }
        Ok(Items::from_vec(numbers))
    }
}
