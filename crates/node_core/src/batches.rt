//! The hints that went to a peer last, whose acknowledgements are waited for.

ghost use Rattle.std.specs.Prelude.{◌≡◌, ◌==◌, ◌∷◌, ◌++◌, [], not, filter, IfOk, OnOk};
ghost use Rattle.cs_base.specs.Quorums.{is_in as is_in_of};
ghost use Rattle.node_steps.specs.Hints.{waiting_of as waiting_of_peer, with_batch as with_batch_of};

use cs_base::{Items, NodeId};
use std::alloc::{AllocError, Global};
use std::marker::Model;

/// The numbers of a peer's hints.
pub(crate) type Numbers = Items<u64>;

/// The numbers of the hints that went to a peer last and that it has not acknowledged.
#[derive(Drop)]
pub(crate) struct Waiting {
    pub peer: NodeId,
    pub numbers: Numbers,
}

pub(crate) type Batches = Items<Waiting>;

impl Model for Waiting {
    ghost use Rattle.node_steps.specs.State.{Batch};

    ghost Value = { Batch };

    ghost view = { λ a. record { peer = a.peer; waiting = a.numbers } };
}

fn copied(alloc: Global, numbers: &[u64]) -> Result<Numbers, AllocError>
    ensures { IfOk result (λ copy. copy ≡ numbers.now) }
{
    Ok(Items::from_vec(Vec::from_slice(alloc, numbers)?))
}

impl Waiting {
    fn copy(&self, alloc: Global) -> Result<Waiting, AllocError>
        ensures { IfOk result (λ copy. copy ≡ self.now) }
    {
        Ok(Waiting {
            peer: self.peer,
            numbers: copied(alloc, self.numbers.as_slice())?,
        })
    }

    fn is_of(&self, peer: NodeId) -> bool
        ensures { result ≡ (self.now.peer == peer) }
    {
        self.peer == peer
    }

    fn numbers(&self) -> &[u64]
        ensures { result.now ≡ self.now.waiting }
    {
        self.numbers.as_slice()
    }
}

/// The numbers for whose acknowledgement a peer's next hints wait.
pub(crate) fn waiting_of(batches: &[Waiting], peer: NodeId) -> &[u64]
    ensures { result.now ≡ waiting_of_peer batches.now peer }
{
    for batch in batches {
        if batch.is_of(peer) {
            return batch.numbers();
        }
    }
    &[]
}

pub(crate) fn has(numbers: &[u64], number: u64) -> bool
    ensures { result ≡ is_in_of numbers.now number }
{
    numbers.iter().any(|other| *other == number)
}

/// These numbers without one.
pub(crate) fn without(alloc: Global, numbers: &[u64], number: u64) -> Result<Numbers, AllocError>
    ensures { IfOk result (λ left. left ≡ filter (λ n. not (n == number)) numbers.now) }
{
    let mut left = Items::new(alloc);
    for other in numbers {
        if *other != number {
            left.push(*other)?;
        }
    }
    Ok(left)
}

/// Adds a copy of a batch, unless it is this peer's.
fn add_other(
    others: &mut Batches,
    alloc: Global,
    batch: &Waiting,
    peer: NodeId,
) -> Result<(), AllocError>
    ensures { OnOk result (others.new ≡ others.old ++ filter (λ b. not (b.peer == peer)) (batch.now ∷ [])) }
{
    if batch.is_of(peer) {
        return Ok(());
    }
    others.push(batch.copy(alloc)?)?;
    Ok(())
}

/// The batches of the other peers.
fn others(alloc: Global, batches: &[Waiting], peer: NodeId) -> Result<Batches, AllocError>
    ensures { IfOk result (λ others. others ≡ filter (λ b. not (b.peer == peer)) batches.now) }
{
    let mut others = Items::new(alloc);
    for batch in batches {
        add_other(&mut others, alloc, batch, peer)?;
    }
    Ok(others)
}

/// The batches, where a peer's is this.
pub(crate) fn with_batch(
    alloc: Global,
    batches: &[Waiting],
    peer: NodeId,
    numbers: Numbers,
) -> Result<Batches, AllocError>
    ensures { IfOk result (λ new. new ≡ with_batch_of batches.now peer numbers) }
{
    let mut new = others(alloc, batches, peer)?;
    new.push(Waiting { peer, numbers })?;
    Ok(new)
}
