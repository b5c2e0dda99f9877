//! The changes that a request makes of those that a statement asks for.

ghost use Rattle.std.specs.Prelude.{◌≡◌, ◌<◌, ◌^◌, map, IfOk};
ghost use Rattle.changes.specs.Drafts.{held_of, timestamp_of, mutation_of};

use crate::copies::copy_value;
use crate::storing::in_order;
use crate::{Draft, DraftMutation, Drafts, Held, Mutation};
use cs_base::{Items, Micros, ReqId};
use std::alloc::{AllocError, Global};

/// The statement's timestamp, or else the start time.
fn timestamp(own: Option<i64>, time: Micros) -> i64
    requires { time < 2 ^ 63 }
    ensures { result ≡ timestamp_of own time }
{
    match own {
        Some(timestamp) => timestamp,
        None => time.count() as i64,
    }
}

impl Draft {
    /// The change that a request makes of it.
    pub fn held(&self, alloc: Global, request: ReqId) -> Result<Held, AllocError>
        requires { request.time < 2 ^ 63 }
        ensures { IfOk result (λ held. held ≡ held_of request self.now) }
    {
        Ok(Held {
            place: self.place.copy(alloc)?,
            value: copy_value(alloc, &self.value)?,
            timestamp: timestamp(self.timestamp, request.time),
            submitted: request.time,
            request,
        })
    }
}

fn helds_of(alloc: Global, drafts: &Drafts, request: ReqId) -> Result<Vec<Held>, AllocError>
    requires { request.time < 2 ^ 63 }
    ensures { IfOk result (λ helds. helds.items ≡ map (held_of request) drafts.now) }
{
    let mut helds = Vec::with_capacity(alloc, drafts.as_slice().len())?;
    for draft in drafts.as_slice() {
        helds.push(draft.held(alloc, request)?)?;
    }
    Ok(helds)
}

impl DraftMutation {
    /// The changes that a request makes of it: in the order of places, and of several of one place the one that beats the
    /// others.
    pub fn mutation(&self, alloc: Global, request: ReqId) -> Result<Mutation, AllocError>
        requires { request.time < 2 ^ 63 }
        ensures { IfOk result (λ mutation. mutation ≡ mutation_of request self.now) }
    {
        Ok(Mutation {
            partition: self.partition.copy(alloc)?,
            changes: Items::from_vec(in_order(helds_of(alloc, &self.changes, request)?)),
        })
    }
}
