//! Where the messages from each node to each other one stand.

ghost use Rattle.std.specs.Prelude.{◌≡◌, ◌+◌, ◌*◌, ◌≤◌, ◌<◌, [], IfOk, OnOk, length};
ghost use Rattle.cluster_model.specs.State.{numbered, place_of};
ghost use Rattle.cluster_model.specs.Mails.{ArePlaces, AreFiled};

use cs_base::{Items, NodeId};
use peer_messages::Message;
use std::alloc::{AllocError, Global};

/// A ring has at most seven nodes.
const NODES: usize = 7;

/// Seven nodes have a route to each.
const ROUTES: usize = NODES * NODES;

/// The places of the first messages, in order, by the route from node to node on which they go.
#[derive(Drop)]
pub(crate) struct Routes {
    pub places: Vec<Items<usize>>,
    /// How many messages are filed so far.
    pub filed: usize,
}

fn route(from: NodeId, upto: NodeId) -> usize
    ensures value { result ≡ 7 * from + upto }
    ensures within { result < 49 }
    ensures from { from ≤ 6 }
    ensures upto { upto ≤ 6 }
{
    NODES * usize::from(from.number()) + usize::from(upto.number())
}

fn no_places(alloc: Global) -> Result<Vec<Items<usize>>, AllocError>
    ensures { IfOk result (λ places. ArePlaces places.items []) }
{
    let mut places = Vec::new(alloc);
    for _ in 0..ROUTES {
        places.push(Items::new(alloc))?;
    }
    Ok(places)
}

/// The place of this number, from 1 on.
fn nth(places: &[usize], number: u64) -> Option<usize>
    ensures { result ≡ numbered number places.now }
{
    match number {
        0 => None,
        _ => places.get((number - 1) as usize).copied(),
    }
}

impl Routes {
    pub fn new(alloc: Global) -> Result<Routes, AllocError>
        ensures { IfOk result (λ routes. AreFiled routes []) }
    {
        Ok(Routes {
            places: no_places(alloc)?,
            filed: 0,
        })
    }

    /// Files the next message.
    fn file_next(&mut self, sent: &[Message]) -> Result<(), AllocError>
        requires filed { AreFiled self.old sent.now }
        requires more { self.old.filed < length sent.now }
        ensures filed { AreFiled self.new sent.now }
        ensures next { OnOk result (self.new.filed ≡ self.old.filed + 1) }
    {
        let message = &sent[self.filed];
        let place = self.filed;
        self.places[route(message.from, message.upto)].push(place)?;
        self.filed += 1;
        Ok(())
    }

    /// Files the messages that are not filed yet.
    fn file(&mut self, sent: &[Message]) -> Result<(), AllocError>
        requires { AreFiled self.old sent.now }
        ensures filed { AreFiled self.new sent.now }
        ensures all { OnOk result (self.new.filed ≡ length sent.now) }
    {
        while self.filed < sent.len() {
            self.file_next(sent)?;
        }
        Ok(())
    }

    /// Of the messages from one node to another the place of this one, counted from 1.
    pub fn place(
        &mut self,
        sent: &[Message],
        from: NodeId,
        upto: NodeId,
        number: u64,
    ) -> Result<Option<usize>, AllocError>
        requires { AreFiled self.old sent.now }
        ensures filed { AreFiled self.new sent.now }
        ensures place { IfOk result (λ place. place ≡ place_of from upto number sent.now) }
    {
        self.file(sent)?;
        Ok(nth(self.places[route(from, upto)].as_slice(), number))
    }
}
