//! A plain write at its coordinator, which sends it to every replica that is alive and counts the acknowledgements of
//! distinct ones. It is answered at the acknowledgement that makes them enough, and waits on for the rest until its deadline.
//! A replica for which a hint was kept needs not acknowledge it.
//! After Cassandra's documentation, "Dynamo: Tunable Consistency" and "Hints".
#![tactic(auto)]

ghost use Rattle.std.specs.Prelude.{◌≡◌, ◌||◌, ◌&&◌, ◌∷◌, [], IfOk, OnErr};
ghost use Rattle.std.specs.List.{list_all};
ghost use Rattle.cs_base.specs.Quorums.{is_in as is_in_of, heard_of as heard_of_count};
ghost use Rattle.cs_base.specs.declared.ids.ReqId.{ReqId as request_value};
ghost use Rattle.changes.specs.declared.DraftMutation.{DraftMutation as drafted};
ghost use Rattle.changes.specs.Drafts.{mutation_of};
ghost use Rattle.peer_messages.specs.Settings.{replicas_of, up_of};
ghost use Rattle.peer_messages.specs.declared.message.Body.TheVariants.{Write};
ghost use Rattle.node_steps.specs.Effects.{outbound, send_to};
ghost use Rattle.node_steps.specs.Writes.{start_write, started_write, acks_of, ack_told, HearsAck, write_told, write_at, is_served as is_served_of, unheard as unheard_of};

mod heard;

use crate::heard::Heard;
use changes::{Mutation, Partition};
use cs_base::{Items, Level, Micros, NodeId, ReqId};
use peer_messages::{
    Body, Entries, Entry, Move, NodeIds, Outbound, Refusal, Sends, Setting, heard_of,
    is_before_deadline, is_in,
};
use std::alloc::{AllocError, Global};
use std::marker::Model;
use std::sync::Arc;

/// What a write has from its start: its level, what it writes, and the replicas for which a hint was kept then.
#[derive(Drop)]
struct Begun {
    level: Level,
    mutation: Mutation,
    hinted: NodeIds,
}

/// A write that its coordinator began, the replicas that acknowledged it, and whether the client was answered. Copies share
/// what it has from its start.
#[derive(Drop)]
pub struct WriteCoord {
    begun: Arc<Begun>,
    heard: Heard,
    answered: bool,
}

/// What an acknowledgement makes of a write: the replicas that acknowledged it, whether they are as many as its level waits
/// for, and whether each replica has acknowledged it or got a hint.
#[derive(Drop)]
struct Tally {
    heard: Heard,
    enough: bool,
    settled: bool,
}

impl Model for WriteCoord {
    ghost use Rattle.std.specs.Arc.{arc_value};
    ghost use Rattle.node_steps.specs.State.{OpenWrite};
    ghost use Rattle.write_coord.specs.Begun.{write_of};

    ghost Value = { OpenWrite };

    ghost view = { λ a. write_of (arc_value a.begun) a.heard a.answered };
}

fn write_to(
    alloc: Global,
    request: ReqId,
    mutation: &Mutation,
    node: NodeId,
) -> Result<Outbound, AllocError>
    ensures { IfOk result (λ sent. sent ≡ outbound request (Write mutation.now) node) }
{
    Ok(Outbound {
        upto: node,
        born: request.time,
        request,
        body: Body::Write(mutation.copy(alloc)?),
    })
}

/// The mutation to each of the nodes that is not marked down.
fn write_to_all(
    alloc: Global,
    request: ReqId,
    mutation: &Mutation,
    nodes: &[NodeId],
    down: &[NodeId],
) -> Result<Sends, AllocError>
    ensures { IfOk result (λ sends. sends ≡ send_to request (Write mutation.now) (up_of down.now nodes.now)) }
{
    let mut sends = Vec::with_capacity(alloc, nodes.len())?;
    for node in nodes {
        if !is_in(down, *node) {
            sends.push(write_to(alloc, request, mutation, *node)?)?;
        }
    }
    Ok(Items::from_vec(sends))
}

/// Whether the node is among those heard of, or those for which a hint was kept.
fn is_among(heard: &[NodeId], hinted: &[NodeId], node: NodeId) -> bool
    ensures { result ≡ (is_in_of heard.now node || is_in_of hinted.now node) }
{
    is_in(heard, node) || is_in(hinted, node)
}

/// Whether each of the replicas is.
fn are_among(replicas: &[NodeId], heard: &[NodeId], hinted: &[NodeId]) -> bool
    ensures { result ≡ list_all (λ k. is_in_of heard.now k || is_in_of hinted.now k) replicas.now }
{
    replicas.iter().all(|node| is_among(heard, hinted, *node))
}

fn entered(alloc: Global, entry: Entry) -> Result<Entries, AllocError>
    ensures { IfOk result (λ entries. entries ≡ entry ∷ []) }
{
    let mut entries = Vec::with_capacity(alloc, 1)?;
    entries.push(entry)?;
    Ok(Items::from_vec(entries))
}

/// What begins a write, whose mutation the request has made of a draft: it is submitted, and goes to each replica that is
/// not marked down.
pub fn opening(
    alloc: Global,
    setting: &Setting,
    down: &[NodeId],
    request: ReqId,
    mutation: Mutation,
) -> Result<Move, AllocError>
    ensures { (draft : drafted) → mutation ≡ mutation_of request draft → IfOk result (λ turn. turn ≡ start_write setting.now down.now request draft) }
{
    let replicas = setting.replicas(&mutation.partition);
    let sends = write_to_all(alloc, request, &mutation, replicas.as_slice(), down)?;
    Ok(Move {
        sends,
        entries: entered(alloc, Entry::Submitted(request, mutation))?,
        ended: false,
    })
}

impl WriteCoord {
    ghost use Rattle.write_coord.specs.Tallies.{IsTally};

    /// The write as it begins, with its [`opening`]: no replica has acknowledged it, and for these a hint was kept.
    pub fn start(
        alloc: Global,
        level: Level,
        mutation: Mutation,
        hinted: NodeIds,
    ) -> Result<WriteCoord, AllocError>
        ensures { (request : request_value) (draft : drafted) → mutation ≡ mutation_of request draft → IfOk result (λ write. write ≡ started_write request level draft hinted) }
    {
        let begun = Begun {
            level,
            mutation,
            hinted,
        };
        Ok(WriteCoord {
            begun: Arc::new(alloc, begun)?,
            heard: Heard::new(),
            answered: false,
        })
    }

    /// A copy of the write, which takes no memory.
    pub fn copy(&self) -> Result<WriteCoord, AllocError>
        ensures { IfOk result (λ write. write ≡ self.now) }
    {
        Ok(WriteCoord {
            begun: Arc::try_clone(&self.begun)?,
            heard: self.heard.copy(),
            answered: self.answered,
        })
    }

    /// What is written.
    pub fn mutation(&self) -> &Mutation
        ensures { result.now ≡ self.now.mutation }
    {
        &self.begun.mutation
    }

    fn partition(&self) -> &Partition
        ensures { result.now ≡ self.now.mutation.partition }
    {
        &self.begun.mutation.partition
    }

    fn level(&self) -> Level
        ensures { result ≡ self.now.level }
    {
        self.begun.level
    }

    fn hinted(&self) -> &[NodeId]
        ensures { result.now ≡ self.now.hinted }
    {
        self.begun.hinted.as_slice()
    }

    /// Whether the client was answered.
    pub fn is_answered(&self) -> bool
        ensures { result ≡ self.now.answered }
    {
        self.answered
    }

    /// The write behind a node's acknowledgement.
    fn tally(&self, setting: &Setting, from: NodeId) -> Tally
        ensures { IsTally setting.now from self.now result }
    {
        let replicas = setting.replicas(self.partition());
        let needed = setting.needed(self.level(), self.partition());
        let heard = self.heard.with(replicas.as_slice(), from);
        let received = heard_of(replicas.as_slice(), heard.as_slice());
        let settled = are_among(replicas.as_slice(), heard.as_slice(), self.hinted());
        Tally {
            heard,
            enough: received >= usize::from(needed),
            settled,
        }
    }

    /// What the client is told of the write, which has so many acknowledgements now.
    fn told(&self, alloc: Global, request: ReqId, tally: &Tally) -> Result<Entries, AllocError>
        ensures { IfOk result (λ entries. entries ≡ ack_told self.now.answered tally.now.enough request (record self.now { heard = tally.now.heard })) }
    {
        if tally.enough && !self.answered {
            let heard = tally.heard.to_nodes(alloc)?;
            return entered(alloc, Entry::Acked(request, self.level(), heard));
        }
        Ok(Items::new(alloc))
    }

    /// Takes a node's acknowledgement of the request. That of a node that is no replica, and a repeated one, count for
    /// nothing. The move says that the request is done with where the client was answered and each replica has acknowledged
    /// the write or got a hint. An error leaves it as it was.
    pub fn on_ack(
        &mut self,
        alloc: Global,
        setting: &Setting,
        request: ReqId,
        from: NodeId,
    ) -> Result<Move, AllocError>
        ensures ok { IfOk result (λ turn. HearsAck setting.now request from self.old turn self.new) }
        ensures err { OnErr result (self.new ≡ self.old) }
    {
        let tally = self.tally(setting, from);
        let entries = self.told(alloc, request, &tally)?;
        self.heard = tally.heard;
        self.answered = self.answered || tally.enough;
        Ok(Move {
            sends: Items::new(alloc),
            entries,
            ended: self.answered && tally.settled,
        })
    }

    /// How many replicas have acknowledged the write.
    fn received(&self, replicas: &[NodeId]) -> usize
        ensures { result ≡ heard_of_count replicas.now self.now.heard }
    {
        heard_of(replicas, self.heard.as_slice())
    }

    /// What a write is told whose deadline has come.
    fn timeout(
        &self,
        alloc: Global,
        setting: &Setting,
        request: ReqId,
    ) -> Result<Entries, AllocError>
        ensures { IfOk result (λ entries. entries ≡ write_told setting.now request self.now) }
    {
        let mut entries = Items::new(alloc);
        if !self.answered {
            let replicas = setting.replicas(self.partition());
            // no more than the replicas, which are seven at most
            let received = self.received(replicas.as_slice()).min(replicas.len()) as u8;
            let blockfor = setting.needed(self.level(), self.partition());
            let refusal = Refusal::WriteTimeout { received, blockfor };
            entries.push(Entry::Refused(request, refusal))?;
        }
        Ok(entries)
    }

    /// What the write is told at this time: nothing before its deadline, 5 seconds after its start. From then on it is done
    /// with, and a client that was not answered is told how many replicas have acknowledged it.
    pub fn at_time(
        &self,
        alloc: Global,
        setting: &Setting,
        request: ReqId,
        time: Micros,
    ) -> Result<Move, AllocError>
        ensures { IfOk result (λ turn. turn ≡ write_at setting.now request time self.now) }
    {
        if is_before_deadline(&request, time) {
            return Ok(Move::quiet(alloc));
        }
        Ok(Move {
            sends: Items::new(alloc),
            entries: self.timeout(alloc, setting, request)?,
            ended: true,
        })
    }

    /// Whether the replica has acknowledged the write, or got a hint.
    fn is_served(&self, node: NodeId) -> bool
        ensures { result ≡ is_served_of self.now node }
    {
        is_among(self.heard.as_slice(), self.hinted(), node)
    }

    /// The replicas that have not acknowledged the write and got no hint: each gets one at the write's deadline.
    pub fn unheard(&self, setting: &Setting, alloc: Global) -> Result<NodeIds, AllocError>
        ensures { IfOk result (λ nodes. nodes ≡ unheard_of setting.now self.now) }
    {
        let replicas = setting.replicas(self.partition());
        let mut nodes = Items::new(alloc);
        for node in replicas.as_slice() {
            if !self.is_served(*node) {
                nodes.push(*node)?;
            }
        }
        Ok(nodes)
    }
}
