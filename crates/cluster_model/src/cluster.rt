//! The cluster.

ghost use Rattle.std.specs.Prelude.{◌≡◌, ◌≤◌, ◌<◌, ℕ, [], IfOk, OnOk, OnErr, IsErrOf, Some, length, reverse, slice_get, vec_len};
ghost use Rattle.cluster_model.specs.declared.error.ClusterError.TheVariants as cluster_error;
ghost use Rattle.replica.specs.declared.error.LoadError.TheVariants as load_error;
ghost use Rattle.cluster_model.specs.Sites.{keeper};
ghost use Rattle.chronicle_pieces.specs.Pieces.{joined};
ghost use Rattle.cluster_model.specs.Holding.{Holds, state_of};
ghost use Rattle.cluster_model.specs.Beginning.{IsSeated, AreSeated, Begins, IsDamagedAt};
ghost use Rattle.answer_causes.specs.AnswersRight.{AnswersRight};
ghost use Rattle.read_consistency.specs.ReadRight.{ReadRight};
ghost use Rattle.reads_forward.specs.ReadsForward.{ReadsForward};

use crate::annals::Annals;
use crate::error::ClusterError;
use crate::event::ClusterEvent;
use crate::mail::Mail;
use crate::parts::Parts;
use crate::seat::{Part, Seat};
use chronicle_pieces::Piece;
use cs_base::{Micros, NodeId};
use cs_store::{MemStore, Outcome};
use event_copies::copy_setting;
use http_server::Log;
use node_core::Node;
use peer_messages::Setting;
use replica::{LoadError, MemReplica};
use std::alloc::{AllocError, Global};
use std::marker::Model;

/// A cluster of up to seven nodes, the messages between them, and the chronicle of all that happened.
#[derive(Drop)]
pub struct Cluster<R: MemReplica> {
    parts: Parts<R>,
}

impl<R: MemReplica> Model for Cluster<R> {
    ghost use Rattle.cluster_model.specs.State.{ClusterState};
    ghost use Rattle.replica.specs.declared.error.LoadError.TheVariants as load_error;
    ghost use Rattle.cluster_model.specs.Sites.{keeper};
    ghost use Rattle.cluster_model.specs.Holding.{Holds, state_of};

    ghost Value = { ClusterState };

    ghost view = { λ a. state_of (keeper R.stands_for R.durable R.disk R.is_whole) a.parts };

    ghost invariant = { λ a. Holds (keeper R.stands_for R.durable R.disk R.is_whole) a.parts };
}

/// Why a node begins on no store, whose calls do not fail.
fn refused(me: NodeId, error: &LoadError<MemStore>) -> ClusterError
    requires { (s : _) → error.now ≡ load_error.Failed s → ⊥ }
    ensures { (k f p : ℕ) → result ≡ cluster_error.Damaged k f p → (k ≡ me) × ((s : _) × (error.now ≡ load_error.Damaged s f p)) }
{
    match error {
        LoadError::Failed(_) => unreachable!(),
        LoadError::Damaged(_, file, at) => ClusterError::Damaged(me, file.number(), *at),
        LoadError::NoMemory(_) => ClusterError::NoMemory,
    }
}

/// A node that is loaded from a store, behind a crash.
fn seat_of<R: MemReplica>(
    alloc: Global,
    me: NodeId,
    setting: Setting,
    mut store: MemStore,
) -> Result<Seat<R>, ClusterError>
    ensures seat { IfOk result (λ seat. IsSeated (keeper R.stands_for R.durable R.disk R.is_whole) setting me store seat) }
    ensures damaged { (k f p : ℕ) → IsErrOf result (cluster_error.Damaged k f p) → (k ≡ me) × IsDamagedAt R.is_damaged store f p }
{
    store.crash(Outcome::Kept);
    match Node::load(alloc, me, setting, store) {
        Ok(node) => Ok(Seat {
            part: Part::Runs(node),
            clock: Micros::new(0),
            told: Vec::new(alloc),
        }),
        Err(error) => Err(refused(me, &error)),
    }
}

fn all_seats<R: MemReplica>(
    alloc: Global,
    setting: &Setting,
    stores: Vec<MemStore>,
) -> Result<Vec<Seat<R>>, ClusterError>
    requires { vec_len stores ≡ length setting.now.ring }
    ensures seats { IfOk result (λ seats. AreSeated (keeper R.stands_for R.durable R.disk R.is_whole) setting.now 0 stores.items seats.items) }
    ensures few { IfOk result (λ seats. length setting.now.ring ≤ 7) }
    ensures damaged { (k f p : ℕ) → IsErrOf result (cluster_error.Damaged k f p) → (store : _) × (slice_get stores.items k ≡ Some store) × IsDamagedAt R.is_damaged store f p }
{
    let mut seats = Vec::with_capacity(alloc, usize::from(setting.ring.nodes()))?;
    let mut number = 0;
    for store in stores {
        let setting = copy_setting(alloc, setting)?;
        let me = NodeId::new(number).unwrap();
        seats.push(seat_of(alloc, me, setting, store)?)?;
        number += 1;
    }
    Ok(seats)
}

fn parts_of<R: MemReplica>(
    alloc: Global,
    setting: Setting,
    stores: Vec<MemStore>,
) -> Result<Parts<R>, ClusterError>
    requires { vec_len stores ≡ length setting.ring }
    ensures holds { IfOk result (λ parts. Holds (keeper R.stands_for R.durable R.disk R.is_whole) parts) }
    ensures begins { IfOk result (λ parts. Begins R.stands_for setting stores.items (state_of (keeper R.stands_for R.durable R.disk R.is_whole) parts)) }
    ensures damaged { (k f p : ℕ) → IsErrOf result (cluster_error.Damaged k f p) → (store : _) × (slice_get stores.items k ≡ Some store) × IsDamagedAt R.is_damaged store f p }
{
    let seats = all_seats(alloc, &setting, stores)?;
    Ok(Parts {
        begun: Log::new().and(&seats, &()),
        setting,
        seats,
        annals: Annals {
            mail: Mail::new(alloc)?,
            pieces: Vec::new(alloc),
        },
    })
}

impl<R: MemReplica> Cluster<R> {
    ghost use Rattle.cluster_model.specs.State.{AreFresh, IsReached, KeepsOn, runs_at};
    ghost use Rattle.cluster_model.specs.Takes.{Takes, Stands};
    ghost use Rattle.cluster_model.specs.Beginning.{AreFormatted, Begins, IsDamagedAt};

    /// A cluster of one node on each of the stores, one for each token of the ring. Each store crashes first, with what it has
    /// pending kept, as one does whose process ended: faults that it was told are forgotten.
    pub fn new(
        alloc: Global,
        setting: Setting,
        stores: Vec<MemStore>,
    ) -> Result<Cluster<R>, ClusterError>
        requires { vec_len stores ≡ length setting.ring }
        ensures begins { IfOk result (λ cluster. Begins R.stands_for setting stores.items cluster) }
        ensures fresh { AreFormatted stores.items → IfOk result (λ cluster. AreFresh setting cluster.first) }
        ensures reached { IfOk result (λ cluster. IsReached cluster) }
        ensures damaged { (k f p : ℕ) → IsErrOf result (cluster_error.Damaged k f p) → (store : _) × (slice_get stores.items k ≡ Some store) × IsDamagedAt R.is_damaged store f p }
        ensures sound { AreFormatted stores.items → (k f p : ℕ) → IsErrOf result (cluster_error.Damaged k f p) → ⊥ }
    {
        Ok(Cluster {
            parts: parts_of(alloc, setting, stores)?,
        })
    }

    /// Takes one event. Whatever came before it, the cluster has come to this by a run from what its nodes were loaded with; and
    /// each answered read of its chronicle is right and goes forward, if its stores were formatted, and each request is told what it is
    /// told for its cause.
    ///
    /// After an error nothing of the event has happened, but for the deliveries of a settling that were made before.
    pub fn step(&mut self, alloc: Global, event: ClusterEvent) -> Result<(), AllocError>
        ensures ok { OnOk result (Takes self.old event self.new) }
        ensures err { OnErr result (Stands self.old event self.new) }
        ensures keeps { KeepsOn self.old self.new }
        ensures reached { IsReached self.new }
        ensures right { AreFresh self.new.setting self.new.first → ReadRight self.new.setting self.new.chronicle }
        ensures forward { AreFresh self.new.setting self.new.first → ReadsForward self.new.setting self.new.chronicle }
        ensures causes { AreFresh self.new.setting self.new.first → AnswersRight self.new.setting self.new.chronicle }
    {
        self.parts.take_event(alloc, event)
    }

    /// The chronicle so far, the oldest entry first, in pieces.
    pub fn chronicle(&self) -> &[Piece]
        ensures entries { reverse (joined result.now) ≡ self.now.chronicle }
        ensures reached { IsReached self.now }
        ensures right { AreFresh self.now.setting self.now.first → ReadRight self.now.setting self.now.chronicle }
        ensures forward { AreFresh self.now.setting self.now.first → ReadsForward self.now.setting self.now.chronicle }
        ensures causes { AreFresh self.now.setting self.now.first → AnswersRight self.now.setting self.now.chronicle }
    {
        &self.parts.annals.pieces
    }

    /// Whether the node runs. One that isn't of the ring does not.
    pub fn runs(&self, node: NodeId) -> bool
        ensures { result ≡ runs_at self.now node }
    {
        self.parts.runs(node)
    }
}
