//! The desk.

use crate::call::Call;
use crate::steps::{answer_of, ask_node};
use client_desk::{Answer, Desk};
use cluster_model::Cluster;
use cs_base::ReqId;
use http_server::Log;
use peer_messages::Ask;
use replica::MemReplica;
use std::alloc::Global;
use std::marker::Model;

/// A desk at the first node of a cluster, which it steps by each call. The cluster has this one node: messages to others would
/// not be delivered.
///
/// A node keeps an answer until it is collected, or until it stops.
#[derive(Drop)]
pub struct StepDesk<R: MemReplica> {
    alloc: Global,
    cluster: Cluster<R>,
    calls: Log<Call, ()>,
}

impl<R: MemReplica> Model for StepDesk<R> {
    ghost use Rattle.step_desk.specs.Desks.{DeskState, asks_after};

    ghost Value = { DeskState };

    ghost view = { λ a. record { cluster = a.cluster; asks = asks_after a.calls.items } };
}

impl<R: MemReplica> StepDesk<R> {
    ghost use Rattle.std.specs.Prelude.{◌≡◌, []};

    /// A desk at which nothing was submitted.
    pub fn new(alloc: Global, cluster: Cluster<R>) -> StepDesk<R>
        ensures cluster { result.cluster ≡ cluster }
        ensures asks { result.asks ≡ [] }
    {
        StepDesk {
            alloc,
            cluster,
            calls: Log::new(),
        }
    }

    pub fn cluster(&self) -> &Cluster<R>
        ensures { result.now ≡ self.now.cluster }
    {
        &self.cluster
    }

    pub fn into_cluster(self) -> Cluster<R>
        ensures { result ≡ self.cluster }
    {
        self.cluster
    }
}

impl<R: MemReplica> Desk for StepDesk<R> {
    ghost use Rattle.std.specs.Prelude.{◌≡◌};
    ghost use Rattle.step_desk.specs.Desks.{DeskState};
    ghost use Rattle.client_desk.specs.Asks.{Submits, IsAwaited, Collects};
    ghost use Rattle.step_desk.specs.Calls.{AsksNode, AnswersFor};

    // There is one desk at a cluster, and nobody has to know it again.
    type Home = ();

    ghost home = { λ (d : DeskState). tt };

    ghost asks = { λ (d : DeskState). d.asks };

    fn submit(&mut self, ask: Ask) -> Result<ReqId, Answer>
        ensures submits { Submits self.old.asks ask result self.new.asks }
        ensures asks { AsksNode self.old.cluster ask result self.new.cluster }
    {
        let asked = Log::new().and(&ask, &());
        let named = ask_node(&mut self.cluster, self.alloc, ask);
        self.calls = self.calls.and(&Call::submission(asked, &named), &());
        named
    }

    fn collect(&mut self, request: ReqId) -> Option<Answer>
        requires { IsAwaited self.old.asks request }
        ensures collects { Collects self.old.asks request result self.new.asks }
        ensures answers { AnswersFor self.old.cluster request result self.new.cluster }
    {
        let answer = answer_of(&mut self.cluster, self.alloc, &request);
        if let Some(answer) = &answer {
            self.calls = self.calls.and(&Call::answer(answer), &());
        }
        answer
    }
}
