//! The steps of a node that is asked.

ghost use Rattle.std.specs.Prelude.{◌≡◌};
ghost use Rattle.step_desk.specs.Tellings.{given_by};
ghost use Rattle.step_desk.specs.Outcomes.{named_by};
ghost use Rattle.step_desk.specs.Calls.{AsksNode, AnswersFor};

use crate::search::{outcome, told};
use client_desk::Answer;
use cluster_model::{Cluster, ClusterEvent};
use cs_base::{NodeId, ReqId};
use peer_messages::{Ask, Refusal};
use replica::MemReplica;
use std::alloc::{AllocError, Global};

/// How a request is named, or its answer where its node did not begin it.
fn named(runs: bool, outcome: Option<Result<ReqId, Refusal>>) -> Result<ReqId, Answer>
    ensures { result ≡ named_by runs outcome }
{
    match outcome {
        Some(Ok(request)) if runs => Ok(request),
        Some(Err(refusal)) if runs => Err(Answer::Refused(refusal)),
        _ => Err(Answer::Refused(Refusal::Down)),
    }
}

/// The first node is asked. An `Ok` names the request, and an `Err` is its answer.
pub(crate) fn ask_node<R: MemReplica>(
    cluster: &mut Cluster<R>,
    alloc: Global,
    ask: Ask,
) -> Result<ReqId, Answer>
    ensures { AsksNode cluster.old ask result cluster.new }
{
    let runs = cluster.runs(NodeId::FIRST);
    match cluster.step(alloc, ClusterEvent::Ask(NodeId::FIRST, ask)) {
        Ok(()) => named(runs, outcome(cluster.chronicle())),
        Err(AllocError) => Err(Answer::NoMemory),
    }
}

/// What is given of what is told. A node that has stopped has forgotten what it kept.
fn given(told: Result<Option<Answer>, AllocError>, runs: bool) -> Option<Answer>
    ensures { result ≡ given_by told runs }
{
    match told {
        _ if !runs => Some(Answer::Refused(Refusal::Down)),
        Ok(answer) => answer,
        Err(AllocError) => Some(Answer::NoMemory),
    }
}

/// The answer of a request that the node keeps, or None where there is none yet.
pub(crate) fn answer_of<R: MemReplica>(
    cluster: &mut Cluster<R>,
    alloc: Global,
    request: &ReqId,
) -> Option<Answer>
    ensures { AnswersFor cluster.old request.now result cluster.new }
{
    match cluster.step(alloc, ClusterEvent::Collect(NodeId::FIRST, *request)) {
        Ok(()) => {
            let told = told(alloc, cluster.chronicle(), request);
            given(told, cluster.runs(NodeId::FIRST))
        }
        Err(AllocError) => Some(Answer::NoMemory),
    }
}
