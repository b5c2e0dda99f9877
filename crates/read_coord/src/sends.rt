//! What a coordinator sends: queries, and merges of replies.

ghost use Rattle.std.specs.Prelude.{◌≡◌, IfOk};
ghost use Rattle.peer_messages.specs.Settings.{up_of};
ghost use Rattle.peer_messages.specs.declared.message.Body.TheVariants.{Read, Mend};
ghost use Rattle.node_steps.specs.Effects.{outbound, send_to};
ghost use Rattle.read_coord.specs.Keeping.{mend_with};

use cell_merge::Content;
use changes::{Mutation, Partition, Query};
use cs_base::{Items, NodeId, ReqId};
use peer_messages::{Body, Outbound, Sends, is_in};
use std::alloc::{AllocError, Global};

fn ask(alloc: Global, request: ReqId, query: &Query, node: NodeId) -> Result<Outbound, AllocError>
    ensures { IfOk result (λ sent. sent ≡ outbound request (Read query.now) node) }
{
    Ok(Outbound {
        upto: node,
        born: request.time,
        request,
        body: Body::Read(query.copy(alloc)?),
    })
}

/// The query to each of the nodes that is not marked down.
pub(crate) fn ask_all(
    alloc: Global,
    request: ReqId,
    query: &Query,
    nodes: &[NodeId],
    down: &[NodeId],
) -> Result<Sends, AllocError>
    ensures { IfOk result (λ sends. sends ≡ send_to request (Read query.now) (up_of down.now nodes.now)) }
{
    let mut sends = Vec::with_capacity(alloc, nodes.len())?;
    for node in nodes {
        if !is_in(down, *node) {
            sends.push(ask(alloc, request, query, *node)?)?;
        }
    }
    Ok(Items::from_vec(sends))
}

/// The merge as changes of the partition.
fn changes_of(
    alloc: Global,
    partition: &Partition,
    merged: &Content,
) -> Result<Mutation, AllocError>
    ensures { IfOk result (λ mutation. mutation ≡ mend_with partition.now merged.now) }
{
    let partition = partition.copy(alloc)?;
    let changes = merged.copy(alloc)?.into_changes();
    Ok(Mutation {
        partition,
        changes: Items::from_vec(changes),
    })
}

fn mend(
    alloc: Global,
    request: ReqId,
    partition: &Partition,
    merged: &Content,
    node: NodeId,
) -> Result<Outbound, AllocError>
    ensures { IfOk result (λ sent. sent ≡ outbound request (Mend (mend_with partition.now merged.now)) node) }
{
    Ok(Outbound {
        upto: node,
        born: request.time,
        request,
        body: Body::Mend(changes_of(alloc, partition, merged)?),
    })
}

/// The merge to each of the nodes.
pub(crate) fn mend_all(
    alloc: Global,
    request: ReqId,
    partition: &Partition,
    merged: &Content,
    nodes: &[NodeId],
) -> Result<Sends, AllocError>
    ensures { IfOk result (λ sends. sends ≡ send_to request (Mend (mend_with partition.now merged.now)) nodes.now) }
{
    let mut sends = Vec::with_capacity(alloc, nodes.len())?;
    for node in nodes {
        sends.push(mend(alloc, request, partition, merged, *node)?)?;
    }
    Ok(Items::from_vec(sends))
}
