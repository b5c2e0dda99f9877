//! What replicas replied.

ghost use Rattle.std.specs.Prelude.{◌≡◌, map, IfOk};
ghost use Rattle.node_steps.specs.Reads.{is_same as is_same_of, replied_from};
ghost use Rattle.read_coord.specs.Keeping.{is_among, differs_from};
ghost use Rattle.read_coord.specs.Merges.{first_content, begins_with};

use cell_merge::Content;
use cs_base::{Items, NodeId};
use peer_messages::NodeIds;
use std::alloc::{AllocError, Global};
use std::marker::Model;

/// What a replica replied.
#[derive(Drop)]
pub(crate) struct Reply {
    pub(crate) from: NodeId,
    pub(crate) content: Content,
}

impl Model for Reply {
    ghost use Rattle.node_steps.specs.State.{Replied};

    ghost Value = { Replied };

    ghost view = { λ a. record { from = a.from; content = a.content } };
}

impl Reply {
    fn copy(&self, alloc: Global) -> Result<Reply, AllocError>
        ensures { IfOk result (λ reply. reply ≡ self.now) }
    {
        Ok(Reply {
            from: self.from,
            content: self.content.copy(alloc)?,
        })
    }
}

pub(crate) fn copy_replies(alloc: Global, replies: &[Reply]) -> Result<Vec<Reply>, AllocError>
    ensures { IfOk result (λ copies. copies.items ≡ replies.now) }
{
    let mut copies = Vec::with_capacity(alloc, replies.len())?;
    for reply in replies {
        copies.push(reply.copy(alloc)?)?;
    }
    Ok(copies)
}

/// The content of the first reply.
pub(crate) fn copy_first(alloc: Global, replies: &[Reply]) -> Result<Content, AllocError>
    ensures { IfOk result (λ content. content ≡ first_content replies.now) }
{
    match replies {
        [first, ..] => first.content.copy(alloc),
        [] => Ok(Content::new(alloc)),
    }
}

/// Whether the node is among those that replied.
pub(crate) fn is_among(replies: &[Reply], node: NodeId) -> bool
    ensures { result ≡ is_among replies.now node }
{
    replies.iter().any(|reply| reply.from == node)
}

/// The nodes that replied, in order.
pub(crate) fn repliers(alloc: Global, replies: &[Reply]) -> Result<NodeIds, AllocError>
    ensures { IfOk result (λ nodes. nodes ≡ map replied_from replies.now) }
{
    let mut nodes = Items::new(alloc);
    for reply in replies {
        nodes.push(reply.from)?;
    }
    Ok(nodes)
}

#[tactic(auto, using(crate::proofs::Replies::same_test))]
pub(crate) fn is_same(content: &Content, other: &Content) -> bool
    ensures { result ≡ is_same_of content.now other.now }
{
    content.is_same(other)
}

/// Whether the first reply, if there is one, is this content.
pub(crate) fn begins_with(replies: &[Reply], content: &Content) -> bool
    ensures { result ≡ begins_with replies.now content.now }
{
    match replies {
        [first, ..] => is_same(&first.content, content),
        [] => true,
    }
}

/// Whether one of the node's replies is another than the merge.
pub(crate) fn differs(merged: &Content, replies: &[Reply], node: NodeId) -> bool
    ensures { result ≡ differs_from merged.now replies.now node }
{
    replies.iter().any(|reply| reply.from == node && !is_same(&reply.content, merged))
}
