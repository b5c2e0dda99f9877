//! Messages.

use cell_merge::Content;
use changes::{Mutation, Partition};
use cs_base::{Items, LeafSet, Leaves, Micros, Range};
use row_change::Mark;
use std::marker::Model;

/// A partition and all that a replica holds of it.
#[derive(Drop)]
pub struct Part {
    pub partition: Partition,
    pub content: Content,
}

impl Model for Part {
    ghost use Rattle.changes.specs.declared.Mutation.{Mutation};

    ghost Value = { Mutation };

    ghost view = { λ a. record { partition = a.partition; changes = a.content } };
}

pub type Parts = Items<Part>;

pub type Mutations = Items<Mutation>;

/// What the coordinator of a repair and a replica of its range send each other. It is of a request, which what carries it
/// names.
#[derive(Drop)]
pub enum RepairMessage {
    /// To a replica: what are the digests of this range's leaves?
    Tree(Range),
    /// From it, at this time of its own: they are these; and whether it has a row of conditional updates in the range.
    TreeReply {
        leaves: Leaves,
        time: Micros,
        has_row: bool,
    },
    /// To a replica: what do you hold of these leaves of the range?
    Fetch(Range, LeafSet),
    /// From it: all that it holds of them, in the order of partitions.
    FetchReply(Parts),
    /// To a replica that held something else of these partitions: take their merges.
    Stream(Mutations),
    /// From it: the merges are taken.
    StreamAck,
    /// To a replica: keep that the range is repaired.
    SetMark(Mark),
}
