//! The histories of all nodes.

ghost use Rattle.std.specs.Prelude.{◌≡◌, ◌≤◌, List, [], map, length, IfOk};
ghost use Rattle.peer_messages.specs.declared.setting.Setting.{Setting};
ghost use Rattle.node_steps.specs.State.{NodeState};
ghost use Rattle.merged_histories.specs.Merging.{merged_on, placed_in};
ghost use Rattle.merged_histories.specs.Merged.{AreHistories, AreMerged, taken_by};

use crate::merging::merge;
use crate::timed::{PlacedEvent, Timed, timed_events};
use cs_base::{Micros, NodeId};
use lawful_orders::ahead_is_a_tick;
use std::alloc::{AllocError, Global};
use std::collections::VecDeque;
use wired_node::NodeEntry;

/// What a node's lock kept: the node time at which its history starts, and the entries.
#[derive(Clone, Copy)]
pub struct NodeHistory<'a> {
    pub start: Micros,
    pub entries: &'a [(u32, NodeEntry)],
}

fn all_timed(alloc: Global, histories: &[NodeHistory]) -> Result<VecDeque<Timed>, AllocError>
    requires { length histories.now ≤ 7 }
    ensures { IfOk result (λ all. all.items ≡ merged_on 0 histories.now []) }
{
    let mut all = VecDeque::new(alloc);
    for (number, history) in histories.iter().enumerate() {
        let node = NodeId::new(number as u8).unwrap();
        let own = timed_events(alloc, node, history.start, history.entries)?;
        all = merge(alloc, all, own)?;
    }
    Ok(all)
}

fn without_times(alloc: Global, all: VecDeque<Timed>) -> Result<Vec<PlacedEvent>, AllocError>
    ensures { IfOk result (λ events. events.items ≡ map placed_in all.items) }
{
    all.into_iter().map(|timed| timed.placed).collect(alloc)
}

/// The events of all nodes, of each by number, in one order: by node time, and then by node. A message that was refused because it
/// was ahead of its node stands there as a `Tick` with the same reading of the clock.
///
/// An `Err` is want of memory.
pub fn merged(alloc: Global, histories: &[NodeHistory]) -> Result<Vec<PlacedEvent>, AllocError>
    requires { length histories.now ≤ 7 }
    ensures { IfOk result (λ events. (c : Setting) (states ends : List NodeState) → AreHistories c states ends histories.now → AreMerged (map taken_by histories.now) events.items) }
{
    ahead_is_a_tick();
    without_times(alloc, all_timed(alloc, histories)?)
}
