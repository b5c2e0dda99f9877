//! What a node does with a client's request: it begins, or is refused at once.

ghost use Rattle.std.specs.Prelude.{◌≡◌, ◌+◌, ◌<◌, ◌^◌, true, None, nat_lt, not, filter, IfOk};
ghost use Rattle.cs_base.specs.Quorums.{is_in as is_in_of};
ghost use Rattle.changes.specs.declared.DraftMutation.{DraftMutation as drafted};
ghost use Rattle.changes.specs.Drafts.{mutation_of};
ghost use Rattle.peer_messages.specs.declared.event.Plan.TheVariants.{Write, Read};
ghost use Rattle.peer_messages.specs.Settings.{replicas_of};
ghost use Rattle.node_steps.specs.State.{NodeState};
ghost use Rattle.node_steps.specs.Hints.{KeptHints, with_room};
ghost use Rattle.node_steps.specs.Requests.{refusal_at as refusal_at_of, is_overloaded, unavailable};
ghost use Rattle.node_core.specs.Asking.{AsksAs, AsksWrite, AsksRead, Begins, TellsEntry};
ghost use Rattle.node_core.specs.Hinting.{at, LeavesHints};
ghost use Rattle.node_core.specs.Working.{down_with};
ghost use Rattle.node_core.specs.declared.slot.Slot.TheVariants.{New};

use crate::base::Base;
use crate::fits::{query_fits, write_fits};
use crate::slot::Slot;
use crate::work::{Given, Work};
use changes::{DraftMutation, Mutation, Partition, Query};
use cs_base::{Items, Level, NodeId};
use hint_store::HintStore;
use peer_messages::{Ask, Entry, Invalid, Move, NodeIds, Plan, Refusal, Setting, count_up, is_in};
use read_coord::ReadCoord;
use statement_plan::Columns;
use std::alloc::{AllocError, Global};
use std::mem;
use write_coord::WriteCoord;

fn unavailable_at(
    setting: &Setting,
    down: &[NodeId],
    level: Level,
    partition: &Partition,
) -> Option<Refusal>
    ensures { result ≡ unavailable setting.now down.now level partition.now }
{
    let alive = count_up(setting.replicas(partition).as_slice(), down);
    let required = setting.needed(level, partition);
    if alive < usize::from(required) {
        return Some(Refusal::Unavailable {
            required,
            alive: alive as u8,
        });
    }
    None
}

/// So many requests of clients wait for an answer at most.
const MOST_WAITING: usize = 1024;

/// Whether two counts are fewer than the most together.
fn are_fewer(a: usize, b: usize, most: usize) -> bool
    ensures { result ≡ nat_lt (a + b) most }
{
    a < most && b < most - a
}

/// Why a request for a partition is refused at once; `serial` is why it is at a level of conditional updates.
fn refusal_at(
    setting: &Setting,
    down: &[NodeId],
    overloaded: bool,
    fits: bool,
    partition: &Partition,
    level: Level,
    serial: Invalid,
) -> Option<Refusal>
    ensures decides { (s : NodeState) → s.down ≡ down.now → is_overloaded s ≡ overloaded → result ≡ refusal_at_of setting.now s fits partition.now level serial }
    ensures accepts { result ≡ None → fits ≡ true }
{
    if !fits {
        return Some(Refusal::Invalid(Invalid::UnknownTable));
    }
    if level.is_serial() {
        return Some(Refusal::Invalid(serial));
    }
    if overloaded {
        return Some(Refusal::Overloaded);
    }
    unavailable_at(setting, down, level, partition)
}

impl Given {
    /// An entry, and nothing is sent.
    pub(crate) fn tells(alloc: Global, entry: Entry) -> Result<Given, AllocError>
        ensures { IfOk result (TellsEntry entry) }
    {
        let entries = vec![in alloc; entry]?;
        Ok(Given {
            sends: Items::new(alloc),
            entries: Items::from_vec(entries),
        })
    }
}

/// Of the replicas, those that are marked down and for which there is room for a hint.
fn hinted_of(
    alloc: Global,
    replicas: &[NodeId],
    down: &[NodeId],
    hints: &HintStore,
) -> Result<NodeIds, AllocError>
    ensures { IfOk result (λ hinted. hinted ≡ with_room hints.now.now (filter (λ k. is_in_of down.now k) replicas.now)) }
{
    let mut hinted = Items::new(alloc);
    for node in replicas {
        if is_in(down, *node) && !hints.is_full(*node) {
            hinted.push(*node)?;
        }
    }
    Ok(hinted)
}

impl Work {
    /// Whether as many requests wait for an answer as the node takes.
    fn is_overloaded(&self) -> bool
        ensures { result ≡ not (nat_lt (self.now.unanswered + self.now.open_reads) 1024) }
    {
        !are_fewer(self.unanswered, self.open_reads, MOST_WAITING)
    }

    /// Of a partition's replicas, those that are marked down and for which there is room for a hint.
    fn hinted(
        &self,
        base: &Base,
        hints: &HintStore,
        alloc: Global,
        partition: &Partition,
    ) -> Result<NodeIds, AllocError>
        ensures { IfOk result (λ hinted. hinted ≡ with_room hints.now.now (filter (λ k. is_in_of (down_with self.now.marked base.now.down) k) (replicas_of base.now.setting partition.now))) }
    {
        let replicas = base.setting.replicas(partition);
        hinted_of(alloc, replicas.as_slice(), self.down(base), hints)
    }

    /// Keeps the hints of a write that begins, and tells for whom.
    fn hint_begun(
        &mut self,
        base: &Base,
        hints: &mut HintStore,
        alloc: Global,
        mutation: &Mutation,
    ) -> Result<NodeIds, AllocError>
        ensures ok { IfOk result (λ hinted. (hinted ≡ with_room hints.old.now (filter (λ k. is_in_of (down_with self.old.marked base.now.down) k) (replicas_of base.now.setting mutation.now.partition))) × LeavesHints hinted self.old.request.time mutation.now (at self.old hints.old.now) (at self.new hints.new.now)) }
        ensures before { hints.new.before ≡ hints.old.before }
    {
        let hinted = self.hinted(base, hints, alloc, &mutation.partition)?;
        let born = self.request.time;
        self.leave_hints(hints, alloc, hinted.as_slice(), born, mutation)?;
        Ok(hinted)
    }

    /// The write is open from here on, and this is what its move gives.
    fn open_write(&mut self, write: WriteCoord, turn: Move) -> Given
        ensures sends { result.sends ≡ turn.sends }
        ensures entries { result.entries ≡ turn.entries }
        ensures opens { self.new ≡ record self.old { write = New write } }
    {
        drop(mem::replace(&mut self.write, Slot::New(write)));
        Given::of(turn)
    }

    /// The read is open from here on, and this is what its move gives.
    fn open_read(&mut self, read: ReadCoord, turn: Move) -> Given
        ensures sends { result.sends ≡ turn.sends }
        ensures entries { result.entries ≡ turn.entries }
        ensures opens { self.new ≡ record self.old { read = New read } }
    {
        drop(mem::replace(&mut self.read, Slot::New(read)));
        Given::of(turn)
    }

    /// Begins a write that is not refused.
    fn begin_write(
        &mut self,
        base: &Base,
        hints: &mut HintStore,
        alloc: Global,
        level: Level,
        mutation: Mutation,
    ) -> Result<Given, AllocError>
        ensures ok { (draft : drafted) → mutation ≡ mutation_of self.old.request draft → IfOk result (λ given. AsksWrite base.now level draft (at self.old hints.old.now) (at self.new hints.new.now) given) }
        ensures before { hints.new.before ≡ hints.old.before }
    {
        let hinted = self.hint_begun(base, hints, alloc, &mutation)?;
        let write = WriteCoord::start(alloc, level, mutation.copy(alloc)?, hinted)?;
        let id = self.request;
        let turn = write_coord::opening(alloc, &base.setting, self.down(base), id, mutation)?;
        Ok(self.open_write(write, turn))
    }

    fn ask_write(
        &mut self,
        base: &Base,
        hints: &mut HintStore,
        alloc: Global,
        level: Level,
        draft: &DraftMutation,
    ) -> Result<Given, AllocError>
        requires time { self.old.request.time < 2 ^ 63 }
        ensures asks { IfOk result (AsksAs base.now (Write draft.now) level (at self.old hints.old.now) (at self.new hints.new.now)) }
        ensures begins { IfOk result (Begins base.now self.old self.new) }
        ensures before { hints.new.before ≡ hints.old.before }
    {
        let mutation = draft.mutation(alloc, self.request)?;
        let fits = write_fits(&base.setting, &mutation);
        let overloaded = self.is_overloaded();
        let down = self.down(base);
        match refusal_at(
            &base.setting,
            down,
            overloaded,
            fits,
            &draft.partition,
            level,
            Invalid::SerialWrite,
        ) {
            Some(refusal) => Given::tells(alloc, Entry::Refused(self.request, refusal)),
            None => self.begin_write(base, hints, alloc, level, mutation),
        }
    }

    /// Begins a read that is not refused.
    fn begin_read(
        &mut self,
        base: &Base,
        alloc: Global,
        level: Level,
        query: Query,
        columns: Columns,
    ) -> Result<Given, AllocError>
        ensures { IfOk result (AsksRead base.now level query columns self.old self.new) }
    {
        let read = ReadCoord::start(alloc, level, &query)?;
        let down = self.down(base);
        let id = self.request;
        let turn = read_coord::opening(alloc, &base.setting, down, id, level, query, columns)?;
        Ok(self.open_read(read, turn))
    }

    fn ask_read(
        &mut self,
        base: &Base,
        alloc: Global,
        level: Level,
        query: Query,
        columns: Columns,
    ) -> Result<Given, AllocError>
        ensures asks { IfOk result (λ given. (k : KeptHints) → AsksAs base.now (Read query columns) level (at self.old k) (at self.new k) given) }
        ensures begins { IfOk result (Begins base.now self.old self.new) }
    {
        let fits = query_fits(&base.setting, &query);
        let overloaded = self.is_overloaded();
        let down = self.down(base);
        match refusal_at(
            &base.setting,
            down,
            overloaded,
            fits,
            &query.partition,
            level,
            Invalid::Level,
        ) {
            Some(refusal) => Given::tells(alloc, Entry::Refused(self.request, refusal)),
            None => self.begin_read(base, alloc, level, query, columns),
        }
    }

    /// Begins a client's request, or refuses it.
    pub(crate) fn ask(
        &mut self,
        base: &Base,
        hints: &mut HintStore,
        alloc: Global,
        ask: Ask,
    ) -> Result<Given, AllocError>
        requires time { self.old.request.time < 2 ^ 63 }
        ensures asks { IfOk result (AsksAs base.now ask.plan ask.level (at self.old hints.old.now) (at self.new hints.new.now)) }
        ensures begins { IfOk result (Begins base.now self.old self.new) }
        ensures before { hints.new.before ≡ hints.old.before }
    {
        let Ask { plan, level } = ask;
        match plan {
            Plan::Write(draft) => self.ask_write(base, hints, alloc, level, &draft),
            Plan::Read(query, columns) => self.ask_read(base, alloc, level, query, columns),
            Plan::Use(keyspace) => Given::tells(alloc, Entry::Used(self.request, keyspace)),
            Plan::Invalid(fault) => {
                let refusal = Refusal::Invalid(Invalid::Statement(fault));
                Given::tells(alloc, Entry::Refused(self.request, refusal))
            }
        }
    }
}
