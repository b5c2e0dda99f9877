//! How a node hears a body in a step.

ghost use Rattle.std.specs.Prelude.{◌≡◌, ◌∷◌, ◌++◌, ℕ, [], Contains, IfOk, OnOk, IsErrOf};
ghost use Rattle.std.specs.List.{AllByRecursion};
ghost use Rattle.std.specs.BTreeMap.{IsOrdered};
ghost use Rattle.cs_base.specs.Faults.{HasRisen};
ghost use Rattle.cs_base.specs.Requests.{request_cmp};
ghost use Rattle.changes.specs.Contents.{IsContent};
ghost use Rattle.changes.specs.Places.{AreInOrder};
ghost use Rattle.change_laws.specs.Kept.{Within};
ghost use Rattle.durable_state.specs.Partitions.{is_partition};
ghost use Rattle.durable_state.specs.State.{changes_of};
ghost use Rattle.node_steps.specs.Replicas.{IsAnswerTo};
ghost use Rattle.row_change.specs.declared.entry.LogItem.TheVariants.{Data};
ghost use Rattle.node_steps.specs.Effects.{outbound};
ghost use Rattle.node_steps.specs.Fitting.{write_fits as write_fits_of};
ghost use Rattle.node_steps.specs.Hints.{KeptHints as kept_hints};
ghost use Rattle.node_core.specs.Working.{effects_given, IsSlotOf, IsDataAt, IsSound, BodyFits, IsOwn};
ghost use Rattle.node_core.specs.Hearing.{AckMoves, ReplyMoves, MendMoves};
ghost use Rattle.node_core.specs.Hinting.{at};
ghost use Rattle.node_core.specs.Moving.{replies, AnswersBehind, IsBehind, IsBehindItem, AreBehind, IsReadFor, HasPart, TakesBody, TakesMend, left_writes, left_reads, heard_from, IsHolding, IsOfOther, IsHeard, GoesBy, Peeks};
ghost use Rattle.replica.specs.declared.error.CallError.TheVariants as call_error;

use crate::base::Base;
use crate::fits::write_fits;
use crate::hears::{hear_ack, hear_mend_ack, hear_reply};
use crate::times::is_old;
use crate::work::{Given, Work};
use cell_merge::Content;
use changes::{Held, Helds, Mutation, Partition, Query};
use cs_base::{Bytes, Items, Micros, NodeId, ReqId};
use hint_store::HintStore;
use peer_messages::{Body, Outbound};
use replica::{CallError, Replica};
use row_change::LogItem;
use std::alloc::{AllocError, Global};
use std::mem;

/// Who sent a body, and of which request it is.
#[derive(Clone, Copy)]
pub(crate) struct Asker {
    pub from: NodeId,
    pub request: ReqId,
}

/// What a replica holds of a query's rows.
fn held<R: Replica>(replica: &mut R, alloc: Global, query: &Query) -> Result<Content, CallError>
    requires whole { R.is_whole replica.old }
    ensures ok { IfOk result (λ part. R.Disk.is_honest → IsAnswerTo (changes_of (R.durable replica.old).content) query.now part) }
    ensures peeks { Peeks R.stands_for (λ r. R.Disk.disk (R.disk r)) R.durable R.log_end R.since_flush (λ r. R.Disk.faults (R.disk r)) (λ r n. R.Disk.spares (R.disk r) n) R.Disk.is_honest replica.old replica.new }
    ensures whole { (IsErrOf result call_error.Failed → ⊥) → R.is_whole replica.new }
    ensures failed { IsErrOf result call_error.Failed → HasRisen (R.Disk.faults (R.disk replica.old)) (R.Disk.faults (R.disk replica.new)) }
    ensures surely { IsErrOf result call_error.Failed → ((n : ℕ) → R.Disk.spares (R.disk replica.old) n) → ⊥ }
{
    replica.content(alloc, &query.partition, &query.from, &query.upto)
}

fn copied(alloc: Global, changes: &[Held]) -> Result<Helds, AllocError>
    ensures { IfOk result (λ copies. copies ≡ changes.now) }
{
    let mut copies = Items::new(alloc);
    for change in changes {
        copies.push(change.copy(alloc)?)?;
    }
    Ok(copies)
}

/// What of changes meets a query's rows.
fn met(alloc: Global, changes: &[Held], query: &Query) -> Result<Content, AllocError>
    ensures { IfOk result (λ part. IsContent part (Within query.now.from query.now.upto (Contains changes.now))) }
{
    let all = Content::from_changes(alloc, copied(alloc, changes)?.into_vec())?;
    all.slice(alloc, &query.from, &query.upto)
}

fn is_one(a: &Partition, b: &Partition) -> bool
    ensures { result ≡ is_partition a.now b.now }
{
    a.cmp(b).is_eq()
}

/// What is held of a query's rows behind changes that are taken in.
fn behind(
    alloc: Global,
    part: Content,
    mutation: &Mutation,
    query: &Query,
) -> Result<Content, AllocError>
    ensures { IfOk result (λ all. IsBehind mutation.now query.now part all) }
{
    if is_one(&mutation.partition, &query.partition) {
        let more = met(alloc, mutation.changes.as_slice(), query)?;
        return part.merge(alloc, more);
    }
    Ok(part)
}

/// What is held of a query's rows behind an item.
fn behind_item(
    alloc: Global,
    part: Content,
    item: &LogItem,
    query: &Query,
) -> Result<Content, AllocError>
    ensures { IfOk result (λ all. IsBehindItem item.now query.now part all) }
{
    match item {
        LogItem::Data(_, mutation) => behind(alloc, part, mutation, query),
        LogItem::Paxos(..)
        | LogItem::HintAdd(_)
        | LogItem::HintGone(..)
        | LogItem::Ceiling(_)
        | LogItem::Mark(_)
        | LogItem::Purge(_) => Ok(part),
    }
}

/// What is held of a query's rows behind all of the changes that the step takes in, in order.
fn behind_all(
    alloc: Global,
    part: Content,
    items: &[LogItem],
    query: &Query,
) -> Result<Content, AllocError>
    ensures ok { IfOk result (λ all. AreBehind items.now query.now part all) }
    ensures ordered { IfOk result (λ all. AreInOrder all) }
{
    let mut all = part;
    for item in items {
        all = behind_item(alloc, all, item, query)?;
    }
    Ok(in_order(all))
}

/// The changes of a content are in order.
fn in_order(content: Content) -> Content
    ensures same { result ≡ content }
    ensures ordered { AreInOrder result }
{
    let _changes = content.as_slice();
    content
}

/// All that is held of a query's rows behind the changes that the step takes in.
fn answer<R: Replica>(
    replica: &mut R,
    alloc: Global,
    items: &[LogItem],
    query: &Query,
) -> Result<Content, CallError>
    requires whole { R.is_whole replica.old }
    requires items { (time : _) × AllByRecursion (IsDataAt time) items.now }
    ensures ok { IfOk result (λ part. R.Disk.is_honest → AnswersBehind items.now (R.durable replica.old) query.now part) }
    ensures peeks { Peeks R.stands_for (λ r. R.Disk.disk (R.disk r)) R.durable R.log_end R.since_flush (λ r. R.Disk.faults (R.disk r)) (λ r n. R.Disk.spares (R.disk r) n) R.Disk.is_honest replica.old replica.new }
    ensures whole { (IsErrOf result call_error.Failed → ⊥) → R.is_whole replica.new }
    ensures failed { IsErrOf result call_error.Failed → HasRisen (R.Disk.faults (R.disk replica.old)) (R.Disk.faults (R.disk replica.new)) }
    ensures surely { IsErrOf result call_error.Failed → ((n : ℕ) → R.Disk.spares (R.disk replica.old) n) → ⊥ }
{
    let part = held(replica, alloc, query)?;
    Ok(behind_all(alloc, part, items, query)?)
}

/// What a body is answered with, if it asks what is held.
fn read_for<R: Replica>(
    replica: &mut R,
    alloc: Global,
    items: &[LogItem],
    body: &Body,
) -> Result<Option<Content>, CallError>
    requires whole { R.is_whole replica.old }
    requires items { (time : _) × AllByRecursion (IsDataAt time) items.now }
    ensures ok { IfOk result (λ part. R.Disk.is_honest → IsReadFor items.now (R.durable replica.old) body.now part) }
    ensures there { IfOk result (λ part. HasPart body.now part) }
    ensures peeks { Peeks R.stands_for (λ r. R.Disk.disk (R.disk r)) R.durable R.log_end R.since_flush (λ r. R.Disk.faults (R.disk r)) (λ r n. R.Disk.spares (R.disk r) n) R.Disk.is_honest replica.old replica.new }
    ensures whole { (IsErrOf result call_error.Failed → ⊥) → R.is_whole replica.new }
    ensures failed { IsErrOf result call_error.Failed → HasRisen (R.Disk.faults (R.disk replica.old)) (R.Disk.faults (R.disk replica.new)) }
    ensures surely { IsErrOf result call_error.Failed → ((n : ℕ) → R.Disk.spares (R.disk replica.old) n) → ⊥ }
{
    match body {
        Body::Read(query) => Ok(Some(answer(replica, alloc, items, query)?)),
        Body::Write(_)
        | Body::WriteAck
        | Body::ReadReply(_)
        | Body::Mend(_)
        | Body::MendAck
        | Body::Hint(..)
        | Body::HintAck(_) => Ok(None),
    }
}

/// The body on its way back to who asked.
fn sent_back(asker: Asker, body: Body) -> Outbound
    ensures { result ≡ outbound asker.request body asker.from }
{
    let request = asker.request;
    Outbound {
        upto: asker.from,
        born: request.time,
        request,
        body,
    }
}

/// The body goes back to who asked.
fn reply(alloc: Global, asker: Asker, body: Body) -> Result<Given, AllocError>
    ensures { IfOk result (λ given. effects_given given ≡ replies asker body) }
{
    let sends = vec![in alloc; sent_back(asker, body)]?;
    Ok(Given {
        sends: Items::from_vec(sends),
        entries: Items::new(alloc),
    })
}

/// The changes, which are moved.
fn moved(alloc: Global, mutation: &mut Mutation) -> Mutation
    ensures { result ≡ mutation.old }
{
    let nothing = Mutation {
        partition: Partition {
            token: 0,
            table: 0,
            key: Bytes::new(alloc),
        },
        changes: Items::new(alloc),
    };
    mem::replace(mutation, nothing)
}

impl Work {
    fn take_in(&mut self, mutation: Mutation) -> Result<(), AllocError>
        ensures { OnOk result (self.new ≡ record self.old { taken = self.old.taken ++ Data self.old.time mutation ∷ [] }) }
    {
        self.taken.push(LogItem::Data(self.time, mutation))?;
        Ok(())
    }

    /// Takes changes in: they are kept with the step, and acknowledged by this.
    fn take_changes(
        &mut self,
        alloc: Global,
        asker: Asker,
        mutation: &mut Mutation,
        ack: Body,
    ) -> Result<Given, AllocError>
        ensures { IfOk result (λ given. (effects_given given ≡ replies asker ack) × (self.new ≡ record self.old { taken = self.old.taken ++ Data self.old.time mutation.old ∷ [] })) }
    {
        match self.take_in(moved(alloc, mutation)) {
            Ok(()) => reply(alloc, asker, ack),
            Err(error) => {
                drop(ack);
                Err(error)
            }
        }
    }

    /// Takes a merge in, if it can be written: its own coordinator may send it one that cannot.
    fn take_mend(
        &mut self,
        base: &Base,
        alloc: Global,
        asker: Asker,
        mutation: &mut Mutation,
    ) -> Result<Given, AllocError>
        ensures { IfOk result (λ given. (hints : kept_hints) → TakesMend (write_fits_of base.now.setting mutation.old) asker mutation.old (at self.old hints) given (at self.new hints)) }
    {
        if !write_fits(&base.setting, mutation) {
            return Ok(Given::nothing(alloc));
        }
        self.take_changes(alloc, asker, mutation, Body::MendAck)
    }

    fn hear_ack(&mut self, base: &Base, alloc: Global, asker: Asker) -> Result<Given, AllocError>
        requires ordered { IsOrdered request_cmp base.now.writes }
        requires slot { IsSlotOf asker.request (left_writes base.now self.old) self.old.write }
        ensures { IfOk result (λ given. AckMoves base.now.setting asker.request asker.from (left_writes base.now self.old) self.old.write given self.new.write × (self.new ≡ record self.old { write = self.new.write })) }
    {
        let ended = self.ended_writes.as_slice();
        let slot = &mut self.write;
        hear_ack(
            &base.writes,
            ended,
            slot,
            alloc,
            &base.setting,
            asker.request,
            asker.from,
        )
    }

    fn hear_reply(
        &mut self,
        base: &Base,
        alloc: Global,
        asker: Asker,
        content: &mut Content,
    ) -> Result<Given, AllocError>
        requires ordered { IsOrdered request_cmp base.now.reads }
        requires slot { IsSlotOf asker.request (left_reads base.now self.old) self.old.read }
        ensures { IfOk result (λ given. ReplyMoves base.now.setting asker.request asker.from content.old (left_reads base.now self.old) self.old.read given self.new.read × (self.new ≡ record self.old { read = self.new.read })) }
    {
        let content = mem::replace(content, Content::new(alloc));
        let ended = self.ended_reads.as_slice();
        let slot = &mut self.read;
        hear_reply(
            &base.reads,
            ended,
            slot,
            alloc,
            &base.setting,
            asker.request,
            asker.from,
            content,
        )
    }

    fn hear_mend_ack(
        &mut self,
        base: &Base,
        alloc: Global,
        asker: Asker,
    ) -> Result<Given, AllocError>
        requires ordered { IsOrdered request_cmp base.now.reads }
        requires slot { IsSlotOf asker.request (left_reads base.now self.old) self.old.read }
        ensures { IfOk result (λ given. MendMoves base.now.setting asker.request asker.from (left_reads base.now self.old) self.old.read given self.new.read × (self.new ≡ record self.old { read = self.new.read })) }
    {
        let ended = self.ended_reads.as_slice();
        let slot = &mut self.read;
        hear_mend_ack(&base.reads, ended, slot, alloc, asker.request, asker.from)
    }

    /// Takes a body, by what came, and moves what it has; `part` is what is held of what it asks.
    fn hear_body(
        &mut self,
        base: &Base,
        hints: &mut HintStore,
        alloc: Global,
        asker: Asker,
        body: &mut Body,
        part: Option<Content>,
    ) -> Result<Given, AllocError>
        requires writes { IsOrdered request_cmp base.now.writes }
        requires reads { IsOrdered request_cmp base.now.reads }
        requires write { IsSlotOf asker.request (left_writes base.now self.old) self.old.write }
        requires read { IsSlotOf asker.request (left_reads base.now self.old) self.old.read }
        requires part { HasPart body.old part }
        ensures ok { IfOk result (λ given. TakesBody base.now (at self.old hints.old.now) asker body.old part given (at self.new hints.new.now)) }
        ensures before { hints.new.before ≡ hints.old.before }
    {
        match body {
            Body::Write(mutation) => self.take_changes(alloc, asker, mutation, Body::WriteAck),
            Body::WriteAck => self.hear_ack(base, alloc, asker),
            Body::Read(_) => match part {
                Some(part) => reply(alloc, asker, Body::ReadReply(part)),
                None => unreachable!(),
            },
            Body::ReadReply(content) => self.hear_reply(base, alloc, asker, content),
            Body::Mend(mutation) => self.take_mend(base, alloc, asker, mutation),
            Body::MendAck => self.hear_mend_ack(base, alloc, asker),
            Body::Hint(number, mutation) => {
                let ack = Body::HintAck(*number);
                self.take_changes(alloc, asker, mutation, ack)
            }
            Body::HintAck(number) => self.hear_hint_ack(base, hints, alloc, asker.from, *number),
        }
    }
}

/// Hears a body of a request that began at this time, and moves what it has, unless it is too old.
pub(crate) fn hear<R: Replica>(
    base: &Base,
    hints: &mut HintStore,
    replica: &mut R,
    alloc: Global,
    work: &mut Work,
    asker: Asker,
    born: Micros,
    body: &mut Body,
) -> Result<Given, CallError>
    requires whole { R.is_whole replica.old }
    requires holding { IsHolding base.now }
    requires sound { IsSound base.now work.old }
    requires request { asker.request ≡ work.old.request }
    requires fits { BodyFits body.old }
    requires other { IsOfOther base.now.me asker.from body.old }
    ensures ok { IfOk result (λ given. IsHeard base.now R.Disk.is_honest (R.durable replica.old) (at work.old hints.old.now) (heard_from asker born body.old) given (at work.new hints.new.now)) }
    ensures before { hints.new.before ≡ hints.old.before }
    ensures same { IsErrOf result call_error.Failed → work.new ≡ work.old }
    ensures peeks { Peeks R.stands_for (λ r. R.Disk.disk (R.disk r)) R.durable R.log_end R.since_flush (λ r. R.Disk.faults (R.disk r)) (λ r n. R.Disk.spares (R.disk r) n) R.Disk.is_honest replica.old replica.new }
    ensures whole { (IsErrOf result call_error.Failed → ⊥) → R.is_whole replica.new }
    ensures failed { IsErrOf result call_error.Failed → HasRisen (R.Disk.faults (R.disk replica.old)) (R.Disk.faults (R.disk replica.new)) }
    ensures surely { IsErrOf result call_error.Failed → ((n : ℕ) → R.Disk.spares (R.disk replica.old) n) → ⊥ }
{
    if is_old(&base.setting, work.time, born) {
        return Ok(Given::nothing(alloc));
    }
    let part = read_for(replica, alloc, work.taken.as_slice(), body)?;
    Ok(work.hear_body(base, hints, alloc, asker, body, part)?)
}

/// Hears a body that the node sent to itself, which was taken from the queue, and moves what it has.
pub(crate) fn hear_own<R: Replica>(
    base: &Base,
    hints: &mut HintStore,
    replica: &mut R,
    alloc: Global,
    work: &mut Work,
    sent: &mut Outbound,
) -> Result<(), CallError>
    requires whole { R.is_whole replica.old }
    requires holding { IsHolding base.now }
    requires sound { IsSound base.now work.old }
    requires own { IsOwn base.now.me work.old.request sent.old }
    ensures ok { OnOk result (GoesBy base.now R.Disk.is_honest (R.durable replica.old) sent.old (at work.old hints.old.now) (at work.new hints.new.now)) }
    ensures before { hints.new.before ≡ hints.old.before }
    ensures same { IsErrOf result call_error.Failed → work.new ≡ work.old }
    ensures peeks { Peeks R.stands_for (λ r. R.Disk.disk (R.disk r)) R.durable R.log_end R.since_flush (λ r. R.Disk.faults (R.disk r)) (λ r n. R.Disk.spares (R.disk r) n) R.Disk.is_honest replica.old replica.new }
    ensures whole { (IsErrOf result call_error.Failed → ⊥) → R.is_whole replica.new }
    ensures failed { IsErrOf result call_error.Failed → HasRisen (R.Disk.faults (R.disk replica.old)) (R.Disk.faults (R.disk replica.new)) }
    ensures surely { IsErrOf result call_error.Failed → ((n : ℕ) → R.Disk.spares (R.disk replica.old) n) → ⊥ }
{
    let asker = Asker {
        from: base.me,
        request: sent.request,
    };
    let born = sent.born;
    let given = hear(
        base,
        hints,
        replica,
        alloc,
        work,
        asker,
        born,
        &mut sent.body,
    )?;
    Ok(work.give(base.me, given)?)
}
