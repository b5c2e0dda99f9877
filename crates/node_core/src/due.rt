//! What is due in a step: deadlines of open requests, and hints that have come to be too old.

ghost use Rattle.std.specs.Prelude.{◌≡◌, ◌↔◌, ◌<◌, ◌≤◌, ◌+◌, ◌^◌, ◌⊎◌, [], true, false, take_while, Contains, IfOk, OnOk};
ghost use Rattle.std.specs.BTreeSet.{insert_key};
ghost use Rattle.std.specs.List.Sorted.{IsStrictlySortedBy};
ghost use Rattle.std.specs.Map.{keys_of};
ghost use Rattle.cs_base.specs.declared.ids.ReqId.{ReqId as request_value};
ghost use Rattle.peer_messages.specs.Moves.{deadline_of};
ghost use Rattle.node_steps.specs.Steps.{Due as due_matter, IsDue};
ghost use Rattle.hint_store.specs.declared.aging.Expired.{Expired as expired_value};
ghost use Rattle.node_core.specs.declared.due.DueKey.{DueKey as due_value};
ghost use Rattle.node_core.specs.Due.{AreOwn, AreDueKeys, waits_in, key_cmp, is_due_at, IsDeadlineKey, IsExpiryKey, deadline_key as deadline_key_of, expiry_key as expiry_key_of};
ghost use Rattle.node_core.specs.Moving.{IsHolding};

use crate::base::Base;
use cs_base::{Micros, NodeId, ReqId};
use hint_store::{Expired, HintStore};
use peer_messages::is_before_deadline;
use std::alloc::{AllocError, Global};
use std::collections::{BTreeMap, BTreeSet};

/// How long a plain request waits for its replicas.
const WAIT: u64 = 5_000_000;

/// A request's own deadline comes before the ends of the hints that it left.
#[derive(Clone, Copy, Debug, PartialEq, Eq, PartialOrd, Ord)]
pub(crate) enum DueKind {
    Deadline,
    Expiry,
}

/// What is due, in the order in which a step takes it: a deadline, whose peer and number are 0, or the end of a hint that the
/// request left.
#[derive(Clone, Copy, Debug, PartialEq, Eq, PartialOrd, Ord)]
pub(crate) struct DueKey {
    pub moment: Micros,
    pub request: ReqId,
    pub kind: DueKind,
    pub peer: NodeId,
    pub number: u64,
}

pub(crate) type DueKeys = BTreeSet<DueKey>;

fn deadline_key(request: ReqId) -> DueKey
    requires { deadline_of request < 2 ^ 64 }
    ensures { result ≡ deadline_key_of request }
{
    DueKey {
        moment: Micros::new(request.time.count() + WAIT),
        request,
        kind: DueKind::Deadline,
        peer: NodeId::FIRST,
        number: 0,
    }
}

fn expiry_key(me: NodeId, expiry: Micros, hint: Expired) -> DueKey
    requires { hint.born + expiry + 1 < 2 ^ 64 }
    ensures { result ≡ expiry_key_of me expiry hint }
{
    DueKey {
        moment: Micros::new(hint.born.count() + expiry.count() + 1),
        request: ReqId {
            node: me,
            time: hint.born,
        },
        kind: DueKind::Expiry,
        peer: hint.peer,
        number: hint.number,
    }
}

/// Whether the first of these requests, which are in the order of their deadlines, is due at this time.
fn has_deadline<W: Drop>(me: NodeId, requests: &BTreeMap<ReqId, W>, time: Micros) -> bool
    requires { AreOwn me requests.now.entries }
    ensures none { result ≡ false → (id : request_value) → Contains (keys_of requests.now.entries) id → time < deadline_of id }
    ensures some { result ≡ true → (id : request_value) × Contains (keys_of requests.now.entries) id × (deadline_of id ≤ time) }
{
    match requests.first_key_value() {
        Some((id, _)) => !is_before_deadline(id, time),
        None => false,
    }
}

/// Whether anything is due at this time. It takes no memory.
pub(crate) fn has_due(base: &Base, hints: &HintStore, time: Micros) -> bool
    requires { IsHolding base.now }
    ensures none { result ≡ false → AreDueKeys base.now hints.now.now time [] }
    ensures some { result ≡ true → (d : due_matter) × IsDue base.now.setting base.now.me time (waits_in base.now hints.now.now) d }
{
    if has_deadline(base.me, &base.writes, time) {
        return true;
    }
    if has_deadline(base.me, &base.reads, time) {
        return true;
    }
    hints.has_expired(base.setting.expiry, time)
}

/// Whether the deadline of a request has come at this time.
fn is_due(request: &ReqId, time: Micros) -> bool
    ensures { result ≡ is_due_at time request.now }
{
    !is_before_deadline(request, time)
}

/// The requests whose deadline has come: a front of them, since they are in the order of their deadlines.
fn due_ids<W: Drop>(
    alloc: Global,
    requests: &BTreeMap<ReqId, W>,
    time: Micros,
) -> Result<Vec<ReqId>, AllocError>
    ensures { IfOk result (λ ids. ids.items ≡ take_while (is_due_at time) (keys_of requests.now.entries)) }
{
    requests
        .keys()
        .copied()
        .take_while(|request| is_due(request, time))
        .collect(alloc)
}

/// Adds what is due, at its place.
fn put(due: &mut DueKeys, key: DueKey) -> Result<(), AllocError>
    ensures { OnOk result (due.new.keys ≡ insert_key key_cmp due.old.keys key) }
{
    due.insert(key)?;
    Ok(())
}

/// What is due stands in the order of its keys.
fn stands_in_order(due: &DueKeys)
    ensures { IsStrictlySortedBy key_cmp due.now.keys }
{
    let _count = due.len();
}

/// Adds the deadlines of requests.
fn add_deadlines(due: &mut DueKeys, ids: &[ReqId]) -> Result<(), AllocError>
    requires { (id : request_value) → Contains ids.now id → deadline_of id < 2 ^ 64 }
    ensures { OnOk result ((k : due_value) → Contains due.new.keys k ↔ (Contains due.old.keys k ⊎ IsDeadlineKey ids.now k)) }
{
    for id in ids {
        put(due, deadline_key(*id))?;
    }
    Ok(())
}

/// Adds the ends of hints.
fn add_expired(
    due: &mut DueKeys,
    me: NodeId,
    expiry: Micros,
    expired: &[Expired],
) -> Result<(), AllocError>
    requires { (x : expired_value) → Contains expired.now x → x.born + expiry + 1 < 2 ^ 64 }
    ensures { OnOk result ((k : due_value) → Contains due.new.keys k ↔ (Contains due.old.keys k ⊎ IsExpiryKey me expiry expired.now k)) }
{
    for hint in expired {
        put(due, expiry_key(me, expiry, *hint))?;
    }
    Ok(())
}

/// The deadlines of these writes and reads, and the ends of these hints.
fn all_keys(
    alloc: Global,
    me: NodeId,
    expiry: Micros,
    writes: &[ReqId],
    reads: &[ReqId],
    expired: &[Expired],
) -> Result<DueKeys, AllocError>
    requires writes { (id : request_value) → Contains writes.now id → deadline_of id < 2 ^ 64 }
    requires reads { (id : request_value) → Contains reads.now id → deadline_of id < 2 ^ 64 }
    requires expired { (x : expired_value) → Contains expired.now x → x.born + expiry + 1 < 2 ^ 64 }
    ensures { IfOk result (λ due. (k : due_value) → Contains due.keys k ↔ (IsDeadlineKey writes.now k ⊎ IsDeadlineKey reads.now k ⊎ IsExpiryKey me expiry expired.now k)) }
{
    let mut due = BTreeSet::new(alloc);
    add_deadlines(&mut due, writes)?;
    add_deadlines(&mut due, reads)?;
    add_expired(&mut due, me, expiry, expired)?;
    Ok(due)
}

/// All that is due at this time.
pub(crate) fn find_due(
    base: &Base,
    hints: &HintStore,
    alloc: Global,
    time: Micros,
) -> Result<DueKeys, AllocError>
    requires holding { IsHolding base.now }
    requires time { time < 2 ^ 63 }
    ensures { IfOk result (λ due. AreDueKeys base.now hints.now.now time due.keys) }
{
    let expiry = base.setting.expiry;
    let writes = due_ids(alloc, &base.writes, time)?;
    let reads = due_ids(alloc, &base.reads, time)?;
    let expired = hints.expired(alloc, expiry, time)?;
    let due = all_keys(alloc, base.me, expiry, &writes, &reads, expired.as_slice())?;
    stands_in_order(&due);
    Ok(due)
}
