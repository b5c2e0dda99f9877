//! What a node does with a body that comes to it.

ghost use Rattle.std.specs.Prelude.{◌≡◌, ◌↔◌, List, IsTrue, Contains, IfOk, IfSome, option_copied};
ghost use Rattle.std.specs.BTreeMap.{IsOrdered};
ghost use Rattle.cs_base.specs.declared.ids.ReqId.{ReqId as request_value};
ghost use Rattle.cs_base.specs.Requests.{request_cmp};
ghost use Rattle.peer_messages.specs.declared.setting.Setting.{Setting as setting_value};
ghost use Rattle.node_steps.specs.State.{OpenRead};
ghost use Rattle.node_steps.specs.Effects.{open_at};
ghost use Rattle.node_core.specs.Hearing.{IsOpened, IsLastOpen, AckMoves, ReplyMoves, MendMoves};
ghost use Rattle.node_core.specs.Slots.{slot_after};
ghost use Rattle.node_core.specs.Working.{IsSlotOf, left_open};

use crate::slot::{Found, Slot};
use crate::work::Given;
use cell_merge::Content;
use cs_base::{NodeId, ReqId};
use peer_messages::{Move, Setting};
use read_coord::ReadCoord;
use std::alloc::{AllocError, Global};
use std::collections::BTreeMap;
use std::mem;
use write_coord::WriteCoord;

/// Whether the deadline of the request came in this step.
fn has_ended(ended: &[ReqId], request: &ReqId) -> bool
    ensures { IsTrue result ↔ Contains ended.now request.now }
{
    ended.contains(request)
}

/// The request, if it was open before the step and its deadline has not come in it.
fn left<'a, W: Drop>(
    requests: &'a BTreeMap<ReqId, W>,
    ended: &[ReqId],
    request: &ReqId,
) -> Option<&'a W>
    requires { IsOrdered request_cmp requests.now }
    ensures { option_copied result ≡ open_at (left_open ended.now requests.now.entries) request.now }
{
    if has_ended(ended, request) {
        return None;
    }
    requests.get(request)
}

/// The open write of a request, to be moved: as the step left it, or a copy of what was there before.
fn open_write(
    writes: &BTreeMap<ReqId, WriteCoord>,
    ended: &[ReqId],
    slot: &mut Slot<WriteCoord>,
    request: &ReqId,
) -> Result<Option<Found<WriteCoord>>, AllocError>
    requires ordered { IsOrdered request_cmp writes.now }
    requires slot { IsSlotOf request.now (left_open ended.now writes.now.entries) slot.old }
    ensures { IfOk result (λ found. IsOpened request.now (left_open ended.now writes.now.entries) slot.old found slot.new) }
{
    if let Some(found) = slot.take() {
        return Ok(Some(found));
    }
    if slot.is_gone() {
        return Ok(None);
    }
    match left(writes, ended, request) {
        Some(write) => Ok(Some(Found::before(write.copy()?))),
        None => Ok(None),
    }
}

/// Puts a request back that has moved, unless it is done with, and tells what its move gives.
fn put_back<W: Drop>(slot: &mut Slot<W>, is_new: bool, now: W, turn: Move) -> Given
    ensures slot { slot.new ≡ slot_after is_new turn.ended now }
    ensures sends { result.sends ≡ turn.sends }
    ensures entries { result.entries ≡ turn.entries }
{
    let behind = Slot::behind(is_new, turn.ended, now);
    drop(mem::replace(slot, behind));
    Given::of(turn)
}

/// An acknowledgement comes to the open write of a request. Where there is none, nothing happens.
pub(crate) fn hear_ack(
    writes: &BTreeMap<ReqId, WriteCoord>,
    ended: &[ReqId],
    slot: &mut Slot<WriteCoord>,
    alloc: Global,
    setting: &Setting,
    request: ReqId,
    from: NodeId,
) -> Result<Given, AllocError>
    requires ordered { IsOrdered request_cmp writes.now }
    requires slot { IsSlotOf request (left_open ended.now writes.now.entries) slot.old }
    ensures ok { IfOk result (λ given. AckMoves setting.now request from (left_open ended.now writes.now.entries) slot.old given slot.new) }
{
    let Some(found) = open_write(writes, ended, slot, &request)? else {
        return Ok(Given::nothing(alloc));
    };
    let Found { mut now, is_new } = found;
    let turn = now.on_ack(alloc, setting, request, from)?;
    Ok(put_back(slot, is_new, now, turn))
}

/// The open read of a request, to be moved: as the step left it, or a copy of what was there before.
fn open_read(
    reads: &BTreeMap<ReqId, ReadCoord>,
    ended: &[ReqId],
    slot: &mut Slot<ReadCoord>,
    alloc: Global,
    request: &ReqId,
) -> Result<Option<Found<ReadCoord>>, AllocError>
    requires ordered { IsOrdered request_cmp reads.now }
    requires slot { IsSlotOf request.now (left_open ended.now reads.now.entries) slot.old }
    ensures { IfOk result (λ found. IsOpened request.now (left_open ended.now reads.now.entries) slot.old found slot.new) }
{
    if let Some(found) = slot.take() {
        return Ok(Some(found));
    }
    if slot.is_gone() {
        return Ok(None);
    }
    match left(reads, ended, request) {
        Some(read) => Ok(Some(Found::before(read.copy(alloc)?))),
        None => Ok(None),
    }
}

/// The open read of a request, which the step has not touched, if the node's reply ends it.
fn last_open<'a>(
    reads: &'a BTreeMap<ReqId, ReadCoord>,
    ended: &[ReqId],
    slot: &Slot<ReadCoord>,
    setting: &Setting,
    request: &ReqId,
    from: NodeId,
    content: &Content,
) -> Option<&'a ReadCoord>
    requires ordered { IsOrdered request_cmp reads.now }
    ensures { IfSome (option_copied result) (IsLastOpen setting.now request.now from content.now (left_open ended.now reads.now.entries) slot.now) }
{
    if !slot.is_untouched() {
        return None;
    }
    match left(reads, ended, request) {
        Some(read) if read.ends(setting, from, content) => Some(read),
        _ => None,
    }
}

/// A reply comes that ends a read. The read is not copied.
fn end_read(
    read: &ReadCoord,
    slot: &mut Slot<ReadCoord>,
    alloc: Global,
    request: ReqId,
    from: NodeId,
    content: Content,
) -> Result<Given, AllocError>
    ensures { IfOk result (λ given. (c : setting_value) (xs : List (request_value × OpenRead)) → IsLastOpen c request from content xs slot.old read.now → ReplyMoves c request from content xs slot.old given slot.new) }
{
    let turn = read.on_end(alloc, request, from, content)?;
    drop(mem::replace(slot, Slot::Gone));
    Ok(Given::of(turn))
}

/// A reply comes to the open read of a request, which moves. Where there is none, nothing happens.
fn move_read(
    reads: &BTreeMap<ReqId, ReadCoord>,
    ended: &[ReqId],
    slot: &mut Slot<ReadCoord>,
    alloc: Global,
    setting: &Setting,
    request: ReqId,
    from: NodeId,
    content: Content,
) -> Result<Given, AllocError>
    requires ordered { IsOrdered request_cmp reads.now }
    requires slot { IsSlotOf request (left_open ended.now reads.now.entries) slot.old }
    ensures ok { IfOk result (λ given. ReplyMoves setting.now request from content (left_open ended.now reads.now.entries) slot.old given slot.new) }
{
    let Some(found) = open_read(reads, ended, slot, alloc, &request)? else {
        drop(content);
        return Ok(Given::nothing(alloc));
    };
    let Found { mut now, is_new } = found;
    let turn = now.on_reply(alloc, setting, request, from, content)?;
    Ok(put_back(slot, is_new, now, turn))
}

/// A reply comes to the open read of a request. Where there is none, nothing happens.
pub(crate) fn hear_reply(
    reads: &BTreeMap<ReqId, ReadCoord>,
    ended: &[ReqId],
    slot: &mut Slot<ReadCoord>,
    alloc: Global,
    setting: &Setting,
    request: ReqId,
    from: NodeId,
    content: Content,
) -> Result<Given, AllocError>
    requires ordered { IsOrdered request_cmp reads.now }
    requires slot { IsSlotOf request (left_open ended.now reads.now.entries) slot.old }
    ensures ok { IfOk result (λ given. ReplyMoves setting.now request from content (left_open ended.now reads.now.entries) slot.old given slot.new) }
{
    match last_open(reads, ended, slot, setting, &request, from, &content) {
        Some(read) => end_read(read, slot, alloc, request, from, content),
        None => move_read(reads, ended, slot, alloc, setting, request, from, content),
    }
}

/// An acknowledgement of a merge comes to the open read of a request. Where there is none, nothing happens.
pub(crate) fn hear_mend_ack(
    reads: &BTreeMap<ReqId, ReadCoord>,
    ended: &[ReqId],
    slot: &mut Slot<ReadCoord>,
    alloc: Global,
    request: ReqId,
    from: NodeId,
) -> Result<Given, AllocError>
    requires ordered { IsOrdered request_cmp reads.now }
    requires slot { IsSlotOf request (left_open ended.now reads.now.entries) slot.old }
    ensures ok { IfOk result (λ given. (c : setting_value) → MendMoves c request from (left_open ended.now reads.now.entries) slot.old given slot.new) }
{
    let Some(found) = open_read(reads, ended, slot, alloc, &request)? else {
        return Ok(Given::nothing(alloc));
    };
    let Found { mut now, is_new } = found;
    let turn = now.on_mend_ack(alloc, request, from)?;
    Ok(put_back(slot, is_new, now, turn))
}
