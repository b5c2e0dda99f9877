//! How the open requests take what a step made of one: what began is put in before the step is kept, which may want memory, and the
//! rest behind it, which takes none.

ghost use Rattle.std.specs.Prelude.{◌≡◌, None, IfOk, OnOk, OnErr};
ghost use Rattle.std.specs.BTreeMap.{IsOrdered, insert_entry, is_at};
ghost use Rattle.std.specs.Map.{remove_entry, set_value};
ghost use Rattle.cs_base.specs.Requests.{request_cmp};
ghost use Rattle.node_steps.specs.Effects.{open_at};
ghost use Rattle.node_core.specs.Working.{batches_with, down_with, left_open};
ghost use Rattle.node_core.specs.declared.slot.Slot.TheVariants.{Old};
ghost use Rattle.node_core.specs.Opening.{with_begun, without_begun, with_rest, LeavesRest, IsBegunAs, AreOrdered, MayPut, known_of, known_with, known_without, rest_of};

use crate::base::Base;
use crate::batches::Batches;
use crate::slot::Slot;
use crate::work::Work;
use cs_base::ReqId;
use peer_messages::NodeIds;
use read_coord::ReadCoord;
use std::alloc::AllocError;
use std::collections::BTreeMap;
use write_coord::WriteCoord;

/// Whether the step began a write, and whether it began a read.
#[derive(Clone, Copy)]
pub(crate) struct Began {
    pub write: bool,
    pub read: bool,
}

/// Puts in a request that the step began, and tells whether it did. An error leaves the requests as they were.
fn begin<W: Drop>(
    requests: &mut BTreeMap<ReqId, W>,
    request: ReqId,
    slot: &mut Slot<W>,
) -> Result<bool, AllocError>
    requires ordered { IsOrdered request_cmp requests.old }
    ensures entries { OnOk result (requests.new.entries ≡ with_begun request slot.old requests.old.entries) }
    ensures rest { IfOk result (λ began. LeavesRest slot.old began slot.new) }
    ensures err { OnErr result (requests.new.entries ≡ requests.old.entries) }
    ensures ordered { IsOrdered request_cmp requests.new }
{
    match slot.take_new() {
        Some(now) => {
            requests.insert(request, now)?;
            Ok(true)
        }
        None => Ok(false),
    }
}

/// Takes out again what the step began.
fn undo<W: Drop>(requests: &mut BTreeMap<ReqId, W>, request: &ReqId, began: bool)
    requires ordered { IsOrdered request_cmp requests.old }
    ensures entries { requests.new.entries ≡ without_begun request.now began requests.old.entries }
    ensures ordered { IsOrdered request_cmp requests.new }
{
    if began {
        requests.remove(request);
    }
}

/// Has an open request be this.
fn replace<W: Drop>(requests: &mut BTreeMap<ReqId, W>, request: &ReqId, now: W)
    ensures entries { requests.new.entries ≡ with_rest request.now (Old now) requests.old.entries }
    ensures ordered { IsOrdered request_cmp requests.new }
{
    if let Some(place) = requests.get_mut(request) {
        *place = now;
    }
}

/// Puts in what the step made of a request that was open before. It takes no memory.
fn finish<W: Drop>(requests: &mut BTreeMap<ReqId, W>, request: &ReqId, rest: &mut Slot<W>)
    requires ordered { IsOrdered request_cmp requests.old }
    ensures entries { requests.new.entries ≡ with_rest request.now rest.old requests.old.entries }
    ensures ordered { IsOrdered request_cmp requests.new }
{
    if rest.is_gone() {
        requests.remove(request);
        return;
    }
    if let Some(now) = rest.take_old() {
        replace(requests, request, now);
    }
}

/// Takes out the reads whose deadline came.
fn end_reads<W: Drop>(requests: &mut BTreeMap<ReqId, W>, ended: &[ReqId])
    requires ordered { IsOrdered request_cmp requests.old }
    ensures entries { requests.new.entries ≡ left_open ended.now requests.old.entries }
    ensures ordered { IsOrdered request_cmp requests.new }
{
    for request in ended {
        requests.remove(request);
    }
}

impl Base {
    /// Puts in a write that was not open. An error leaves the node as it was.
    fn insert_write(&mut self, request: ReqId, now: WriteCoord) -> Result<(), AllocError>
        requires ordered { AreOrdered self.old }
        requires absent { open_at self.old.writes.entries request ≡ None }
        ensures known { OnOk result (known_of self.new ≡ record (known_of self.old) { writes = insert_entry request_cmp self.old.writes.entries request now }) }
        ensures err { OnErr result (known_of self.new ≡ known_of self.old) }
        ensures ordered { AreOrdered self.new }
    {
        // so the count has room for one more
        let _most = self.writes.len();
        let waits = usize::from(!now.is_answered());
        drop(self.writes.insert(request, now)?);
        self.unanswered += waits;
        Ok(())
    }

    /// Puts in a write that the step began, and tells whether it did. An error leaves the node as it was.
    fn begin_write(
        &mut self,
        request: ReqId,
        slot: &mut Slot<WriteCoord>,
    ) -> Result<bool, AllocError>
        requires ordered { AreOrdered self.old }
        requires slot { MayPut request self.old.writes.entries slot.old }
        ensures known { OnOk result (known_of self.new ≡ record (known_of self.old) { writes = with_begun request slot.old self.old.writes.entries }) }
        ensures rest { IfOk result (λ began. LeavesRest slot.old began slot.new) }
        ensures err { OnErr result (known_of self.new ≡ known_of self.old) }
        ensures ordered { AreOrdered self.new }
    {
        match slot.take_new() {
            Some(now) => {
                self.insert_write(request, now)?;
                Ok(true)
            }
            None => Ok(false),
        }
    }

    /// Takes a write out, if it is open.
    fn remove_write(&mut self, request: &ReqId)
        requires ordered { AreOrdered self.old }
        ensures known { known_of self.new ≡ record (known_of self.old) { writes = remove_entry (is_at (request_cmp request.now)) self.old.writes.entries } }
        ensures ordered { AreOrdered self.new }
    {
        if let Some(write) = self.writes.remove(request) {
            self.unanswered -= usize::from(!write.is_answered());
            drop(write);
        }
    }

    /// Has an open write be this.
    fn replace_write(&mut self, request: &ReqId, now: WriteCoord)
        requires ordered { AreOrdered self.old }
        ensures known { known_of self.new ≡ record (known_of self.old) { writes = set_value (is_at (request_cmp request.now)) self.old.writes.entries now } }
        ensures ordered { AreOrdered self.new }
    {
        let _most = self.writes.len();
        if let Some(place) = self.writes.get_mut(request) {
            let before = usize::from(!place.is_answered());
            let after = usize::from(!now.is_answered());
            *place = now;
            self.unanswered = self.unanswered - before + after;
        }
    }

    /// Puts in what the step made of a write that was open before. It takes no memory.
    fn finish_write(&mut self, request: &ReqId, rest: &mut Slot<WriteCoord>)
        requires ordered { AreOrdered self.old }
        ensures known { known_of self.new ≡ record (known_of self.old) { writes = with_rest request.now rest.old self.old.writes.entries } }
        ensures ordered { AreOrdered self.new }
    {
        if rest.is_gone() {
            self.remove_write(request);
            return;
        }
        if let Some(now) = rest.take_old() {
            self.replace_write(request, now);
        }
    }

    /// Takes out the requests whose deadline came.
    fn end_due(&mut self, writes: &[ReqId], reads: &[ReqId])
        requires ordered { AreOrdered self.old }
        ensures known { known_of self.new ≡ record (known_of self.old) { writes = left_open writes.now self.old.writes.entries; reads = left_open reads.now self.old.reads.entries } }
        ensures ordered { AreOrdered self.new }
    {
        for request in writes {
            self.remove_write(request);
        }
        end_reads(&mut self.reads, reads);
    }

    /// Puts in what the step began, and leaves the rest where it is. An error leaves the node as it was.
    pub(crate) fn put_begun(
        &mut self,
        request: ReqId,
        write: &mut Slot<WriteCoord>,
        read: &mut Slot<ReadCoord>,
    ) -> Result<Began, AllocError>
        requires ordered { AreOrdered self.old }
        requires write { MayPut request self.old.writes.entries write.old }
        requires read { MayPut request self.old.reads.entries read.old }
        ensures ok { IfOk result (λ began. IsBegunAs request write.old read.old self.old began write.new read.new self.new) }
        ensures err { OnErr result (known_of self.new ≡ known_of self.old) }
        ensures ordered { AreOrdered self.new }
    {
        let began = self.begin_write(request, write)?;
        match begin(&mut self.reads, request, read) {
            Ok(read) => Ok(Began { write: began, read }),
            Err(error) => {
                self.undo_write(&request, began);
                Err(error)
            }
        }
    }

    fn undo_write(&mut self, request: &ReqId, began: bool)
        requires ordered { AreOrdered self.old }
        ensures known { known_of self.new ≡ record (known_of self.old) { writes = without_begun request.now began self.old.writes.entries } }
        ensures ordered { AreOrdered self.new }
    {
        if began {
            self.remove_write(request);
        }
    }

    /// Takes out again what the step began.
    pub(crate) fn take_begun(&mut self, request: &ReqId, began: Began)
        requires ordered { AreOrdered self.old }
        ensures known { known_of self.new ≡ known_without request.now began self.old }
        ensures ordered { AreOrdered self.new }
    {
        self.undo_write(request, began.write);
        undo(&mut self.reads, request, began.read);
    }

    /// Takes those for dead whom a step marked, if it marked any.
    fn mark_down(&mut self, marked: Option<NodeIds>)
        ensures { self.new ≡ record self.old { down = down_with marked self.old.down } }
    {
        if let Some(down) = marked {
            self.down = down;
        }
    }

    /// Waits for the hints that a step left to be waited for, if it changed them.
    fn wait_for(&mut self, changed: Option<Batches>)
        ensures { self.new ≡ record self.old { batches = batches_with changed self.old.batches } }
    {
        if let Some(batches) = changed {
            self.batches = batches;
        }
    }

    /// Takes out what was due, and puts in the rest of what the step made, whom it marked, and the hints that it waits for. It
    /// takes no memory.
    pub(crate) fn put_rest(&mut self, work: &mut Work)
        requires ordered { AreOrdered self.old }
        ensures known { known_of self.new ≡ known_with (rest_of work.old) self.old }
        ensures ordered { AreOrdered self.new }
        ensures work { work.new ≡ record work.old { write = work.new.write; read = work.new.read; marked = work.new.marked; batches = work.new.batches } }
    {
        let request = work.request;
        self.end_due(work.ended_writes.as_slice(), work.ended_reads.as_slice());
        self.finish_write(&request, &mut work.write);
        finish(&mut self.reads, &request, &mut work.read);
        self.mark_down(work.marked.take());
        self.wait_for(work.batches.take());
    }
}
