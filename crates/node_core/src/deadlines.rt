//! How a step takes what is due, before the event's own matter.

ghost use Rattle.std.specs.Prelude.{◌≡◌, ◌<◌, ◌≤◌, ◌^◌, ◌-◌, ◌∷◌, ◌++◌, [], false, IfOk, OnOk};
ghost use Rattle.peer_messages.specs.Moves.{deadline_of};
ghost use Rattle.node_steps.specs.Effects.{open_at};
ghost use Rattle.node_core.specs.Asking.{IsUnmoved, IsFresh};
ghost use Rattle.node_core.specs.Due.{deadline_key as deadline_key_of};
ghost use Rattle.node_core.specs.declared.due.DueKind.TheVariants.{Deadline};
ghost use Rattle.node_core.specs.Deadlines.{EndsWrite, EndsRead, EndsRequest, EndsDue, IsNext, IsNextDue};
ghost use Rattle.node_core.specs.Hinting.{at};
ghost use Rattle.node_core.specs.Moving.{TakesDue, IsHolding};
ghost use Rattle.node_core.specs.Working.{IsSound};

use crate::base::Base;
use crate::due::{DueKey, DueKind, find_due, has_due};
use crate::work::{Given, Work};
use cs_base::ReqId;
use hint_store::HintStore;
use read_coord::ReadCoord;
use std::alloc::{AllocError, Global};
use write_coord::WriteCoord;

impl Work {
    /// An open write's deadline comes: each replica that is not served gets a hint, and the write ends.
    fn end_write(
        &mut self,
        base: &Base,
        hints: &mut HintStore,
        alloc: Global,
        request: &ReqId,
        write: &WriteCoord,
    ) -> Result<Given, AllocError>
        requires due { deadline_of request.now ≤ self.old.time }
        requires waits { write.now.answered ≡ false → 0 < self.old.unanswered }
        ensures ok { IfOk result (λ given. EndsWrite base.now request.now write.now (at self.old hints.old.now) given (at self.new hints.new.now)) }
        ensures before { hints.new.before ≡ hints.old.before }
    {
        let unheard = write.unheard(&base.setting, alloc)?;
        let born = request.time;
        self.leave_hints(hints, alloc, unheard.as_slice(), born, write.mutation())?;
        self.ended_writes.push(*request)?;
        if !write.is_answered() {
            self.unanswered -= 1;
        }
        let turn = write.at_time(alloc, &base.setting, *request, self.time)?;
        Ok(Given::of(turn))
    }

    /// A read is no longer open.
    fn close_read(&mut self, request: ReqId) -> Result<(), AllocError>
        requires open { 0 < self.old.open_reads }
        ensures { OnOk result (self.new ≡ record self.old { ended_reads = self.old.ended_reads ++ request ∷ []; open_reads = self.old.open_reads - 1 }) }
    {
        self.ended_reads.push(request)?;
        self.open_reads -= 1;
        Ok(())
    }

    /// An open read's deadline comes, and the read ends.
    fn end_read(
        &mut self,
        base: &Base,
        alloc: Global,
        request: &ReqId,
        read: &ReadCoord,
    ) -> Result<Given, AllocError>
        requires due { deadline_of request.now ≤ self.old.time }
        requires open { 0 < self.old.open_reads }
        ensures { IfOk result (λ given. EndsRead base.now request.now read.now self.old given self.new) }
    {
        self.close_read(*request)?;
        let turn = read.at_time(alloc, &base.setting, *request, self.time)?;
        Ok(Given::of(turn))
    }

    /// The deadline of an open request comes.
    fn end_request(
        &mut self,
        base: &Base,
        hints: &mut HintStore,
        alloc: Global,
        request: ReqId,
    ) -> Result<Given, AllocError>
        requires holding { IsHolding base.now }
        requires sound { IsSound base.now self.old }
        requires due { deadline_of request ≤ self.old.time }
        requires next { IsNext request self.old }
        ensures ok { IfOk result (λ given. EndsRequest base.now request (open_at base.now.writes.entries request) (open_at base.now.reads.entries request) (at self.old hints.old.now) given (at self.new hints.new.now)) }
        ensures before { hints.new.before ≡ hints.old.before }
    {
        if let Some(write) = base.writes.get(&request) {
            return self.end_write(base, hints, alloc, &request, write);
        }
        match base.reads.get(&request) {
            Some(read) => self.end_read(base, alloc, &request, read),
            None => Ok(Given::nothing(alloc)),
        }
    }

    /// What is due comes.
    fn end_due(
        &mut self,
        base: &Base,
        hints: &mut HintStore,
        alloc: Global,
        due: DueKey,
    ) -> Result<(), AllocError>
        requires holding { IsHolding base.now }
        requires sound { IsSound base.now self.old }
        requires unmoved { IsUnmoved self.old }
        requires due { due.moment ≤ self.old.time }
        requires key { due.kind ≡ Deadline → due ≡ deadline_key_of due.request }
        requires next { IsNextDue due self.old }
        ensures ok { OnOk result (EndsDue base.now due (at self.old hints.old.now) (at self.new hints.new.now)) }
        ensures before { hints.new.before ≡ hints.old.before }
    {
        match due.kind {
            DueKind::Deadline => {
                let given = self.end_request(base, hints, alloc, due.request)?;
                self.give(base.me, given)
            }
            DueKind::Expiry => self.drop_hint(hints, due.peer, due.number),
        }
    }
}

/// Takes all that is due, in order.
pub(crate) fn take_due(
    base: &Base,
    hints: &mut HintStore,
    alloc: Global,
    work: &mut Work,
) -> Result<(), AllocError>
    requires holding { IsHolding base.now }
    requires fresh { IsFresh base.now work.old }
    requires time { work.old.time < 2 ^ 63 }
    ensures ok { OnOk result (TakesDue base.now (at work.old hints.old.now) (at work.new hints.new.now)) }
    ensures before { hints.new.before ≡ hints.old.before }
{
    if !has_due(base, hints, work.time) {
        return Ok(());
    }
    let due = find_due(base, hints, alloc, work.time)?;
    for key in due {
        work.end_due(base, hints, alloc, key)?;
    }
    Ok(())
}
