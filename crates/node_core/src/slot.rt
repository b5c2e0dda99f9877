//! What a step makes of the open request that it is about.

ghost use Rattle.std.specs.Prelude.{◌≡◌, ◌↔◌, IsTrue, false};
ghost use Rattle.node_core.specs.Slots.{IsFound, TakesNew, TakesOld, slot_after};
ghost use Rattle.node_core.specs.declared.slot.Slot.TheVariants.{Untouched, Gone};

use std::mem;

/// What a step made of an open request. What the node had before stands until the step is kept.
#[derive(Drop)]
pub(crate) enum Slot<W: Drop> {
    /// Nothing.
    Untouched,
    /// It began.
    New(W),
    /// It moved.
    Old(W),
    /// It is done with.
    Gone,
}

/// An open request that is about to move, and whether it began in the step.
#[derive(Drop)]
pub(crate) struct Found<W: Drop> {
    pub now: W,
    pub is_new: bool,
}

impl<W: Drop> Slot<W> {
    /// Takes the request out, if the step has touched it and it is open still. Else nothing is moved.
    pub(crate) fn take(&mut self) -> Option<Found<W>>
        ensures { IsFound self.old result self.new }
    {
        if matches!(self, Slot::Untouched | Slot::Gone) {
            return None;
        }
        match mem::replace(self, Slot::Untouched) {
            Slot::New(now) => Some(Found { now, is_new: true }),
            Slot::Old(now) => Some(Found { now, is_new: false }),
            Slot::Untouched | Slot::Gone => None,
        }
    }
}

impl<W: Drop> Slot<W> {
    /// Takes the request out, if it began in the step. Else nothing is moved.
    pub(crate) fn take_new(&mut self) -> Option<W>
        ensures { TakesNew self.old result self.new }
    {
        if !matches!(self, Slot::New(_)) {
            return None;
        }
        match mem::replace(self, Slot::Untouched) {
            Slot::New(now) => Some(now),
            Slot::Untouched | Slot::Old(_) | Slot::Gone => None,
        }
    }

    /// Takes the request out, if it was open before the step and moved. Else nothing is moved.
    pub(crate) fn take_old(&mut self) -> Option<W>
        ensures { TakesOld self.old result self.new }
    {
        if !matches!(self, Slot::Old(_)) {
            return None;
        }
        match mem::replace(self, Slot::Untouched) {
            Slot::Old(now) => Some(now),
            Slot::Untouched | Slot::New(_) | Slot::Gone => None,
        }
    }
}

impl<W: Drop> Slot<W> {
    /// The request behind a move, by whether it is done with.
    pub(crate) fn behind(is_new: bool, ended: bool, now: W) -> Slot<W>
        ensures { result ≡ slot_after is_new ended now }
    {
        match (is_new, ended) {
            (true, true) => Slot::Untouched,
            (true, false) => Slot::New(now),
            (false, true) => Slot::Gone,
            (false, false) => Slot::Old(now),
        }
    }

    pub(crate) fn is_untouched(&self) -> bool
        ensures { IsTrue result ↔ (self.now ≡ Untouched) }
    {
        matches!(self, Slot::Untouched)
    }

    pub(crate) fn is_gone(&self) -> bool
        ensures { IsTrue result ↔ (self.now ≡ Gone) }
    {
        matches!(self, Slot::Gone)
    }
}

impl<W: Drop> Found<W> {
    /// The request as it was before the step.
    pub(crate) fn before(now: W) -> Found<W>
        ensures { result ≡ record { now = now; is_new = false } }
    {
        Found { now, is_new: false }
    }
}
