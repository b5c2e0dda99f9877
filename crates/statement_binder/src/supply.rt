//! The values of a request for the statements of a text.

ghost use Rattle.std.specs.Prelude.{◌≡◌, IfOk, OnOk};
ghost use Rattle.statement_values.specs.Sources.{left_in};
ghost use Rattle.statement_binder.specs.Filled.{filled_of, left_after, with_fault};
ghost use Rattle.statement_binder.specs.Supplies.{values_in, left_for, excess as excess_of, next_filled, behind_next, front_filled, behind_front, rest_excess};

use crate::filled::{Filled, fill_slots};
use prepared_statement::{Slot, lower};
use statement_plan::Fault;
use statement_values::{Params, Supplier};
use std::alloc::{AllocError, Global};

/// The values of a request.
#[derive(Clone, Copy)]
pub enum Values<'a> {
    /// For all markers of the text. The statements of a batch take them one after another.
    Whole(&'a Params),
    /// For each statement of a batch a list of its own. A statement alone is as the only one of a batch. A batch's own
    /// USING TIMESTAMP has none.
    Each(&'a [Params]),
}

/// The values for the statements that are still to come.
#[derive(Drop)]
pub(crate) enum Supply<'a> {
    Whole(Supplier<'a>),
    Each(&'a [Params]),
}

/// More values than markers.
fn excess(supplier: &Supplier) -> Option<Fault>
    ensures { result ≡ excess_of (left_in supplier.now) }
{
    if supplier.has_left() {
        Some(Fault::ValueCount)
    } else {
        None
    }
}

/// A statement with a list of its own.
fn fill_alone(alloc: Global, slots: &[Slot], params: &Params) -> Result<Filled, AllocError>
    ensures { IfOk result (λ filled. filled ≡ with_fault (filled_of params.now slots.now) (excess_of (left_after params.now slots.now))) }
{
    let mut supplier = Supplier::new(params);
    let mut filled = fill_slots(alloc, slots, &mut supplier)?;
    filled.fault = lower(filled.fault, excess(&supplier));
    Ok(filled)
}

impl<'a> Supply<'a> {
    pub(crate) fn new(values: Values<'a>) -> Supply<'a>
        ensures { left_for result ≡ values_in values.entry }
    {
        match values {
            Values::Whole(params) => Supply::Whole(Supplier::new(params)),
            Values::Each(lists) => Supply::Each(lists),
        }
    }

    /// The slots of the next statement with their values.
    pub(crate) fn fill(&mut self, alloc: Global, slots: &[Slot]) -> Result<Filled, AllocError>
        ensures values { IfOk result (λ filled. filled ≡ next_filled (left_for self.old) slots.now) }
        ensures left { OnOk result (left_for self.new ≡ behind_next (left_for self.old) slots.now) }
    {
        match self {
            Supply::Whole(supplier) => fill_slots(alloc, slots, supplier),
            Supply::Each(lists) => match *lists {
                [] => fill_slots(alloc, slots, &mut Supplier::empty()),
                [params, later @ ..] => {
                    *lists = later;
                    fill_alone(alloc, slots, params)
                }
            },
        }
    }

    /// The slots before the statements of a batch with their values.
    pub(crate) fn fill_front(&mut self, alloc: Global, slots: &[Slot]) -> Result<Filled, AllocError>
        ensures values { IfOk result (λ filled. filled ≡ front_filled (left_for self.old) slots.now) }
        ensures left { OnOk result (left_for self.new ≡ behind_front (left_for self.old) slots.now) }
    {
        match self {
            Supply::Whole(supplier) => fill_slots(alloc, slots, supplier),
            Supply::Each(_) => fill_slots(alloc, slots, &mut Supplier::empty()),
        }
    }

    /// Values that no marker took, or a list that no statement took.
    pub(crate) fn excess(&self) -> Option<Fault>
        ensures { result ≡ rest_excess (left_for self.now) }
    {
        match self {
            Supply::Whole(supplier) => excess(supplier),
            Supply::Each([]) => None,
            Supply::Each(_) => Some(Fault::ValueCount),
        }
    }
}
