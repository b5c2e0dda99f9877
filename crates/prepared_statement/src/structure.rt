//! What a statement asks for whatever its values are, and the refusals that need none.

ghost use Rattle.std.specs.Prelude.{◌≡◌, ◌==◌, ◌++◌, IfOk, OnOk};
ghost use Rattle.std.specs.List.{list_any};
ghost use Rattle.prepared_statement.specs.Changing.{modification_in};
ghost use Rattle.prepared_statement.specs.Structure.{is_end as is_end_of, key_by, keys_of as keys_of_slots, is_unknown as is_unknown_of, names_unknown as names_unknown_of, sets_key_by as sets_key_by_of, sets_key as sets_key_of, filters as filters_of, filters_by as filters_by_of, tests_key_by as tests_key_by_of, tests_key as tests_key_of, is_stamp as is_stamp_of, has_stamp as has_stamp_of, is_update as is_update_of, deletes_rows as deletes_rows_of, deleted as deleted_of, action_of as action_of_modification, guard_by as guard_by_of, insert_guard as insert_guard_of, guard_of as guard_of_modification, is_conditional as is_conditional_of, with_number as with_number_of, with_tested as with_tested_of, tested_numbers as tested_numbers_of, shown_by as shown_by_of, misses_key as misses_key_of, fixes_twice as fixes_twice_of, is_timed_condition as is_timed_condition_of, deletes_key as deletes_key_of, feature_of as feature_of_modification, unsupported as unsupported_of, change_fault as change_fault_of, orders_unknown as orders_unknown_of, selects_unknown as selects_unknown_of, select_feature as select_feature_of, select_fault as select_fault_of};

use crate::change::{Action, Guard};
use crate::changing::Changing;
use crate::columns::all_numbers;
use crate::names::{column_number, place_of};
use crate::orders::has_bad_order;
use crate::slot::{Role, Slot};
use cql_statement::{ColumnOrder, Condition};
use cs_base::Items;
use key_restrictions::{
    Restriction, Restrictions, is_key_at, is_twice, is_whole, misses_slice, misses_whole,
    names_rows,
};
use schema_book::{ColumnDef, ColumnDefs};
use statement_plan::{ColumnNumbers, Fault, Feature};
use std::alloc::{AllocError, Global};

/// Whether there is no column at the place.
fn is_end(columns: &[ColumnDef], place: usize) -> bool
    ensures { result ≡ is_end_of columns.now place }
{
    columns.len() <= place
}

/// Adds a relation on the key.
fn add_key(keys: &mut Restrictions<()>, role: Role) -> Result<(), AllocError>
    ensures { OnOk result (keys.new ≡ keys.old ++ key_by role) }
{
    if let Role::Key(column, operator) = role {
        let value = ();
        keys.push(Restriction {
            column,
            operator,
            value,
        })?;
    }
    Ok(())
}

/// The relations on the key, without their values.
pub(crate) fn keys_of(alloc: Global, slots: &[Slot]) -> Result<Restrictions<()>, AllocError>
    ensures { IfOk result (λ keys. keys ≡ keys_of_slots slots.now) }
{
    let mut keys = Items::new(alloc);
    for slot in slots {
        add_key(&mut keys, slot.role)?;
    }
    Ok(keys)
}

fn is_unknown(columns: &[ColumnDef], role: Role) -> bool
    ensures { result ≡ is_unknown_of columns.now role }
{
    match role {
        Role::Key(place, _)
        | Role::Filter(place)
        | Role::Cell(place)
        | Role::Test(place, _)
        | Role::Unfilled(place) => is_end(columns, place),
        Role::Timestamp | Role::Limit | Role::Unplaced => false,
    }
}

fn names_unknown(columns: &[ColumnDef], slots: &[Slot]) -> bool
    ensures { result ≡ names_unknown_of columns.now slots.now }
{
    slots.iter().any(|slot| is_unknown(columns, slot.role))
}

fn sets_key_by(columns: &[ColumnDef], role: Role) -> bool
    ensures { result ≡ sets_key_by_of columns.now role }
{
    match role {
        Role::Cell(place) => is_key_at(columns, place),
        _ => false,
    }
}

fn sets_key(columns: &[ColumnDef], slots: &[Slot]) -> bool
    ensures { result ≡ sets_key_of columns.now slots.now }
{
    slots.iter().any(|slot| sets_key_by(columns, slot.role))
}

fn filters_by(role: Role) -> bool
    ensures { result ≡ filters_by_of role }
{
    match role {
        Role::Filter(_) => true,
        _ => false,
    }
}

fn filters(slots: &[Slot]) -> bool
    ensures { result ≡ filters_of slots.now }
{
    slots.iter().any(|slot| filters_by(slot.role))
}

fn tests_key_by(columns: &[ColumnDef], role: Role) -> bool
    ensures { result ≡ tests_key_by_of columns.now role }
{
    match role {
        Role::Test(place, _) => is_key_at(columns, place),
        _ => false,
    }
}

fn tests_key(columns: &[ColumnDef], slots: &[Slot]) -> bool
    ensures { result ≡ tests_key_of columns.now slots.now }
{
    slots.iter().any(|slot| tests_key_by(columns, slot.role))
}

fn is_stamp(role: Role) -> bool
    ensures { result ≡ is_stamp_of role }
{
    match role {
        Role::Timestamp => true,
        _ => false,
    }
}

fn has_stamp(slots: &[Slot]) -> bool
    ensures { result ≡ has_stamp_of slots.now }
{
    slots.iter().any(|slot| is_stamp(slot.role))
}

fn is_update(changing: Changing) -> bool
    ensures { result ≡ is_update_of (modification_in changing.entry) }
{
    match changing {
        Changing::Update(_) => true,
        Changing::Insert(_) | Changing::Delete(_) => false,
    }
}

/// A DELETE that names no columns.
fn deletes_rows(changing: Changing) -> bool
    ensures { result ≡ deletes_rows_of (modification_in changing.entry) }
{
    match changing {
        Changing::Delete(delete) => delete.columns.as_slice().is_empty(),
        Changing::Insert(_) | Changing::Update(_) => false,
    }
}

/// The row that the whole key names, or rows of a partition, or all of it.
fn deleted(columns: &[ColumnDef], keys: &[Restriction<()>]) -> Action
    ensures { result ≡ deleted_of columns.now keys.now }
{
    if is_whole(columns, keys) {
        Action::DeleteRow
    } else if names_rows(columns, keys) {
        Action::DeleteRows
    } else {
        Action::DeletePartition
    }
}

pub(crate) fn action_of(
    columns: &[ColumnDef],
    keys: &[Restriction<()>],
    changing: Changing,
) -> Action
    ensures { result ≡ action_of_modification columns.now keys.now (modification_in changing.entry) }
{
    match changing {
        Changing::Insert(_) => Action::Insert,
        Changing::Update(_) => Action::Set,
        Changing::Delete(delete) => {
            if delete.columns.as_slice().is_empty() {
                deleted(columns, keys)
            } else {
                Action::Set
            }
        }
    }
}

fn guard_by(condition: &Option<Condition>) -> Guard
    ensures { result ≡ guard_by_of condition.now }
{
    match condition {
        None => Guard::Always,
        Some(Condition::Exists) => Guard::Exists,
        Some(Condition::Tests(_)) => Guard::Tests,
    }
}

fn insert_guard(if_not_exists: bool) -> Guard
    ensures { result ≡ insert_guard_of if_not_exists }
{
    if if_not_exists {
        Guard::NotExists
    } else {
        Guard::Always
    }
}

pub(crate) fn guard_of(changing: Changing) -> Guard
    ensures { result ≡ guard_of_modification (modification_in changing.entry) }
{
    match changing {
        Changing::Insert(insert) => insert_guard(insert.if_not_exists),
        Changing::Update(update) => guard_by(&update.condition),
        Changing::Delete(delete) => guard_by(&delete.condition),
    }
}

/// Whether there is a condition.
pub fn is_conditional(guard: Guard) -> bool
    ensures { result ≡ is_conditional_of guard }
{
    match guard {
        Guard::Always => false,
        Guard::NotExists | Guard::Exists | Guard::Tests => true,
    }
}

fn has_number(numbers: &[u8], number: u8) -> bool
    ensures { result ≡ list_any (λ n. n == number) numbers.now }
{
    numbers.iter().any(|other| *other == number)
}

/// Adds a number, unless it is there.
fn add_number(numbers: &mut ColumnNumbers, number: u8) -> Result<(), AllocError>
    ensures { OnOk result (numbers.new ≡ with_number_of numbers.old number) }
{
    if !has_number(numbers.as_slice(), number) {
        numbers.push(number)?;
    }
    Ok(())
}

/// Adds the column of a test.
fn add_tested(numbers: &mut ColumnNumbers, role: Role) -> Result<(), AllocError>
    ensures { OnOk result (numbers.new ≡ with_tested_of numbers.old role) }
{
    match role {
        Role::Test(place, _) => add_number(numbers, column_number(place)),
        _ => Ok(()),
    }
}

/// The columns that are tested, each once, as they first stand.
fn tested_numbers(alloc: Global, slots: &[Slot]) -> Result<ColumnNumbers, AllocError>
    ensures { IfOk result (λ numbers. numbers ≡ tested_numbers_of slots.now) }
{
    let mut numbers = Items::new(alloc);
    for slot in slots {
        add_tested(&mut numbers, slot.role)?;
    }
    Ok(numbers)
}

/// The columns that are shown where a condition fails.
pub(crate) fn shown_by(
    alloc: Global,
    columns: &[ColumnDef],
    slots: &[Slot],
    guard: Guard,
) -> Result<ColumnNumbers, AllocError>
    ensures { IfOk result (λ numbers. numbers ≡ shown_by_of columns.now slots.now guard) }
{
    match guard {
        Guard::Always => Ok(Items::new(alloc)),
        Guard::NotExists | Guard::Exists => all_numbers(alloc, columns),
        Guard::Tests => tested_numbers(alloc, slots),
    }
}

fn misses_key(columns: &[ColumnDef], keys: &[Restriction<()>], changing: Changing) -> bool
    ensures { result ≡ misses_key_of columns.now keys.now (modification_in changing.entry) }
{
    if deletes_rows(changing) && !is_conditional(guard_of(changing)) {
        misses_slice(columns, keys)
    } else {
        misses_whole(columns, keys)
    }
}

fn fixes_twice(
    columns: &[ColumnDef],
    keys: &[Restriction<()>],
    changing: Changing,
    slots: &[Slot],
) -> bool
    ensures { result ≡ fixes_twice_of columns.now keys.now (modification_in changing.entry) slots.now }
{
    is_twice(columns, keys) || (is_update(changing) && sets_key(columns, slots))
}

fn is_timed_condition(changing: Changing, slots: &[Slot]) -> bool
    ensures { result ≡ is_timed_condition_of (modification_in changing.entry) slots.now }
{
    is_conditional(guard_of(changing)) && has_stamp(slots)
}

fn deletes_key(columns: &[ColumnDef], changing: Changing, slots: &[Slot]) -> bool
    ensures { result ≡ deletes_key_of columns.now (modification_in changing.entry) slots.now }
{
    !is_update(changing) && sets_key(columns, slots)
}

fn feature_of(columns: &[ColumnDef], changing: Changing, slots: &[Slot]) -> Option<Feature>
    ensures { result ≡ feature_of_modification columns.now (modification_in changing.entry) slots.now }
{
    if deletes_key(columns, changing, slots) {
        Some(Feature::DeletedKey)
    } else if filters(slots) {
        Some(Feature::Filtering)
    } else if tests_key(columns, slots) {
        Some(Feature::Condition)
    } else {
        None
    }
}

/// The refusal of a feature.
fn unsupported(feature: Option<Feature>) -> Option<Fault>
    ensures { result ≡ unsupported_of feature }
{
    match feature {
        Some(feature) => Some(Fault::NotSupported(feature)),
        None => None,
    }
}

/// The lowest refusal of a statement that changes rows, whatever stands in its slots.
pub(crate) fn change_fault(
    columns: &[ColumnDef],
    changing: Changing,
    slots: &[Slot],
    keys: &[Restriction<()>],
) -> Option<Fault>
    ensures { result ≡ change_fault_of columns.now (modification_in changing.entry) slots.now keys.now }
{
    if names_unknown(columns, slots) {
        Some(Fault::UnknownColumn)
    } else if misses_key(columns, keys, changing) {
        Some(Fault::KeyMissing)
    } else if fixes_twice(columns, keys, changing, slots) {
        Some(Fault::KeyTwice)
    } else if is_timed_condition(changing, slots) {
        Some(Fault::TimestampOnCondition)
    } else {
        unsupported(feature_of(columns, changing, slots))
    }
}

fn orders_unknown(columns: &ColumnDefs, orders: &[ColumnOrder]) -> bool
    ensures { result ≡ orders_unknown_of columns.now orders.now }
{
    orders.iter().any(|order| {
        is_end(columns.as_slice(), place_of(columns, order.column.as_str()))
    })
}

fn shows_unknown(columns: &[ColumnDef], places: &[usize]) -> bool
    ensures { result ≡ list_any (is_end_of columns.now) places.now }
{
    places.iter().any(|place| is_end(columns, *place))
}

fn selects_unknown(
    columns: &ColumnDefs,
    slots: &[Slot],
    places: &[usize],
    orders: &[ColumnOrder],
) -> bool
    ensures { result ≡ selects_unknown_of columns.now slots.now places.now orders.now }
{
    shows_unknown(columns.as_slice(), places)
        || names_unknown(columns.as_slice(), slots)
        || orders_unknown(columns, orders)
}

fn select_feature(columns: &[ColumnDef], slots: &[Slot], orders: &[ColumnOrder]) -> Option<Feature>
    ensures { result ≡ select_feature_of columns.now slots.now orders.now }
{
    if filters(slots) {
        Some(Feature::Filtering)
    } else if has_bad_order(columns, orders) {
        Some(Feature::OrderBy)
    } else {
        None
    }
}

/// The lowest refusal of a SELECT, whatever stands in its slots. `places` are those of the columns that it shows.
pub(crate) fn select_fault(
    columns: &ColumnDefs,
    slots: &[Slot],
    keys: &[Restriction<()>],
    places: &[usize],
    orders: &[ColumnOrder],
) -> Option<Fault>
    ensures { result ≡ select_fault_of columns.now slots.now keys.now places.now orders.now }
{
    let slice = columns.as_slice();
    if selects_unknown(columns, slots, places, orders) {
        Some(Fault::UnknownColumn)
    } else if misses_slice(slice, keys) {
        Some(Fault::KeyMissing)
    } else if is_twice(slice, keys) {
        Some(Fault::KeyTwice)
    } else {
        unsupported(select_feature(slice, slots, orders))
    }
}
