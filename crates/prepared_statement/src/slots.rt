//! The slots of statements.

ghost use Rattle.std.specs.Prelude.{◌≡◌, ◌++◌, IfOk, OnOk, map};
ghost use Rattle.prepared_statement.specs.Changing.{modification_in};
ghost use Rattle.prepared_statement.specs.Slots.{relation_role as relation_role_of, entry_role as entry_role_of, relation_slot as relation_slot_of, assignment_slot as assignment_slot_of, deleted_slot as deleted_slot_of, entry_slot as entry_slot_of, unfilled_slot as unfilled_slot_of, unplaced_slot as unplaced_slot_of, entry_slots, test_slot as test_slot_of, condition_slots, stamp_slot as stamp_slot_of, stamp_slots, limit_slot as limit_slot_of, limit_slots, insert_slots, update_slots, delete_slots, select_slots, slots_of as slots_of_modification};

use crate::changing::Changing;
use crate::constants::slot;
use crate::names::{place_of, type_at};
use crate::slot::{Role, Slot, Slots, Stands};
use cql_statement::{
    Assignment, Condition, Delete, Insert, Relation, RelationOperator, Select, Stamp, Term, Test,
    Update,
};
use cql_values::CqlType;
use cs_base::{Items, Text};
use key_restrictions::is_key_at;
use schema_book::{ColumnDef, ColumnDefs};
use statement_values::Param;
use std::alloc::{AllocError, Global};

fn relation_role(columns: &[ColumnDef], place: usize, operator: RelationOperator) -> Role
    ensures { result ≡ relation_role_of columns.now place operator }
{
    if is_key_at(columns, place) {
        Role::Key(place, operator)
    } else {
        Role::Filter(place)
    }
}

fn relation_slot(
    alloc: Global,
    columns: &ColumnDefs,
    relation: &Relation,
) -> Result<Slot, AllocError>
    ensures { IfOk result (λ slot. slot ≡ relation_slot_of columns.now relation.now) }
{
    let name = relation.column.as_str();
    let place = place_of(columns, name);
    let ty = type_at(columns.as_slice(), place);
    let role = relation_role(columns.as_slice(), place, relation.operator);
    slot(alloc, name, ty, role, &relation.term)
}

fn push_relations(
    slots: &mut Slots,
    alloc: Global,
    columns: &ColumnDefs,
    relations: &[Relation],
) -> Result<(), AllocError>
    ensures { OnOk result (slots.new ≡ slots.old ++ map (relation_slot_of columns.now) relations.now) }
{
    for relation in relations {
        slots.push(relation_slot(alloc, columns, relation)?)?;
    }
    Ok(())
}

fn assignment_slot(
    alloc: Global,
    columns: &ColumnDefs,
    assignment: &Assignment,
) -> Result<Slot, AllocError>
    ensures { IfOk result (λ slot. slot ≡ assignment_slot_of columns.now assignment.now) }
{
    let name = assignment.column.as_str();
    let place = place_of(columns, name);
    let ty = type_at(columns.as_slice(), place);
    slot(alloc, name, ty, Role::Cell(place), &assignment.term)
}

fn push_assignments(
    slots: &mut Slots,
    alloc: Global,
    columns: &ColumnDefs,
    assignments: &[Assignment],
) -> Result<(), AllocError>
    ensures { OnOk result (slots.new ≡ slots.old ++ map (assignment_slot_of columns.now) assignments.now) }
{
    for assignment in assignments {
        slots.push(assignment_slot(alloc, columns, assignment)?)?;
    }
    Ok(())
}

/// A column that a DELETE names gets null.
fn deleted_slot(alloc: Global, columns: &ColumnDefs, name: &Text) -> Result<Slot, AllocError>
    ensures { IfOk result (λ slot. slot ≡ deleted_slot_of columns.now name.now) }
{
    let place = place_of(columns, name.as_str());
    Ok(Slot {
        name: name.copy(alloc)?,
        ty: type_at(columns.as_slice(), place),
        role: Role::Cell(place),
        stands: Stands::Own(Param::Null),
    })
}

fn push_deleted(
    slots: &mut Slots,
    alloc: Global,
    columns: &ColumnDefs,
    names: &[Text],
) -> Result<(), AllocError>
    ensures { OnOk result (slots.new ≡ slots.old ++ map (deleted_slot_of columns.now) names.now) }
{
    for name in names {
        slots.push(deleted_slot(alloc, columns, name)?)?;
    }
    Ok(())
}

/// A value of an INSERT for a column of the key says what that column equals.
fn entry_role(columns: &[ColumnDef], place: usize) -> Role
    ensures { result ≡ entry_role_of columns.now place }
{
    if is_key_at(columns, place) {
        Role::Key(place, RelationOperator::Equal)
    } else {
        Role::Cell(place)
    }
}

fn entry_slot(
    alloc: Global,
    columns: &ColumnDefs,
    name: &Text,
    term: &Term,
) -> Result<Slot, AllocError>
    ensures { IfOk result (λ slot. slot ≡ entry_slot_of columns.now name.now term.now) }
{
    let place = place_of(columns, name.as_str());
    let ty = type_at(columns.as_slice(), place);
    let role = entry_role(columns.as_slice(), place);
    slot(alloc, name.as_str(), ty, role, term)
}

fn unfilled_slot(alloc: Global, columns: &ColumnDefs, name: &Text) -> Result<Slot, AllocError>
    ensures { IfOk result (λ slot. slot ≡ unfilled_slot_of columns.now name.now) }
{
    let place = place_of(columns, name.as_str());
    Ok(Slot {
        name: name.copy(alloc)?,
        ty: type_at(columns.as_slice(), place),
        role: Role::Unfilled(place),
        stands: Stands::Own(Param::Null),
    })
}

fn unplaced_slot(alloc: Global, term: &Term) -> Result<Slot, AllocError>
    ensures { IfOk result (λ slot. slot ≡ unplaced_slot_of term.now) }
{
    slot(alloc, "", CqlType::Blob, Role::Unplaced, term)
}

fn push_unfilled(
    slots: &mut Slots,
    alloc: Global,
    columns: &ColumnDefs,
    names: &[Text],
) -> Result<(), AllocError>
    ensures { OnOk result (slots.new ≡ slots.old ++ map (unfilled_slot_of columns.now) names.now) }
{
    for name in names {
        slots.push(unfilled_slot(alloc, columns, name)?)?;
    }
    Ok(())
}

/// The values of an INSERT with their columns, and behind these what is left of the longer list.
fn push_entries(
    slots: &mut Slots,
    alloc: Global,
    columns: &ColumnDefs,
    names: &[Text],
    terms: &[Term],
) -> Result<(), AllocError>
    ensures { OnOk result (slots.new ≡ slots.old ++ entry_slots columns.now names.now terms.now) }
{
    let mut left = names;
    for term in terms {
        match left {
            [name, rest @ ..] => {
                slots.push(entry_slot(alloc, columns, name, term)?)?;
                left = rest;
            }
            [] => slots.push(unplaced_slot(alloc, term)?)?,
        }
    }
    push_unfilled(slots, alloc, columns, left)
}

fn test_slot(alloc: Global, columns: &ColumnDefs, test: &Test) -> Result<Slot, AllocError>
    ensures { IfOk result (λ slot. slot ≡ test_slot_of columns.now test.now) }
{
    let name = test.column.as_str();
    let place = place_of(columns, name);
    let ty = type_at(columns.as_slice(), place);
    slot(
        alloc,
        name,
        ty,
        Role::Test(place, test.operator),
        &test.term,
    )
}

fn push_tests(
    slots: &mut Slots,
    alloc: Global,
    columns: &ColumnDefs,
    tests: &[Test],
) -> Result<(), AllocError>
    ensures { OnOk result (slots.new ≡ slots.old ++ map (test_slot_of columns.now) tests.now) }
{
    for test in tests {
        slots.push(test_slot(alloc, columns, test)?)?;
    }
    Ok(())
}

fn push_condition(
    slots: &mut Slots,
    alloc: Global,
    columns: &ColumnDefs,
    condition: &Option<Condition>,
) -> Result<(), AllocError>
    ensures { OnOk result (slots.new ≡ slots.old ++ condition_slots columns.now condition.now) }
{
    match condition {
        Some(Condition::Tests(tests)) => push_tests(slots, alloc, columns, tests.as_slice()),
        Some(Condition::Exists) | None => Ok(()),
    }
}

fn stamp_slot(alloc: Global, stamp: &Stamp) -> Result<Slot, AllocError>
    ensures { IfOk result (λ slot. slot ≡ stamp_slot_of stamp.now) }
{
    slot(
        alloc,
        "[timestamp]",
        CqlType::Bigint,
        Role::Timestamp,
        &stamp.timestamp,
    )
}

/// `USING TIMESTAMP`.
pub(crate) fn push_stamp(
    slots: &mut Slots,
    alloc: Global,
    stamp: &Option<Stamp>,
) -> Result<(), AllocError>
    ensures { OnOk result (slots.new ≡ slots.old ++ stamp_slots stamp.now) }
{
    if let Some(stamp) = stamp {
        slots.push(stamp_slot(alloc, stamp)?)?;
    }
    Ok(())
}

fn limit_slot(alloc: Global, term: &Term) -> Result<Slot, AllocError>
    ensures { IfOk result (λ slot. slot ≡ limit_slot_of term.now) }
{
    slot(alloc, "[limit]", CqlType::Int, Role::Limit, term)
}

fn push_limit(slots: &mut Slots, alloc: Global, limit: &Option<Term>) -> Result<(), AllocError>
    ensures { OnOk result (slots.new ≡ slots.old ++ limit_slots limit.now) }
{
    if let Some(term) = limit {
        slots.push(limit_slot(alloc, term)?)?;
    }
    Ok(())
}

fn push_insert(
    slots: &mut Slots,
    alloc: Global,
    columns: &ColumnDefs,
    insert: &Insert,
) -> Result<(), AllocError>
    ensures { OnOk result (slots.new ≡ slots.old ++ insert_slots columns.now insert.now) }
{
    let names = insert.columns.as_slice();
    push_entries(slots, alloc, columns, names, insert.values.as_slice())?;
    push_stamp(slots, alloc, &insert.stamp)
}

fn push_update(
    slots: &mut Slots,
    alloc: Global,
    columns: &ColumnDefs,
    update: &Update,
) -> Result<(), AllocError>
    ensures { OnOk result (slots.new ≡ slots.old ++ update_slots columns.now update.now) }
{
    push_stamp(slots, alloc, &update.stamp)?;
    push_assignments(slots, alloc, columns, update.assignments.as_slice())?;
    push_relations(slots, alloc, columns, update.relations.as_slice())?;
    push_condition(slots, alloc, columns, &update.condition)
}

fn push_delete(
    slots: &mut Slots,
    alloc: Global,
    columns: &ColumnDefs,
    delete: &Delete,
) -> Result<(), AllocError>
    ensures { OnOk result (slots.new ≡ slots.old ++ delete_slots columns.now delete.now) }
{
    push_deleted(slots, alloc, columns, delete.columns.as_slice())?;
    push_stamp(slots, alloc, &delete.stamp)?;
    push_relations(slots, alloc, columns, delete.relations.as_slice())?;
    push_condition(slots, alloc, columns, &delete.condition)
}

fn push_changing(
    slots: &mut Slots,
    alloc: Global,
    columns: &ColumnDefs,
    changing: Changing,
) -> Result<(), AllocError>
    ensures { OnOk result (slots.new ≡ slots.old ++ slots_of_modification columns.now (modification_in changing.entry)) }
{
    match changing {
        Changing::Insert(statement) => push_insert(slots, alloc, columns, statement),
        Changing::Update(statement) => push_update(slots, alloc, columns, statement),
        Changing::Delete(statement) => push_delete(slots, alloc, columns, statement),
    }
}

/// The slots of a statement that changes rows.
pub(crate) fn slots_of(
    alloc: Global,
    columns: &ColumnDefs,
    changing: Changing,
) -> Result<Slots, AllocError>
    ensures { IfOk result (λ slots. slots ≡ slots_of_modification columns.now (modification_in changing.entry)) }
{
    let mut slots = Items::new(alloc);
    push_changing(&mut slots, alloc, columns, changing).and(Ok(slots))
}

/// The slots of a SELECT.
pub(crate) fn slots_of_select(
    alloc: Global,
    columns: &ColumnDefs,
    select: &Select,
) -> Result<Slots, AllocError>
    ensures { IfOk result (λ slots. slots ≡ select_slots columns.now select.now) }
{
    let mut slots = Items::new(alloc);
    push_relations(&mut slots, alloc, columns, select.relations.as_slice())?;
    push_limit(&mut slots, alloc, &select.limit).and(Ok(slots))
}
