//! The slots of a statement with their values.

ghost use Rattle.std.specs.Prelude.{◌≡◌, ◌≢◌, ◌≤◌, if◌then◌else◌, None, Some, IfOk, OnOk, insert, length, option_copied};
ghost use Rattle.std.specs.Result.{result_ok};
ghost use Rattle.cql_values.specs.Protocol.{decoded as decoded_of};
ghost use Rattle.cql_values.specs.declared.value.CqlType.TheVariants as types;
ghost use Rattle.statement_values.specs.Sources.{left_in};
ghost use Rattle.prepared_statement.specs.Faults.{fits, slot_fault as slot_fault_of, value_at as value_at_of};
ghost use Rattle.statement_binder.specs.Filled.{compare_of as compare_of_operator, value_in as value_in_of, stored as stored_of, written as written_of, timestamp_in as timestamp_in_of, limit_in as limit_in_of, with_key, place_for as place_for_of, with_cell, with_test, by_role, is_mismatch as is_mismatch_of, tells_mismatch as tells_mismatch_of, IfGiven, IsWritten, with_slot, given_to as given_to_slot, behind, left_after, unfilled, filled_from, filled_of};

use condition_test::order_of;
use cql_statement::{RelationOperator, TestOperator};
use cql_values::{CqlType, CqlValue, ValueError, decode, encoding_undoes_decoding};
use cs_base::{Bytes, Items};
use key_restrictions::{Restriction, Restrictions};
use prepared_statement::{
    Role, Slot, bigint_in, column_number, int_in, is_marker, lower, slot_fault, value_at,
};
use statement_plan::{CellTest, CellTests, Compare, Fault};
use statement_values::{Param, Supplier};
use std::alloc::{AllocError, Global};
use std::mem;

/// What a cell gets. No value stands for null.
#[derive(Debug, Drop)]
pub(crate) struct CellValue {
    pub(crate) column: u8,
    pub(crate) value: Option<Bytes>,
}

/// What of the values of a statement is used, by the roles of its slots, and the lowest refusal, with which it means
/// nothing.
#[derive(Drop)]
pub(crate) struct Filled {
    pub(crate) fault: Option<Fault>,
    pub(crate) keys: Restrictions<CqlValue>,
    pub(crate) cells: Items<CellValue>,
    pub(crate) tests: CellTests,
    pub(crate) timestamp: Option<i64>,
    pub(crate) limit: Option<i32>,
}

fn decoded(alloc: Global, ty: CqlType, bytes: &[u8]) -> Result<Option<CqlValue>, AllocError>
    ensures { IfOk result (λ value. value ≡ result_ok (decoded_of ty bytes.now)) }
{
    match decode(alloc, ty, bytes) {
        Ok(value) => Ok(Some(value)),
        Err(ValueError::NoMemory) => Err(AllocError),
        Err(_) => Ok(None),
    }
}

fn value_in(
    alloc: Global,
    ty: CqlType,
    param: Option<&Param>,
) -> Result<Option<CqlValue>, AllocError>
    ensures { IfOk result (λ value. value ≡ value_in_of ty (option_copied param.entry)) }
{
    match param {
        Some(Param::Given(bytes)) => decoded(alloc, ty, bytes.as_slice()),
        Some(Param::Null) | Some(Param::NotSet) | None => Ok(None),
    }
}

/// A boolean as it is stored: each byte but 0 is true.
fn stored_boolean(alloc: Global, bytes: &[u8]) -> Result<Option<Bytes>, AllocError>
    ensures { IfOk result (λ word. word ≡ stored_of types.Boolean bytes.now) }
{
    match bytes {
        [byte] => Ok(Some(Bytes::from_slice(alloc, &[u8::from(*byte != 0)])?)),
        _ => Ok(None),
    }
}

/// Values of other types are stored as they are given.
fn bytes_stay(ty: CqlType, bytes: &[u8])
    requires { ty ≢ types.Boolean }
    ensures { stored_of ty bytes.now ≡ (if fits ty bytes.now then Some bytes.now else None) }
{
    encoding_undoes_decoding();
}

/// The bytes of another value as they are stored, in memory that is shared with them.
fn stored_as_given(
    alloc: Global,
    ty: CqlType,
    typed: bool,
    bytes: &Bytes,
) -> Result<Option<Bytes>, AllocError>
    requires typed { typed ≡ fits ty bytes.now }
    requires other { ty ≢ types.Boolean }
    ensures { IfOk result (λ word. word ≡ stored_of ty bytes.now) }
{
    bytes_stay(ty, bytes.as_slice());
    if typed {
        Ok(Some(bytes.copy(alloc)?))
    } else {
        Ok(None)
    }
}

/// The bytes of a value as they are stored, where they are of the type.
fn stored(
    alloc: Global,
    ty: CqlType,
    typed: bool,
    bytes: &Bytes,
) -> Result<Option<Bytes>, AllocError>
    requires { typed ≡ fits ty bytes.now }
    ensures { IfOk result (λ word. word ≡ stored_of ty bytes.now) }
{
    match ty {
        CqlType::Boolean => stored_boolean(alloc, bytes.as_slice()),
        _ => stored_as_given(alloc, ty, typed, bytes),
    }
}

/// A value or null, where one is set.
fn written(
    alloc: Global,
    ty: CqlType,
    typed: bool,
    param: Option<&Param>,
) -> Result<Option<Option<Bytes>>, AllocError>
    requires { IfGiven (λ bytes. typed ≡ fits ty bytes) (option_copied param) }
    ensures { IfOk result (λ value. value ≡ written_of ty (option_copied param.entry)) }
{
    match param {
        None | Some(Param::NotSet) => Ok(None),
        Some(Param::Null) => Ok(Some(None)),
        Some(Param::Given(bytes)) => match stored(alloc, ty, typed, bytes)? {
            Some(word) => Ok(Some(Some(word))),
            None => Ok(None),
        },
    }
}

fn timestamp_in(param: Option<&Param>) -> Option<i64>
    ensures { result ≡ timestamp_in_of (option_copied param.entry) }
{
    match param {
        Some(Param::Given(bytes)) => bigint_in(bytes.as_slice()),
        Some(Param::Null) | Some(Param::NotSet) | None => None,
    }
}

fn limit_in(param: Option<&Param>) -> Option<i32>
    ensures { result ≡ limit_in_of (option_copied param.entry) }
{
    match param {
        Some(Param::Given(bytes)) => int_in(bytes.as_slice()),
        Some(Param::Null) | Some(Param::NotSet) | None => None,
    }
}

fn is_mismatch(fault: Fault) -> bool
    ensures { result ≡ is_mismatch_of fault }
{
    match fault {
        Fault::TypeMismatch => true,
        _ => false,
    }
}

fn tells_mismatch(fault: Option<Fault>) -> bool
    ensures { result ≡ tells_mismatch_of fault }
{
    match fault {
        Some(fault) => is_mismatch(fault),
        None => false,
    }
}

/// What is refused of a cell or a test tells whether its bytes are of the type.
fn is_typed(slot: &Slot, given: Option<&Param>, fault: Option<Fault>) -> bool
    requires { fault ≡ slot_fault_of slot.now (option_copied given) }
    ensures { IsWritten slot.now.role → IfGiven (λ bytes. result ≡ fits slot.now.ty bytes) (value_at_of slot.now.stands (option_copied given.entry)) }
{
    !tells_mismatch(fault)
}

/// How many cells stand before the next one of this column.
fn place_for(cells: &[CellValue], column: u8) -> usize
    ensures place { result ≡ place_for_of cells.now column }
    ensures within { result ≤ length cells.now }
{
    for (place, cell) in cells.iter().enumerate() {
        if column < cell.column {
            return place;
        }
    }
    cells.len()
}

/// Most cells come in the order of their columns, and go to the end.
fn insert_cell(
    alloc: Global,
    cells: &mut Items<CellValue>,
    place: usize,
    cell: CellValue,
) -> Result<(), AllocError>
    requires { place ≤ length cells.old }
    ensures { OnOk result (cells.new ≡ insert cells.old place cell) }
{
    if place == cells.as_slice().len() {
        cells.push(cell)?;
    } else {
        let mut others = mem::replace(cells, Items::new(alloc)).into_vec();
        others.insert(place, cell)?;
        *cells = Items::from_vec(others);
    }
    Ok(())
}

fn compare_of(operator: TestOperator) -> Compare
    ensures { result ≡ compare_of_operator operator }
{
    match operator {
        TestOperator::Equal => Compare::Equal,
        TestOperator::NotEqual => Compare::NotEqual,
        TestOperator::Less => Compare::Less,
        TestOperator::LessOrEqual => Compare::LessOrEqual,
        TestOperator::Greater => Compare::Greater,
        TestOperator::GreaterOrEqual => Compare::GreaterOrEqual,
    }
}

impl Filled {
    fn new(alloc: Global) -> Filled
        ensures { result ≡ unfilled }
    {
        Filled {
            fault: None,
            keys: Items::new(alloc),
            cells: Items::new(alloc),
            tests: Items::new(alloc),
            timestamp: None,
            limit: None,
        }
    }

    fn add_key(
        &mut self,
        alloc: Global,
        column: usize,
        operator: RelationOperator,
        ty: CqlType,
        param: Option<&Param>,
    ) -> Result<(), AllocError>
        ensures { OnOk result (self.new ≡ with_key self.old column operator (value_in_of ty (option_copied param.entry))) }
    {
        let value = value_in(alloc, ty, param)?;
        if let Some(value) = value {
            self.keys.push(Restriction {
                column,
                operator,
                value,
            })?;
        }
        Ok(())
    }

    /// Adds a cell behind those of its column and of the columns before it.
    fn add_cell(
        &mut self,
        alloc: Global,
        column: usize,
        ty: CqlType,
        typed: bool,
        param: Option<&Param>,
    ) -> Result<(), AllocError>
        requires { IfGiven (λ bytes. typed ≡ fits ty bytes) (option_copied param) }
        ensures { OnOk result (self.new ≡ with_cell self.old column (written_of ty (option_copied param.entry))) }
    {
        let value = written(alloc, ty, typed, param)?;
        if let Some(value) = value {
            let column = column_number(column);
            let place = place_for(self.cells.as_slice(), column);
            insert_cell(alloc, &mut self.cells, place, CellValue { column, value })?;
        }
        Ok(())
    }

    fn add_test(
        &mut self,
        alloc: Global,
        column: usize,
        operator: TestOperator,
        ty: CqlType,
        typed: bool,
        param: Option<&Param>,
    ) -> Result<(), AllocError>
        requires { IfGiven (λ bytes. typed ≡ fits ty bytes) (option_copied param) }
        ensures { OnOk result (self.new ≡ with_test self.old column operator ty (written_of ty (option_copied param.entry))) }
    {
        let value = written(alloc, ty, typed, param)?;
        if let Some(value) = value {
            self.tests.push(CellTest {
                column: column_number(column),
                compare: compare_of(operator),
                value,
                order: order_of(ty),
            })?;
        }
        Ok(())
    }

    /// Adds a value by the role of its slot. `typed` says of a cell's or a test's whether its bytes are of the type.
    fn add_value(
        &mut self,
        alloc: Global,
        role: Role,
        ty: CqlType,
        typed: bool,
        param: Option<&Param>,
    ) -> Result<(), AllocError>
        requires { IsWritten role → IfGiven (λ bytes. typed ≡ fits ty bytes) (option_copied param) }
        ensures { OnOk result (self.new ≡ by_role self.old role ty (option_copied param.entry)) }
    {
        match role {
            Role::Key(column, operator) => { self.add_key(alloc, column, operator, ty, param) }
            Role::Cell(column) => self.add_cell(alloc, column, ty, typed, param),
            Role::Test(column, operator) => {
                self.add_test(alloc, column, operator, ty, typed, param)
            }
            Role::Timestamp => {
                self.timestamp = timestamp_in(param);
                Ok(())
            }
            Role::Limit => {
                self.limit = limit_in(param);
                Ok(())
            }
            Role::Filter(_) | Role::Unfilled(_) | Role::Unplaced => Ok(()),
        }
    }

    /// Adds a slot, with what a request gives for its marker.
    fn add(&mut self, alloc: Global, slot: &Slot, given: Option<&Param>) -> Result<(), AllocError>
        ensures { OnOk result (self.new ≡ with_slot self.old slot.now (option_copied given.entry)) }
    {
        let fault = slot_fault(slot, given);
        self.fault = lower(self.fault, fault);
        let typed = is_typed(slot, given, fault);
        self.add_value(
            alloc,
            slot.role,
            slot.ty,
            typed,
            value_at(&slot.stands, given),
        )
    }
}

/// What the request gives for the marker of a slot, if it has one.
fn given_to<'a>(supplier: &mut Supplier<'a>, slot: &Slot) -> Option<&'a Param>
    ensures value { option_copied result ≡ given_to_slot (left_in supplier.old) slot.now }
    ensures left { left_in supplier.new ≡ behind (left_in supplier.old) slot.now }
{
    if is_marker(&slot.stands) {
        supplier.take(slot.name.as_str())
    } else {
        None
    }
}

/// Adds slots with the values that are left for them.
fn add_slots(
    filled: &mut Filled,
    alloc: Global,
    slots: &[Slot],
    supplier: &mut Supplier,
) -> Result<(), AllocError>
    ensures values { OnOk result (filled.new ≡ filled_from filled.old (left_in supplier.old) slots.now) }
    ensures left { OnOk result (left_in supplier.new ≡ left_after (left_in supplier.old) slots.now) }
{
    for slot in slots {
        let given = given_to(supplier, slot);
        filled.add(alloc, slot, given)?;
    }
    Ok(())
}

/// The slots of a statement with the values that are left for them.
pub(crate) fn fill_slots(
    alloc: Global,
    slots: &[Slot],
    supplier: &mut Supplier,
) -> Result<Filled, AllocError>
    ensures values { IfOk result (λ filled. filled ≡ filled_of (left_in supplier.old) slots.now) }
    ensures left { OnOk result (left_in supplier.new ≡ left_after (left_in supplier.old) slots.now) }
{
    let mut filled = Filled::new(alloc);
    add_slots(&mut filled, alloc, slots, supplier)?;
    Ok(filled)
}
