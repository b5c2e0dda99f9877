//! What is wrong with the value of a slot.

ghost use Rattle.std.specs.Prelude.{◌≡◌, ◌==◌, option_copied};
ghost use Rattle.cql_values.specs.Value.{uuid_version};
ghost use Rattle.cql_values.specs.declared.value.CqlType.TheVariants as types;
ghost use Rattle.statement_plan.specs.Faults.{lower as lower_of};
ghost use Rattle.prepared_statement.specs.Faults.{value_at as value_at_of, fits as fits_of, int_in as int_in_of, bigint_in as bigint_in_of, is_lone as is_lone_of, is_key_role as is_key_role_of, refuses_null as refuses_null_of, refuses_unset as refuses_unset_of, is_count as is_count_of, suits as suits_of, is_wrong as is_wrong_of, is_mismatched as is_mismatched_of, mismatches as mismatches_of, is_marker as is_marker_of, misses as misses_of, is_absent as is_absent_of, is_null_key as is_null_key_of, is_long_param as is_long_param_of, is_long as is_long_of, slot_fault as slot_fault_of, own_slot_fault as own_slot_fault_of, own_fault as own_fault_of};

use crate::slot::{Role, Slot, Stands};
use cql_values::CqlType;
use statement_plan::Fault;
use statement_values::Param;
use std::str;

/// The most bytes of a value.
const MOST_VALUE_BYTES: usize = 1_048_576;

/// What stands in a slot, or what the request gives for its marker.
pub fn value_at<'a>(stands: &'a Stands, given: Option<&'a Param>) -> Option<&'a Param>
    ensures { option_copied result ≡ value_at_of stands.now (option_copied given.entry) }
{
    match stands {
        Stands::Own(param) => Some(param),
        Stands::Mismatched => None,
        Stands::Marker => given,
    }
}

fn is_ascii(bytes: &[u8]) -> bool
    ensures { result ≡ fits_of types.Ascii bytes.now }
{
    match bytes.iter().position(|byte| 128 <= *byte) {
        Some(_) => false,
        None => true,
    }
}

fn is_text(bytes: &[u8]) -> bool
    ensures { result ≡ fits_of types.Text bytes.now }
{
    match str::from_utf8(bytes) {
        Ok(_) => true,
        Err(_) => false,
    }
}

/// Whether a uuid is of version 1, by time and node.
fn is_by_time(uuid: u128) -> bool
    ensures { result ≡ (uuid_version uuid == 1) }
{
    (uuid >> 76) & 0xf == 1
}

fn is_timeuuid(bytes: &[u8]) -> bool
    ensures { result ≡ fits_of types.Timeuuid bytes.now }
{
    match bytes.as_array::<16>() {
        Some(uuid) => is_by_time(u128::from_be_bytes(*uuid)),
        None => false,
    }
}

/// Whether the bytes are a value of the type in the native protocol.
pub fn fits(ty: CqlType, bytes: &[u8]) -> bool
    ensures { result ≡ fits_of ty bytes.now }
{
    match ty {
        CqlType::Ascii => is_ascii(bytes),
        CqlType::Blob => true,
        CqlType::Text => is_text(bytes),
        CqlType::Bigint | CqlType::Timestamp => bytes.len() == 8,
        CqlType::Int => bytes.len() == 4,
        CqlType::Smallint => bytes.len() == 2,
        CqlType::Boolean | CqlType::Tinyint => bytes.len() == 1,
        CqlType::Uuid => bytes.len() == 16,
        CqlType::Timeuuid => is_timeuuid(bytes),
    }
}

/// The int of these bytes.
pub fn int_in(bytes: &[u8]) -> Option<i32>
    ensures { result ≡ int_in_of bytes.now }
{
    match bytes.as_array::<4>() {
        Some(bytes) => Some(i32::from_be_bytes(*bytes)),
        None => None,
    }
}

/// The bigint of these bytes.
pub fn bigint_in(bytes: &[u8]) -> Option<i64>
    ensures { result ≡ bigint_in_of bytes.now }
{
    match bytes.as_array::<8>() {
        Some(bytes) => Some(i64::from_be_bytes(*bytes)),
        None => None,
    }
}

/// A column of an INSERT without a value, or a value without a column.
fn is_lone(role: Role) -> bool
    ensures { result ≡ is_lone_of role }
{
    match role {
        Role::Unfilled(_) | Role::Unplaced => true,
        _ => false,
    }
}

fn is_key_role(role: Role) -> bool
    ensures { result ≡ is_key_role_of role }
{
    match role {
        Role::Key(_, _) => true,
        _ => false,
    }
}

/// A timestamp and a limit are numbers, where they are set.
fn refuses_null(role: Role) -> bool
    ensures { result ≡ refuses_null_of role }
{
    match role {
        Role::Timestamp | Role::Limit => true,
        _ => false,
    }
}

/// A condition compares with a value or with null.
fn refuses_unset(role: Role) -> bool
    ensures { result ≡ refuses_unset_of role }
{
    match role {
        Role::Test(_, _) => true,
        _ => false,
    }
}

fn is_count(number: Option<i32>) -> bool
    ensures { result ≡ is_count_of number }
{
    match number {
        Some(number) => number > 0,
        None => false,
    }
}

/// A limit is at least 1.
fn suits(role: Role, bytes: &[u8]) -> bool
    ensures { result ≡ suits_of role bytes.now }
{
    match role {
        Role::Limit => is_count(int_in(bytes)),
        _ => true,
    }
}

fn is_wrong(role: Role, ty: CqlType, param: Option<&Param>) -> bool
    ensures { result ≡ is_wrong_of role ty (option_copied param.entry) }
{
    match param {
        None => false,
        Some(Param::Null) => refuses_null(role),
        Some(Param::NotSet) => refuses_unset(role),
        Some(Param::Given(bytes)) => {
            !(fits(ty, bytes.as_slice()) && suits(role, bytes.as_slice()))
        }
    }
}

fn is_mismatched(stands: &Stands) -> bool
    ensures { result ≡ is_mismatched_of stands.now }
{
    match stands {
        Stands::Mismatched => true,
        Stands::Own(_) | Stands::Marker => false,
    }
}

fn mismatches(slot: &Slot, given: Option<&Param>) -> bool
    ensures { result ≡ mismatches_of slot.now (option_copied given.entry) }
{
    !is_lone(slot.role)
        && (is_mismatched(&slot.stands)
            || is_wrong(slot.role, slot.ty, value_at(&slot.stands, given)))
}

/// Whether a marker stands there.
pub fn is_marker(stands: &Stands) -> bool
    ensures { result ≡ is_marker_of stands.now }
{
    match stands {
        Stands::Marker => true,
        Stands::Own(_) | Stands::Mismatched => false,
    }
}

fn misses(slot: &Slot, given: Option<&Param>) -> bool
    ensures { result ≡ misses_of slot.now (option_copied given.entry) }
{
    is_lone(slot.role) || (is_marker(&slot.stands) && given.is_none())
}

fn is_absent(param: Option<&Param>) -> bool
    ensures { result ≡ is_absent_of (option_copied param.entry) }
{
    match param {
        Some(Param::Null) | Some(Param::NotSet) => true,
        Some(Param::Given(_)) | None => false,
    }
}

fn is_null_key(slot: &Slot, given: Option<&Param>) -> bool
    ensures { result ≡ is_null_key_of slot.now (option_copied given.entry) }
{
    is_key_role(slot.role) && is_absent(value_at(&slot.stands, given))
}

fn is_long_param(param: Option<&Param>) -> bool
    ensures { result ≡ is_long_param_of (option_copied param.entry) }
{
    match param {
        Some(Param::Given(bytes)) => bytes.as_slice().len() > MOST_VALUE_BYTES,
        Some(Param::Null) | Some(Param::NotSet) | None => false,
    }
}

fn is_long(slot: &Slot, given: Option<&Param>) -> bool
    ensures { result ≡ is_long_of slot.now (option_copied given.entry) }
{
    is_long_param(value_at(&slot.stands, given))
}

/// The lowest refusal of a slot, with what the request gives for its marker.
pub fn slot_fault(slot: &Slot, given: Option<&Param>) -> Option<Fault>
    ensures { result ≡ slot_fault_of slot.now (option_copied given.entry) }
{
    if mismatches(slot, given) {
        Some(Fault::TypeMismatch)
    } else if misses(slot, given) {
        Some(Fault::ValueCount)
    } else if is_null_key(slot, given) {
        Some(Fault::NullKey)
    } else if is_long(slot, given) {
        Some(Fault::ValueTooLong)
    } else {
        None
    }
}

/// The lowest refusal of a slot whatever a request gives.
fn own_slot_fault(slot: &Slot) -> Option<Fault>
    ensures { result ≡ own_slot_fault_of slot.now }
{
    if is_marker(&slot.stands) && !is_lone(slot.role) {
        None
    } else {
        slot_fault(slot, None)
    }
}

/// The lower of two refusals, if there is one.
pub fn lower(fault: Option<Fault>, other: Option<Fault>) -> Option<Fault>
    ensures { result ≡ lower_of fault other }
{
    match (fault, other) {
        (Some(fault), Some(other)) => Some(fault.lower(other)),
        (Some(fault), None) => Some(fault),
        (None, other) => other,
    }
}

/// The lowest refusal of the slots whatever a request gives.
pub(crate) fn own_fault(slots: &[Slot]) -> Option<Fault>
    ensures { result ≡ own_fault_of slots.now }
{
    let mut fault = None;
    for slot in slots {
        fault = lower(fault, own_slot_fault(slot));
    }
    fault
}
