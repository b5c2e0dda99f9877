//! How two values of a type compare by their bytes.

ghost use Rattle.std.specs.Prelude.{◌≡◌};
ghost use Rattle.cql_values.specs.Value.{uuid_time};
ghost use Rattle.condition_test.specs.Conditions.{time_of, value_cmp};
ghost use Rattle.condition_test.specs.Laws.{order_of_type};
ghost use Rattle.statement_plan.specs.declared.operation.ValueOrder.TheVariants as orders;

use cql_values::CqlType;
use statement_plan::ValueOrder;
use std::cmp::Ordering;

/// The first byte has the sign in its top bit, which is turned so that negative numbers come first.
fn signed(a: &[u8], b: &[u8]) -> Ordering
    ensures { result ≡ value_cmp orders.Signed a.now b.now }
{
    match (a, b) {
        ([x, xs @ ..], [y, ys @ ..]) => (*x ^ 0x80).cmp(&(*y ^ 0x80)).then_with(|| xs.cmp(ys)),
        _ => a.cmp(b),
    }
}

/// The 60 bits of the time of a uuid of version 1.
fn uuid_time(uuid: u128) -> u64
    ensures { result ≡ uuid_time uuid }
{
    let low = (uuid >> 96) as u64;
    let mid = ((uuid >> 80) & 0xffff) as u64;
    let high = ((uuid >> 64) & 0x0fff) as u64;
    (high << 48) + (mid << 32) + low
}

fn time(bytes: &[u8]) -> u64
    ensures { result ≡ time_of bytes.now }
{
    match bytes.as_array::<16>() {
        Some(uuid) => uuid_time(u128::from_be_bytes(*uuid)),
        None => 0,
    }
}

fn timed(a: &[u8], b: &[u8]) -> Ordering
    ensures { result ≡ value_cmp orders.Time a.now b.now }
{
    time(a).cmp(&time(b)).then_with(|| a.cmp(b))
}

pub(crate) fn compare(order: ValueOrder, a: &[u8], b: &[u8]) -> Ordering
    ensures { result ≡ value_cmp order a.now b.now }
{
    match order {
        ValueOrder::Signed => signed(a, b),
        ValueOrder::Plain => a.cmp(b),
        ValueOrder::Time => timed(a, b),
    }
}

/// How the bytes of a type's values compare: whole numbers and timestamps as numbers, uuids of version 1 by their time, and
/// others by their bytes. It is the order of the values, which [`bytes_compare_as_values`](crate::bytes_compare_as_values)
/// says.
pub fn order_of(ty: CqlType) -> ValueOrder
    ensures { result ≡ order_of_type ty }
{
    match ty {
        CqlType::Bigint
        | CqlType::Int
        | CqlType::Timestamp
        | CqlType::Smallint
        | CqlType::Tinyint => ValueOrder::Signed,
        CqlType::Timeuuid => ValueOrder::Time,
        CqlType::Ascii | CqlType::Blob | CqlType::Boolean | CqlType::Uuid | CqlType::Text =>
            ValueOrder::Plain,
    }
}
