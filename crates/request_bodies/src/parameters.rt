//! The parameters of QUERY and EXECUTE (native_protocol_v4.spec, section 4.1.4).

ghost use Rattle.std.specs.Prelude.{◌≡◌, ◌≤◌, ◌++◌, ◌↔◌, IsTrue, OnOk, if◌then◌else◌};
ghost use Rattle.body_notations.specs.Reading.{Gives};
ghost use Rattle.request_bodies.specs.Reading.{are_known, parameters_at, parts_at, values_at};
ghost use Rattle.request_bodies.specs.Spelling.{flags_of, parameters, parts, values as values_bytes, values_flags, ParametersFit, ValuesFit};

use body_notations::{
    Consistency, Fault, Notation, Value, is_set, list_has_word, part_has_word, read_byte,
    read_consistency, read_list, read_part, read_string, read_value, write_consistency, write_list,
    write_part, write_string, write_value,
};
use cs_base::{Bytes, Items, Text};
use std::alloc::{AllocError, Global};

const VALUES: u8 = 0x01;

const SKIP_METADATA: u8 = 0x02;

const PAGE_SIZE: u8 = 0x04;

const PAGING_STATE: u8 = 0x08;

const SERIAL_CONSISTENCY: u8 = 0x10;

const TIMESTAMP: u8 = 0x20;

const NAMES: u8 = 0x40;

const UNKNOWN: u8 = 0x80;

/// A value and the name of the marker that it is for.
#[derive(Debug, Drop)]
pub struct NamedValue {
    pub name: Text,
    pub value: Value,
}

/// The values for the markers of a statement.
#[derive(Debug, Drop)]
pub enum Values {
    /// There are none: flag 01 is not set.
    Absent,
    ByPlace(Items<Value>),
    /// Flag 40: each value has a name.
    ByName(Items<NamedValue>),
}

#[derive(Debug, Drop)]
pub struct QueryParameters {
    pub consistency: Consistency,
    pub values: Values,
    /// The client knows the columns already.
    pub skip_metadata: bool,
    /// How many rows a page has; none or less than one: all rows are one page.
    pub page_size: Option<i32>,
    /// What an earlier page was answered with; it may be null.
    pub paging_state: Option<Option<Bytes>>,
    pub serial_consistency: Option<Consistency>,
    /// In microseconds.
    pub timestamp: Option<i64>,
}

#[tactic(auto, unfolding(crate::specs::Reading::named_value_at))]
impl Notation for NamedValue {
    ghost use Rattle.request_bodies.specs.Reading.{named_value_at};
    ghost use Rattle.request_bodies.specs.Spelling.{named_value, NamedValueFits};

    ghost reading = { named_value_at };

    ghost spelling = { named_value };

    ghost fits = { NamedValueFits };

    fn read(alloc: Global, bytes: &[u8]) -> Result<(NamedValue, &[u8]), Fault> {
        let (name, rest) = read_string(alloc, bytes)?;
        let (value, rest) = read_value(alloc, rest)?;
        Ok((NamedValue { name, value }, rest))
    }

    fn write(&self, out: &mut Vec<u8>) -> Result<(), AllocError> {
        write_string(out, &self.name)?;
        write_value(out, &self.value)
    }

    fn has_word(&self) -> bool {
        self.name.has_word() && self.value.has_word()
    }
}

fn read_values(
    alloc: Global,
    present: bool,
    named: bool,
    bytes: &[u8],
) -> Result<(Values, &[u8]), Fault>
    ensures { Gives (λ x. (x.0, x.1.now)) result (values_at present named bytes.now) }
{
    if !present {
        return Ok((Values::Absent, bytes));
    }
    if named {
        let (values, rest) = read_list(alloc, bytes)?;
        Ok((Values::ByName(values), rest))
    } else {
        let (values, rest) = read_list(alloc, bytes)?;
        Ok((Values::ByPlace(values), rest))
    }
}

/// Each flag is one of the protocol's, and names come only with values.
fn are_known(flags: u8) -> bool
    ensures { result ≡ are_known flags }
{
    !is_set(flags, UNKNOWN) && (!is_set(flags, NAMES) || is_set(flags, VALUES))
}

#[tactic(auto, unfolding(crate::specs::Reading::parts_at))]
fn read_parts(
    alloc: Global,
    consistency: Consistency,
    flags: u8,
    bytes: &[u8],
) -> Result<(QueryParameters, &[u8]), Fault>
    ensures { Gives (λ x. (x.0, x.1.now)) result (parts_at consistency flags bytes.now) }
{
    let (values, rest) = read_values(alloc, is_set(flags, VALUES), is_set(flags, NAMES), bytes)?;
    let (page_size, rest) = read_part(alloc, is_set(flags, PAGE_SIZE), rest)?;
    let (paging_state, rest) = read_part(alloc, is_set(flags, PAGING_STATE), rest)?;
    let (serial_consistency, rest) = read_part(alloc, is_set(flags, SERIAL_CONSISTENCY), rest)?;
    let (timestamp, rest) = read_part(alloc, is_set(flags, TIMESTAMP), rest)?;
    let parameters = QueryParameters {
        consistency,
        values,
        skip_metadata: is_set(flags, SKIP_METADATA),
        page_size,
        paging_state,
        serial_consistency,
        timestamp,
    };
    Ok((parameters, rest))
}

#[tactic(auto, unfolding(crate::specs::Reading::parameters_at))]
pub(crate) fn read_parameters(
    alloc: Global,
    bytes: &[u8],
) -> Result<(QueryParameters, &[u8]), Fault>
    ensures { Gives (λ x. (x.0, x.1.now)) result (parameters_at bytes.now) }
{
    let (consistency, rest) = read_consistency(bytes)?;
    let (flags, rest) = read_byte(rest)?;
    if !are_known(flags) {
        return Err(Fault::BadFlag);
    }
    read_parts(alloc, consistency, flags, rest)
}

/// The flag, if it is set.
fn flag_if(set: bool, flag: u8) -> u8
    ensures value { result ≡ (if set then flag else 0) }
    ensures bound { result ≤ flag }
{
    if set { flag } else { 0 }
}

fn values_flags(values: &Values) -> u8
    ensures value { result ≡ values_flags values.now }
    ensures bound { result ≤ 65 }
{
    match values {
        Values::Absent => 0,
        Values::ByPlace(_) => VALUES,
        Values::ByName(_) => VALUES | NAMES,
    }
}

fn flags_of(parameters: &QueryParameters) -> u8
    ensures { result ≡ flags_of parameters.now }
{
    values_flags(&parameters.values)
        + flag_if(parameters.skip_metadata, SKIP_METADATA)
        + flag_if(parameters.page_size.is_some(), PAGE_SIZE)
        + flag_if(parameters.paging_state.is_some(), PAGING_STATE)
        + flag_if(parameters.serial_consistency.is_some(), SERIAL_CONSISTENCY)
        + flag_if(parameters.timestamp.is_some(), TIMESTAMP)
}

fn write_values(out: &mut Vec<u8>, values: &Values) -> Result<(), AllocError>
    requires { ValuesFit values.now }
    ensures { OnOk result (out.new.items ≡ out.old.items ++ values_bytes values.now) }
{
    match values {
        Values::Absent => Ok(()),
        Values::ByPlace(values) => write_list(out, values),
        Values::ByName(values) => write_list(out, values),
    }
}

fn write_parts(out: &mut Vec<u8>, parameters: &QueryParameters) -> Result<(), AllocError>
    requires { ParametersFit parameters.now }
    ensures { OnOk result (out.new.items ≡ out.old.items ++ parts parameters.now) }
{
    write_values(out, &parameters.values)?;
    write_part(out, &parameters.page_size)?;
    write_part(out, &parameters.paging_state)?;
    write_part(out, &parameters.serial_consistency)?;
    write_part(out, &parameters.timestamp)
}

pub(crate) fn write_parameters(
    out: &mut Vec<u8>,
    written: &QueryParameters,
) -> Result<(), AllocError>
    requires { ParametersFit written.now }
    ensures { OnOk result (out.new.items ≡ out.old.items ++ parameters written.now) }
{
    write_consistency(out, written.consistency)?;
    out.push(flags_of(written))?;
    write_parts(out, written)
}

fn values_have_word(values: &Values) -> bool
    ensures { IsTrue result ↔ ValuesFit values.now }
{
    match values {
        Values::Absent => true,
        Values::ByPlace(values) => list_has_word(values),
        Values::ByName(values) => list_has_word(values),
    }
}

pub(crate) fn parameters_have_word(parameters: &QueryParameters) -> bool
    ensures { IsTrue result ↔ ParametersFit parameters.now }
{
    values_have_word(&parameters.values) && part_has_word(&parameters.paging_state)
}
