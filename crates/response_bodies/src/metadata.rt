//! What columns and markers are (native_protocol_v4.spec, sections 4.2.5.2 and 4.2.5.4).

ghost use Rattle.std.specs.Prelude.{◌≡◌, ◌++◌, ◌↔◌, IsTrue, OnOk};
ghost use Rattle.body_notations.specs.Reading.{Gives};
ghost use Rattle.response_bodies.specs.Reading.{columns_at, described_at, front_at, metadata_at, metadata_behind, metadata_flags, named_columns_at, one_table, prepared_at, table_at, type_of_id, variables_at, variables_behind};
ghost use Rattle.response_bodies.specs.Spelling.{columns as columns_bytes, column_count, flags_of, metadata, prepared, table, type_id, variables, ColumnsFit, MetadataFits, PreparedFits, TableFits, VariablesFit};

use body_notations::{
    Fault, INT_LIMIT, Notation, SHORT_LIMIT, all_have_word, part_has_word, read_count, read_int,
    read_items, read_part, read_short, read_short_bytes, read_string, write_count, write_int,
    write_items, write_part, write_short, write_short_bytes, write_string,
};
use cql_values::CqlType;
use cs_base::{Bytes, Items, Text};
use std::alloc::{AllocError, Global};

#[derive(Debug, Drop)]
pub struct Column {
    pub name: Text,
    pub ty: CqlType,
}

/// Columns, or markers, of one table.
#[derive(Debug, Drop)]
pub struct TableColumns {
    pub keyspace: Text,
    pub table: Text,
    pub columns: Items<Column>,
}

#[derive(Debug, Drop)]
pub enum Columns {
    /// Flag 4: only how many there are, below 2^31.
    Counted(u32),
    /// Flag 1.
    Described(TableColumns),
}

/// What the columns of rows are.
#[derive(Debug, Drop)]
pub struct RowsMetadata {
    pub columns: Columns,
    /// Flag 2: there are more pages, and the next request goes on from here.
    pub paging_state: Option<Option<Bytes>>,
}

/// What the markers of a statement are.
#[derive(Debug, Drop)]
pub struct VariablesMetadata {
    pub variables: TableColumns,
    /// Which markers give the columns of the partition key, in the order of the key; none where one isn't a marker.
    pub key_indexes: Items<u16>,
}

/// A prepared statement.
#[derive(Debug, Drop)]
pub struct Prepared {
    pub id: Bytes,
    pub variables: VariablesMetadata,
    /// What the columns of its rows are.
    pub result: RowsMetadata,
}

/// The id of a type.
pub(crate) fn type_id(ty: CqlType) -> u16
    ensures { result ≡ type_id ty }
{
    match ty {
        CqlType::Ascii => 0x01,
        CqlType::Bigint => 0x02,
        CqlType::Blob => 0x03,
        CqlType::Boolean => 0x04,
        CqlType::Int => 0x09,
        CqlType::Timestamp => 0x0b,
        CqlType::Uuid => 0x0c,
        CqlType::Text => 0x0d,
        CqlType::Timeuuid => 0x0f,
        CqlType::Smallint => 0x13,
        CqlType::Tinyint => 0x14,
    }
}

fn type_of_id(id: u16) -> Result<CqlType, Fault>
    ensures { result ≡ type_of_id id }
{
    match id {
        0x01 => Ok(CqlType::Ascii),
        0x02 => Ok(CqlType::Bigint),
        0x03 => Ok(CqlType::Blob),
        0x04 => Ok(CqlType::Boolean),
        0x09 => Ok(CqlType::Int),
        0x0b => Ok(CqlType::Timestamp),
        0x0c => Ok(CqlType::Uuid),
        0x0d => Ok(CqlType::Text),
        0x0f => Ok(CqlType::Timeuuid),
        0x13 => Ok(CqlType::Smallint),
        0x14 => Ok(CqlType::Tinyint),
        _ => Err(Fault::BadValue(i32::from(id))),
    }
}

#[tactic(auto, unfolding(crate::specs::Reading::column_at))]
impl Notation for Column {
    ghost use Rattle.response_bodies.specs.Reading.{column_at};
    ghost use Rattle.response_bodies.specs.Spelling.{column, ColumnFits};

    ghost reading = { column_at };

    ghost spelling = { column };

    ghost fits = { ColumnFits };

    fn read(alloc: Global, bytes: &[u8]) -> Result<(Column, &[u8]), Fault> {
        let (name, rest) = read_string(alloc, bytes)?;
        let (id, rest) = read_short(rest)?;
        let ty = type_of_id(id)?;
        Ok((Column { name, ty }, rest))
    }

    fn write(&self, out: &mut Vec<u8>) -> Result<(), AllocError> {
        write_string(out, &self.name)?;
        write_short(out, type_id(self.ty))
    }

    fn has_word(&self) -> bool {
        self.name.has_word()
    }
}

/// A table's name, and so many columns.
fn read_named_columns(
    alloc: Global,
    count: u32,
    bytes: &[u8],
) -> Result<((Text, Items<Column>), &[u8]), Fault>
    ensures { Gives (λ x. (x.0, x.1.now)) result (named_columns_at count bytes.now) }
{
    let (table, rest) = read_string(alloc, bytes)?;
    let (columns, rest) = read_items(alloc, count as usize, rest)?;
    Ok(((table, columns), rest))
}

/// A table's names, and so many columns.
#[tactic(auto, unfolding(crate::specs::Reading::table_at))]
fn read_table(alloc: Global, count: u32, bytes: &[u8]) -> Result<(TableColumns, &[u8]), Fault>
    ensures { Gives (λ x. (x.0, x.1.now)) result (table_at count bytes.now) }
{
    let (keyspace, rest) = read_string(alloc, bytes)?;
    let ((table, columns), rest) = read_named_columns(alloc, count, rest)?;
    let described = TableColumns {
        keyspace,
        table,
        columns,
    };
    Ok((described, rest))
}

fn write_table(out: &mut Vec<u8>, written: &TableColumns) -> Result<(), AllocError>
    requires { TableFits written.now }
    ensures { OnOk result (out.new.items ≡ out.old.items ++ table written.now) }
{
    write_string(out, &written.keyspace)?;
    write_string(out, &written.table)?;
    write_items(out, &written.columns)
}

/// Whether there are more pages, and whether only the number of columns stands there.
fn metadata_flags(flags: i32) -> Result<(bool, bool), Fault>
    ensures { result ≡ metadata_flags flags }
{
    if flags < 0 {
        return Err(Fault::BadFlag);
    }
    match flags.unsigned_abs() {
        1 => Ok((false, false)),
        3 => Ok((true, false)),
        4 => Ok((false, true)),
        6 => Ok((true, true)),
        _ => Err(Fault::BadFlag),
    }
}

fn read_columns(
    alloc: Global,
    omitted: bool,
    count: u32,
    bytes: &[u8],
) -> Result<(Columns, &[u8]), Fault>
    ensures { Gives (λ x. (x.0, x.1.now)) result (columns_at omitted count bytes.now) }
{
    if omitted {
        return Ok((Columns::Counted(count), bytes));
    }
    let (described, rest) = read_table(alloc, count, bytes)?;
    Ok((Columns::Described(described), rest))
}

/// What stands at the front of metadata.
#[derive(Clone, Copy)]
pub(crate) struct MetadataFront {
    more: bool,
    omitted: bool,
    pub column_count: u32,
}

#[tactic(auto, unfolding(crate::specs::Reading::front_at))]
pub(crate) fn read_front(bytes: &[u8]) -> Result<(MetadataFront, &[u8]), Fault>
    ensures { Gives (λ x. (x.0, x.1.now)) result (front_at bytes.now) }
{
    let (flags, rest) = read_int(bytes)?;
    let (more, omitted) = metadata_flags(flags)?;
    let (column_count, rest) = read_count(rest)?;
    let front = MetadataFront {
        more,
        omitted,
        column_count,
    };
    Ok((front, rest))
}

#[tactic(auto, unfolding(crate::specs::Reading::metadata_behind))]
pub(crate) fn read_metadata_behind(
    alloc: Global,
    front: MetadataFront,
    bytes: &[u8],
) -> Result<(RowsMetadata, &[u8]), Fault>
    ensures { Gives (λ x. (x.0, x.1.now)) result (metadata_behind front bytes.now) }
{
    let (paging_state, rest) = read_part(alloc, front.more, bytes)?;
    let (columns, rest) = read_columns(alloc, front.omitted, front.column_count, rest)?;
    let metadata = RowsMetadata {
        columns,
        paging_state,
    };
    Ok((metadata, rest))
}

#[tactic(auto, unfolding(crate::specs::Reading::metadata_at))]
fn read_metadata(alloc: Global, bytes: &[u8]) -> Result<(RowsMetadata, &[u8]), Fault>
    ensures { Gives (λ x. (x.0, x.1.now)) result (metadata_at bytes.now) }
{
    let (front, rest) = read_front(bytes)?;
    read_metadata_behind(alloc, front, rest)
}

fn flags_of(written: &RowsMetadata) -> i32
    ensures { result ≡ flags_of written.now }
{
    match (&written.columns, &written.paging_state) {
        (Columns::Described(_), None) => 1,
        (Columns::Described(_), Some(_)) => 3,
        (Columns::Counted(_), None) => 4,
        (Columns::Counted(_), Some(_)) => 6,
    }
}

impl Columns {
    /// How many columns there are.
    pub(crate) fn count(&self) -> usize
        ensures { result ≡ column_count self.now }
    {
        match self {
            Columns::Counted(count) => *count as usize,
            Columns::Described(table) => table.columns.as_slice().len(),
        }
    }
}

fn write_columns(out: &mut Vec<u8>, written: &Columns) -> Result<(), AllocError>
    requires { ColumnsFit written.now }
    ensures { OnOk result (out.new.items ≡ out.old.items ++ columns_bytes written.now) }
{
    match written {
        Columns::Counted(_) => Ok(()),
        Columns::Described(table) => write_table(out, table),
    }
}

pub(crate) fn write_metadata(out: &mut Vec<u8>, written: &RowsMetadata) -> Result<(), AllocError>
    requires { MetadataFits written.now }
    ensures { OnOk result (out.new.items ≡ out.old.items ++ metadata written.now) }
{
    write_int(out, flags_of(written))?;
    write_count(out, written.columns.count())?;
    write_part(out, &written.paging_state)?;
    write_columns(out, &written.columns)
}

/// The flags of the variables: the names of the table stand there once.
fn one_table(flags: i32) -> Result<(), Fault>
    ensures { result ≡ one_table flags }
{
    if flags < 0 || flags.unsigned_abs() != 1 {
        return Err(Fault::BadFlag);
    }
    Ok(())
}

/// Which markers give the key, and the markers.
fn read_variables_behind(
    alloc: Global,
    count: u32,
    key_count: u32,
    bytes: &[u8],
) -> Result<(VariablesMetadata, &[u8]), Fault>
    ensures { Gives (λ x. (x.0, x.1.now)) result (variables_behind count key_count bytes.now) }
{
    let (key_indexes, rest) = read_items(alloc, key_count as usize, bytes)?;
    let (variables, rest) = read_table(alloc, count, rest)?;
    let metadata = VariablesMetadata {
        variables,
        key_indexes,
    };
    Ok((metadata, rest))
}

#[tactic(auto, unfolding(crate::specs::Reading::variables_at))]
fn read_variables(alloc: Global, bytes: &[u8]) -> Result<(VariablesMetadata, &[u8]), Fault>
    ensures { Gives (λ x. (x.0, x.1.now)) result (variables_at bytes.now) }
{
    let (flags, rest) = read_int(bytes)?;
    one_table(flags)?;
    let (count, rest) = read_count(rest)?;
    let (key_count, rest) = read_count(rest)?;
    read_variables_behind(alloc, count, key_count, rest)
}

fn write_variables(out: &mut Vec<u8>, written: &VariablesMetadata) -> Result<(), AllocError>
    requires { VariablesFit written.now }
    ensures { OnOk result (out.new.items ≡ out.old.items ++ variables written.now) }
{
    write_int(out, 1)?;
    write_count(out, written.variables.columns.as_slice().len())?;
    write_count(out, written.key_indexes.as_slice().len())?;
    write_items(out, &written.key_indexes)?;
    write_table(out, &written.variables)
}

/// What stands behind the id of a prepared statement.
fn read_described(
    alloc: Global,
    bytes: &[u8],
) -> Result<((VariablesMetadata, RowsMetadata), &[u8]), Fault>
    ensures { Gives (λ x. (x.0, x.1.now)) result (described_at bytes.now) }
{
    let (variables, rest) = read_variables(alloc, bytes)?;
    let (result, rest) = read_metadata(alloc, rest)?;
    Ok(((variables, result), rest))
}

#[tactic(auto, unfolding(crate::specs::Reading::prepared_at))]
pub(crate) fn read_prepared(alloc: Global, bytes: &[u8]) -> Result<(Prepared, &[u8]), Fault>
    ensures { Gives (λ x. (x.0, x.1.now)) result (prepared_at bytes.now) }
{
    let (id, rest) = read_short_bytes(alloc, bytes)?;
    let ((variables, result), rest) = read_described(alloc, rest)?;
    let prepared = Prepared {
        id,
        variables,
        result,
    };
    Ok((prepared, rest))
}

pub(crate) fn write_prepared(out: &mut Vec<u8>, written: &Prepared) -> Result<(), AllocError>
    requires { PreparedFits written.now }
    ensures { OnOk result (out.new.items ≡ out.old.items ++ prepared written.now) }
{
    write_short_bytes(out, &written.id)?;
    write_variables(out, &written.variables)?;
    write_metadata(out, &written.result)
}

fn table_has_word(table: &TableColumns) -> bool
    ensures { IsTrue result ↔ TableFits table.now }
{
    table.keyspace.has_word()
        && table.table.has_word()
        && table.columns.as_slice().len() < INT_LIMIT
        && all_have_word(&table.columns)
}

fn columns_have_word(columns: &Columns) -> bool
    ensures { IsTrue result ↔ ColumnsFit columns.now }
{
    match columns {
        Columns::Counted(count) => (*count as usize) < INT_LIMIT,
        Columns::Described(table) => table_has_word(table),
    }
}

pub(crate) fn metadata_has_word(metadata: &RowsMetadata) -> bool
    ensures { IsTrue result ↔ MetadataFits metadata.now }
{
    part_has_word(&metadata.paging_state) && columns_have_word(&metadata.columns)
}

fn variables_have_word(variables: &VariablesMetadata) -> bool
    ensures { IsTrue result ↔ VariablesFit variables.now }
{
    variables.key_indexes.as_slice().len() < INT_LIMIT && table_has_word(&variables.variables)
}

pub(crate) fn prepared_has_word(prepared: &Prepared) -> bool
    ensures { IsTrue result ↔ PreparedFits prepared.now }
{
    prepared.id.as_slice().len() < SHORT_LIMIT
        && variables_have_word(&prepared.variables)
        && metadata_has_word(&prepared.result)
}
