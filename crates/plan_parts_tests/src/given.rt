//! What the words of the tables stand for.

use changes::{ShownCell, ShownRow};
use cql_values::CqlType;
use cs_base::{Bytes, Items, Text};
use schema_book::{ColumnDef, ColumnKind};
use std::alloc::{AllocError, Global};

/// What a word stands for.
pub trait Given: Drop + Sized {
    fn given(alloc: Global, word: &str) -> Result<Self, AllocError>;
}

/// What each of the words stands for.
pub fn list<T: Given>(alloc: Global, words: &str) -> Result<Items<T>, AllocError> {
    let mut items = Items::new(alloc);
    for word in words.split_whitespace() {
        items.push(T::given(alloc, word)?)?;
    }
    Ok(items)
}

const SEVENS: [u8; 4096] = [7; 4096];

/// So many bytes of 7, by whole pieces, since a byte at a time is slow.
fn sevens(alloc: Global, length: usize) -> Result<Bytes, AllocError> {
    let mut bytes = Vec::new(alloc);
    for _ in 0..length / 4096 {
        bytes.extend_from_slice(&SEVENS)?;
    }
    bytes.extend_from_slice(&SEVENS[..length % 4096])?;
    Ok(Bytes::from_vec(bytes))
}

/// Bytes, each as two hexadecimal digits, or `#` and a number of bytes of 7.
pub fn bytes(alloc: Global, word: &str) -> Result<Bytes, AllocError> {
    if let Some(length) = word.strip_prefix('#') {
        return sevens(alloc, length.parse::<usize>().unwrap_or(0));
    }
    match hex::decode(alloc, word) {
        Ok(bytes) => Ok(Bytes::from_vec(bytes)),
        Err(_) => Err(AllocError),
    }
}

/// Bytes, or `null`.
pub fn value(alloc: Global, word: &str) -> Result<Option<Bytes>, AllocError> {
    if word == "null" {
        return Ok(None);
    }
    Ok(Some(bytes(alloc, word)?))
}

/// A cell such as `2=6162`.
impl Given for ShownCell {
    fn given(alloc: Global, word: &str) -> Result<ShownCell, AllocError> {
        let Some((column, value)) = word.split_once('=') else {
            return Err(AllocError);
        };
        Ok(ShownCell {
            column: column.parse::<u8>().unwrap_or(0),
            value: bytes(alloc, value)?,
        })
    }
}

/// A row with these cells.
pub fn row(alloc: Global, row: &str, cells: &str) -> Result<ShownRow, AllocError> {
    Ok(ShownRow {
        row: bytes(alloc, row)?,
        cells: list(alloc, cells)?,
    })
}

const TYPES: [(&str, CqlType); 10] = [
    (":ascii", CqlType::Ascii),
    (":bigint", CqlType::Bigint),
    (":blob", CqlType::Blob),
    (":boolean", CqlType::Boolean),
    (":timestamp", CqlType::Timestamp),
    (":uuid", CqlType::Uuid),
    (":text", CqlType::Text),
    (":timeuuid", CqlType::Timeuuid),
    (":smallint", CqlType::Smallint),
    (":tinyint", CqlType::Tinyint),
];

/// The type that stands behind a column. Where none does, it is an int.
fn type_behind(word: &str) -> CqlType {
    for (name, ty) in &TYPES {
        if word.ends_with(*name) {
            return *ty;
        }
    }
    CqlType::Int
}

/// A column such as `p:text`: one of the partition key by `p`, a clustering column by `c`, one that is DESC by `d`, and
/// another by `v`.
impl Given for ColumnDef {
    fn given(alloc: Global, word: &str) -> Result<ColumnDef, AllocError> {
        let kind = match word.as_bytes() {
            [b'p', ..] => ColumnKind::Partition,
            [b'c' | b'd', ..] => ColumnKind::Clustering,
            _ => ColumnKind::Regular,
        };
        Ok(ColumnDef {
            name: Text::from_str(alloc, "x")?,
            ty: type_behind(word),
            kind,
            is_descending: word.starts_with('d'),
        })
    }
}
