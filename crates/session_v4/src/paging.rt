//! Pages of a read (native_protocol_v4.spec, section 8).

ghost use Rattle.std.specs.Prelude.{◌≡◌, IfOk};
ghost use Rattle.session_v4.specs.Paging.{behind_row as behind_row_of, before_row as before_row_of, begun as begun_query, earlier_bound as earlier_bound_of, later_bound as later_bound_of, limited as limited_query, page_begin as page_begin_of, page_query as page_query_of, page_size as page_size_of, query_behind as query_behind_of, size_within as size_within_of};

use changes::{Bound, Query};
use cs_base::Bytes;
use statement_plan::Columns;
use std::alloc::{AllocError, Global};
use std::cmp::Ordering;

/// Right behind a row: no row's bytes stand between it and those with a zero byte behind them.
fn behind_row(alloc: Global, row: &Bytes) -> Result<Bound, AllocError>
    ensures { IfOk result (λ bound. bound ≡ behind_row_of row.now) }
{
    let row = row.as_slice();
    let mut at = Vec::with_capacity(alloc, row.len().saturating_add(1))?;
    at.extend_from_slice(row)?;
    at.push(0)?;
    Ok(Bound {
        at: Bytes::from_vec(at),
        after: false,
    })
}

fn later_bound(a: Bound, b: Bound) -> Bound
    ensures { result ≡ later_bound_of a b }
{
    match a.cmp(&b) {
        Ordering::Less => b,
        Ordering::Equal => a,
        Ordering::Greater => a,
    }
}

fn earlier_bound(a: Bound, b: Bound) -> Bound
    ensures { result ≡ earlier_bound_of a b }
{
    match a.cmp(&b) {
        Ordering::Less => a,
        Ordering::Equal => a,
        Ordering::Greater => b,
    }
}

/// A query of the rows that stand behind a row, in the query's order, and no others than its own.
pub fn query_behind(alloc: Global, row: &Bytes, query: Query) -> Result<Query, AllocError>
    ensures { IfOk result (λ behind. behind ≡ query_behind_of row.now query) }
{
    let Query {
        partition,
        from,
        upto,
        reversed,
        limit,
    } = query;
    if reversed {
        let before = Bound {
            at: row.copy(alloc)?,
            after: false,
        };
        Ok(Query {
            partition,
            from,
            upto: earlier_bound(before, upto),
            reversed,
            limit,
        })
    } else {
        let behind = behind_row(alloc, row)?;
        Ok(Query {
            partition,
            from: later_bound(behind, from),
            upto,
            reversed,
            limit,
        })
    }
}

/// A size above none and below the limit.
fn size_within(size: Option<i32>, limit: u32) -> Option<u32>
    ensures { result ≡ size_within_of size limit }
{
    let size = size?;
    if size <= 0 {
        return None;
    }
    let size = size.unsigned_abs();
    if size < limit { Some(size) } else { None }
}

/// How many rows a page has, where that is fewer than the limit. The number of rows has one page.
pub(crate) fn page_size(columns: &Columns, size: Option<i32>, limit: u32) -> Option<u32>
    ensures { result ≡ page_size_of columns.now size limit }
{
    match columns {
        Columns::Listed(_) => size_within(size, limit),
        Columns::Count => None,
    }
}

fn page_begin(columns: &Columns, row: Option<Bytes>) -> Option<Bytes>
    ensures { result ≡ page_begin_of columns.now row }
{
    match columns {
        Columns::Listed(_) => row,
        Columns::Count => None,
    }
}

fn begun(alloc: Global, row: Option<Bytes>, query: Query) -> Result<Query, AllocError>
    ensures { IfOk result (λ page. page ≡ begun_query row query) }
{
    match row {
        None => Ok(query),
        Some(row) => query_behind(alloc, &row, query),
    }
}

fn limited(size: Option<u32>, query: Query) -> Query
    ensures { result ≡ limited_query size query }
{
    let mut query = query;
    if let Some(size) = size {
        query.limit = size;
    }
    query
}

/// The query of a page that begins behind a row and has so many rows.
pub(crate) fn page_query(
    alloc: Global,
    columns: &Columns,
    row: Option<Bytes>,
    size: Option<u32>,
    query: Query,
) -> Result<Query, AllocError>
    ensures { IfOk result (λ page. page ≡ page_query_of (page_begin_of columns.now row) size query) }
{
    let begin = page_begin(columns, row);
    Ok(limited(size, begun(alloc, begin, query)?))
}
