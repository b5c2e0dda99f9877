//! Rows (native_protocol_v4.spec, section 4.2.5.2).

ghost use Rattle.std.specs.Prelude.{◌≡◌, ◌++◌, ◌*◌, ◌↔◌, IsTrue, OnOk};
ghost use Rattle.body_notations.specs.Reading.{Gives};
ghost use Rattle.response_bodies.specs.Reading.{cells_at, rows_at};
ghost use Rattle.response_bodies.specs.Spelling.{rows, RowsFit};

use crate::cells::write_cells;
use crate::metadata::{
    RowsMetadata, metadata_has_word, read_front, read_metadata_behind, write_metadata,
};
use body_notations::{Fault, INT_LIMIT, all_have_word, read_count, read_items, write_count};
use cs_base::{Bytes, Items};
use std::alloc::{AllocError, Global};

type Cells = Items<Option<Bytes>>;

/// The rows of a read, or of a refused condition.
#[derive(Debug, Drop)]
pub struct Rows {
    pub metadata: RowsMetadata,
    /// Below 2^31. Rows may have no column, so the cells do not tell it.
    pub row_count: u32,
    /// The cells row by row, each in the encoding of its type; `None` is null.
    pub cells: Items<Option<Bytes>>,
}

/// How many rows there are, and so many cells of each.
fn read_cells(alloc: Global, width: u32, bytes: &[u8]) -> Result<((u32, Cells), &[u8]), Fault>
    ensures { Gives (λ x. (x.0, x.1.now)) result (cells_at width bytes.now) }
{
    let (row_count, rest) = read_count(bytes)?;
    let cell_count = u64::from(row_count) * u64::from(width);
    let (cells, rest) = read_items(alloc, cell_count as usize, rest)?;
    Ok(((row_count, cells), rest))
}

#[tactic(auto, unfolding(crate::specs::Reading::rows_at))]
pub(crate) fn read_rows(alloc: Global, bytes: &[u8]) -> Result<(Rows, &[u8]), Fault>
    ensures { Gives (λ x. (x.0, x.1.now)) result (rows_at bytes.now) }
{
    let (front, rest) = read_front(bytes)?;
    let (metadata, rest) = read_metadata_behind(alloc, front, rest)?;
    let ((row_count, cells), rest) = read_cells(alloc, front.column_count, rest)?;
    let rows = Rows {
        metadata,
        row_count,
        cells,
    };
    Ok((rows, rest))
}

#[tactic(auto, unfolding(crate::specs::Spelling::rows))]
pub(crate) fn write_rows(out: &mut Vec<u8>, written: &Rows) -> Result<(), AllocError>
    requires { RowsFit written.now }
    ensures { OnOk result (out.new.items ≡ out.old.items ++ rows written.now) }
{
    write_metadata(out, &written.metadata)?;
    write_count(out, written.row_count as usize)?;
    write_cells(out, written.cells.as_slice())
}

/// Whether each row has a cell for each column.
fn are_whole(row_count: u32, width: usize, cell_count: usize) -> bool
    ensures { IsTrue result ↔ (row_count * width ≡ cell_count) }
{
    match (row_count as usize).checked_mul(width) {
        Some(count) => count == cell_count,
        None => false,
    }
}

pub(crate) fn rows_have_word(rows: &Rows) -> bool
    ensures { IsTrue result ↔ RowsFit rows.now }
{
    metadata_has_word(&rows.metadata)
        && (rows.row_count as usize) < INT_LIMIT
        && are_whole(
            rows.row_count,
            rows.metadata.columns.count(),
            rows.cells.as_slice().len(),
        )
        && all_have_word(&rows.cells)
}
