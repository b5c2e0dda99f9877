//! The state that a page of rows is answered with, and by which a client asks for the next (native_protocol_v4.spec,
//! section 8).

ghost use Rattle.std.specs.Prelude.{◌≡◌, IfOk};
ghost use Rattle.page_state.specs.Pages.{Answers, row_in, state_of};
ghost use Rattle.page_state.specs.declared.state.PagingError.TheVariants.{NoMemory};

use cs_base::Bytes;
use std::alloc::{AllocError, Global};
use thiserror::Error;

/// Stands before the bytes of the row.
const VERSION: u8 = 1;

const MOST_ROW_BYTES: usize = 65_535;

/// Why bytes are read as no state.
#[derive(Clone, Copy, Debug, PartialEq, Eq, Error)]
pub enum PagingError {
    /// No bytes, another first byte than 1, or more than 65,535 bytes of a row.
    #[error("not the state of a page")]
    BadPaging,
    #[error("out of memory")]
    NoMemory,
}

impl From<AllocError> for PagingError {
    ghost from_gives = { λ _ e. e ≡ NoMemory };

    fn from(_: AllocError) -> PagingError {
        PagingError::NoMemory
    }
}

/// The state behind a page whose last row has these order bytes. That of a row of more than 65,535 bytes is not read
/// back.
pub fn write_paging(alloc: Global, row: &Bytes) -> Result<Bytes, AllocError>
    ensures { IfOk result (λ state. state ≡ state_of row.now) }
{
    let row = row.as_slice();
    let mut state = Vec::with_capacity(alloc, row.len() + 1)?;
    state.push(VERSION)?;
    state.extend_from_slice(row)?;
    Ok(Bytes::from_vec(state))
}

/// The order bytes of the last row of the page before. They need not be those of a row that a table can have: that is
/// for the caller to look at.
pub fn read_paging(alloc: Global, bytes: &[u8]) -> Result<Bytes, PagingError>
    ensures { Answers result (row_in bytes.now) }
{
    match bytes {
        [VERSION, row @ ..] if row.len() <= MOST_ROW_BYTES => Ok(Bytes::from_slice(alloc, row)?),
        _ => Err(PagingError::BadPaging),
    }
}
