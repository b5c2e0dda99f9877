//! The cells of rows, written into room that is made for many at a time.

ghost use Rattle.std.specs.Prelude.{◌≡◌, ◌+◌, ◌≤◌, ◌<◌, ◌^◌, ◌++◌, length, take, vec_len, IfOk, OnOk};
ghost use Rattle.std.specs.List.{flat_map, AllByRecursion};
ghost use Rattle.body_notations.specs.Spelling.{count, bytes as bytes_or_null, BytesFit};

use cs_base::Bytes;
use std::alloc::AllocError;

/// The bytes of a length.
const LENGTH: usize = 4;

/// The length of a cell of 16 bytes, and they: no number and no uuid is longer.
const SHORT_CELL: usize = LENGTH + 16;

/// Makes room for so many bytes behind a place, and as many as stand before it.
#[cold]
#[inline(never)]
fn make_room(out: &mut Vec<u8>, at: usize, count: usize) -> Result<(), AllocError>
    requires { at ≤ vec_len out.old }
    ensures front { take at out.new.items ≡ take at out.old.items }
    ensures room { OnOk result (at + count ≤ vec_len out.new) }
{
    out.resize(at.saturating_add(count.max(at)), 0)
}

/// Sees to room for so many bytes behind a place.
#[inline(always)]
fn see_to_room(out: &mut Vec<u8>, at: usize, count: usize) -> Result<(), AllocError>
    requires { at ≤ vec_len out.old }
    ensures front { take at out.new.items ≡ take at out.old.items }
    ensures room { OnOk result (at + count ≤ vec_len out.new) }
{
    if count <= out.len() - at {
        return Ok(());
    }
    make_room(out, at, count)
}

/// Puts bytes in their place.
#[inline(always)]
fn put(out: &mut Vec<u8>, at: usize, bytes: &[u8])
    requires { at + length bytes.now ≤ vec_len out.old }
    ensures front { take (at + length bytes.now) out.new.items ≡ take at out.old.items ++ bytes.now }
    ensures len { vec_len out.new ≡ vec_len out.old }
{
    out[at..at + bytes.len()].copy_from_slice(bytes);
}

/// Writes a length, and the bytes behind it. Gives the place behind them.
#[inline(always)]
fn write_counted(
    out: &mut Vec<u8>,
    at: usize,
    counted: u32,
    content: &[u8],
) -> Result<usize, AllocError>
    requires place { at ≤ vec_len out.old }
    requires short { length content.now < 2 ^ 31 }
    ensures front { IfOk result (λ end. take end out.new.items ≡ take at out.old.items ++ count counted ++ content.now) }
    ensures place { IfOk result (λ end. end ≤ vec_len out.new) }
{
    see_to_room(out, at, LENGTH + content.len())?;
    put(out, at, &counted.to_be_bytes());
    put(out, at + LENGTH, content);
    Ok(at + LENGTH + content.len())
}

#[inline(always)]
fn write_cell(out: &mut Vec<u8>, at: usize, cell: &Option<Bytes>) -> Result<usize, AllocError>
    requires place { at ≤ vec_len out.old }
    requires short { BytesFit cell.now }
    ensures front { IfOk result (λ end. take end out.new.items ≡ take at out.old.items ++ bytes_or_null cell.now) }
    ensures place { IfOk result (λ end. end ≤ vec_len out.new) }
{
    match cell {
        None => write_counted(out, at, u32::MAX, &[]),
        Some(content) => {
            let content = content.as_slice();
            write_counted(out, at, content.len() as u32, content)
        }
    }
}

/// Writes cells one after another.
pub(crate) fn write_cells(out: &mut Vec<u8>, cells: &[Option<Bytes>]) -> Result<(), AllocError>
    requires { AllByRecursion BytesFit cells.now }
    ensures { OnOk result (out.new.items ≡ out.old.items ++ flat_map bytes_or_null cells.now) }
{
    let mut end = out.len();
    see_to_room(out, end, cells.len().saturating_mul(SHORT_CELL))?;
    for cell in cells {
        end = write_cell(out, end, cell)?;
    }
    out.truncate(end);
    Ok(())
}
