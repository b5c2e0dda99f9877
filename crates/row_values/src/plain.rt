//! Texts of which each byte stands for itself.

ghost use Rattle.std.specs.Prelude.{◌≡◌, ◌≤◌, ◌++◌, true, length, IfSome, OnOk};
ghost use Rattle.row_values.specs.Plain.{is_plain as is_plain_byte, is_text as is_text_type, plain_count, plain_text, IsPlainFront};
ghost use Rattle.row_values.specs.Prints.{value_text};
ghost use Rattle.row_values.specs.Values.{value_in};

use cql_values::CqlType;
use schema_book::ColumnDef;
use std::alloc::AllocError;

/// Whether a byte is ASCII, and neither the zero that order bytes escape nor the quote that a literal doubles.
fn is_plain(byte: u8) -> bool
    ensures { result ≡ is_plain_byte byte }
{
    0 < byte && byte < 0x80 && byte != b'\''
}

/// How many bytes from the first one on are plain.
fn plain_len(bytes: &[u8]) -> usize
    ensures count { result ≡ plain_count bytes.now }
    ensures within { result ≤ length bytes.now }
{
    for (at, byte) in bytes.iter().enumerate() {
        if !is_plain(*byte) {
            return at;
        }
    }
    bytes.len()
}

fn is_text(ty: CqlType) -> bool
    ensures { result ≡ is_text_type ty }
{
    matches!(ty, CqlType::Text)
}

/// Whether the bytes are a text that stands in its literal as it is.
pub(crate) fn is_plain_word(ty: CqlType, bytes: &[u8]) -> bool
    ensures { result ≡ true → value_text (value_in ty bytes.now) ≡ plain_text bytes.now }
{
    is_text(ty) && plain_len(bytes) == bytes.len()
}

/// The length of the text at the front of a column's order bytes, where it stands there and in its literal as it is.
pub(crate) fn plain_front(column: &ColumnDef, bytes: &[u8]) -> Option<usize>
    ensures { IfSome result (λ len. IsPlainFront column.now bytes.now len) }
{
    if column.is_descending || !is_text(column.ty) {
        return None;
    }
    let len = plain_len(bytes);
    if len + 1 < bytes.len() && bytes[len] == 0 && bytes[len + 1] == 0 {
        Some(len)
    } else {
        None
    }
}

/// Prints such a text.
pub(crate) fn push_plain(out: &mut Vec<u8>, text: &[u8]) -> Result<(), AllocError>
    ensures { OnOk result (out.new.items ≡ out.old.items ++ plain_text text.now) }
{
    out.push(b'\'')?;
    out.extend_from_slice(text)?;
    out.push(b'\'')?;
    Ok(())
}
