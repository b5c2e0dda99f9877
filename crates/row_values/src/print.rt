//! Values in print.

ghost use Rattle.std.specs.Prelude.{◌≡◌, ◌++◌, OnOk};
ghost use Rattle.row_values.specs.Prints.{value_text, text_at, values_text};

use cql_values::{CqlValue, print_literal};
use std::alloc::{AllocError, Global};

/// Prints a value, or `null` for none.
pub(crate) fn push_value(
    alloc: Global,
    out: &mut Vec<u8>,
    value: &Option<CqlValue>,
) -> Result<(), AllocError>
    ensures { OnOk result (out.new.items ≡ out.old.items ++ value_text value.now) }
{
    match value {
        Some(value) => {
            let text = print_literal(alloc, value)?;
            out.extend_from_slice(text.as_str().as_bytes())
        }
        None => out.extend_from_slice(b"null"),
    }
}

/// Prints the value of the column of this number.
fn push_value_at(
    alloc: Global,
    out: &mut Vec<u8>,
    values: &[Option<CqlValue>],
    number: u8,
) -> Result<(), AllocError>
    ensures { OnOk result (out.new.items ≡ out.old.items ++ text_at values.now number) }
{
    match values.get(usize::from(number)) {
        Some(value) => push_value(alloc, out, value),
        None => out.extend_from_slice(b"null"),
    }
}

/// Prints the values of the columns of these numbers, in this order, with ` | ` between them: each as a CQL literal (CQL
/// reference, "constants"), or `null` where there is none or no column has the number.
///
/// It takes time in the length of what it prints. An `Err` leaves what was printed up to there.
pub fn push_values(
    alloc: Global,
    out: &mut Vec<u8>,
    values: &[Option<CqlValue>],
    shown: &[u8],
) -> Result<(), AllocError>
    ensures { OnOk result (out.new.items ≡ out.old.items ++ values_text values.now shown.now) }
{
    let [first, later @ ..] = shown else {
        return Ok(());
    };
    push_value_at(alloc, out, values, *first)?;
    for number in later {
        out.extend_from_slice(b" | ")?;
        push_value_at(alloc, out, values, *number)?;
    }
    Ok(())
}
