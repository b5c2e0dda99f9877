//! The lines of the head.

ghost use Rattle.std.specs.Prelude.{◌≡◌, ◌++◌, OnOk, codes, flat_map, map};
ghost use Rattle.std.specs.Fmt.{signed_decimal};
ghost use Rattle.script_print.specs.Printed.{spaced, ring_line, number_line, lines_unless, settings_lines, schema_line, head_lines, ended, printed_lines};

use crate::words::{push_number, push_signed};
use cs_base::Text;
use fault_script::Script;
use std::alloc::{AllocError, Global};

/// The seconds of `grace` and of `expiry` in a script that doesn't say them.
const USUAL_GRACE: u64 = 864_000;

const USUAL_EXPIRY: u64 = 10_800;

fn push_tokens(alloc: Global, out: &mut Vec<u8>, tokens: &[i64]) -> Result<(), AllocError>
    ensures { OnOk result (out.new.items ≡ out.old.items ++ flat_map spaced (map signed_decimal tokens.now)) }
{
    for token in tokens {
        push_signed(alloc, out, *token)?;
    }
    Ok(())
}

fn push_ring(alloc: Global, out: &mut Vec<u8>, tokens: &[i64]) -> Result<(), AllocError>
    ensures { OnOk result (out.new.items ≡ out.old.items ++ ended (ring_line tokens.now)) }
{
    out.extend_from_slice(b"ring")?;
    push_tokens(alloc, out, tokens)?;
    out.push(b'\n')?;
    Ok(())
}

fn push_setting(alloc: Global, out: &mut Vec<u8>, word: &str, number: u64) -> Result<(), AllocError>
    ensures { OnOk result (out.new.items ≡ out.old.items ++ ended (number_line word.now number)) }
{
    out.extend_from_slice(word.as_bytes())?;
    push_number(alloc, out, number)?;
    out.push(b'\n')?;
    Ok(())
}

/// The line of a setting, where it is not the usual one.
fn push_unless(
    alloc: Global,
    out: &mut Vec<u8>,
    usual: u64,
    word: &str,
    number: u64,
) -> Result<(), AllocError>
    ensures { OnOk result (out.new.items ≡ out.old.items ++ printed_lines (lines_unless usual word.now number)) }
{
    if number == usual {
        return Ok(());
    }
    push_setting(alloc, out, word, number)
}

fn push_settings(alloc: Global, out: &mut Vec<u8>, script: &Script) -> Result<(), AllocError>
    ensures { OnOk result (out.new.items ≡ out.old.items ++ printed_lines (settings_lines script.now)) }
{
    push_unless(alloc, out, USUAL_GRACE, "grace", script.grace)?;
    push_unless(alloc, out, USUAL_EXPIRY, "expiry", script.expiry)
}

/// The lines of the head in front of its statements.
pub(crate) fn push_head(alloc: Global, out: &mut Vec<u8>, script: &Script) -> Result<(), AllocError>
    ensures { OnOk result (out.new.items ≡ out.old.items ++ printed_lines (head_lines script.now)) }
{
    out.extend_from_slice(b"cassandra-script 1\n")?;
    push_ring(alloc, out, script.ring.tokens())?;
    push_setting(alloc, out, "rf", u64::from(script.factor))?;
    push_settings(alloc, out, script)
}

fn push_statement(out: &mut Vec<u8>, text: &str) -> Result<(), AllocError>
    ensures { OnOk result (out.new.items ≡ out.old.items ++ ended (schema_line text.now)) }
{
    out.extend_from_slice(b"schema ")?;
    out.extend_from_slice(text.as_bytes())?;
    out.push(b'\n')?;
    Ok(())
}

/// The lines of the schema.
pub(crate) fn push_statements(out: &mut Vec<u8>, statements: &[Text]) -> Result<(), AllocError>
    ensures { OnOk result (out.new.items ≡ out.old.items ++ printed_lines (map schema_line statements.now)) }
{
    for text in statements {
        push_statement(out, text.as_str())?;
    }
    Ok(())
}
