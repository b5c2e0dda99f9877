//! The lines of answers, and of what is told of a node itself.

ghost use Rattle.std.specs.Prelude.{◌≡◌, ◌+◌, ◌<◌, [], ◌∷◌, ◌++◌, OnOk};
ghost use Rattle.std.specs.Fmt.{decimal};
ghost use Rattle.chronicle_print.specs.Printed.{acked_line, used_line, data_text, timeout_text, invalid_text, refusal_text, refused_line, tables_text, tables_line, stopped_line};

use cs_base::NodeId;
use peer_messages::{Invalid, Refusal};
use std::alloc::AllocError;

fn push_digit(out: &mut Vec<u8>, digit: u64) -> Result<(), AllocError>
    requires { digit < 10 }
    ensures { OnOk result (out.new.items ≡ out.old.items ++ (48 + digit) ∷ []) }
{
    out.push(b'0' + digit as u8)?;
    Ok(())
}

/// Puts the decimal digits of a number behind what is there.
#[tactic(auto, using(std::proofs::lemmas::Fmt::decimal_digit))]
pub fn push_number(out: &mut Vec<u8>, number: u64) -> Result<(), AllocError>
    ensures { OnOk result (out.new.items ≡ out.old.items ++ decimal number) }
{
    if number < 10 {
        push_digit(out, number)?;
        return Ok(());
    }
    push_number(out, number / 10)?;
    push_digit(out, number % 10)?;
    Ok(())
}

/// The line of an acknowledged write.
pub(crate) fn push_acked(out: &mut Vec<u8>, number: u64) -> Result<(), AllocError>
    ensures { OnOk result (out.new.items ≡ out.old.items ++ acked_line number) }
{
    push_number(out, number)?;
    out.extend_from_slice(b" ok\n")
}

/// The line of a keyspace that was named.
pub(crate) fn push_used(out: &mut Vec<u8>, number: u64, keyspace: &str) -> Result<(), AllocError>
    ensures { OnOk result (out.new.items ≡ out.old.items ++ used_line number keyspace.now) }
{
    push_number(out, number)?;
    out.extend_from_slice(b" keyspace ")?;
    out.extend_from_slice(keyspace.as_bytes())?;
    out.push(b'\n')?;
    Ok(())
}

fn push_unavailable(out: &mut Vec<u8>, required: u8, alive: u8) -> Result<(), AllocError>
    ensures { OnOk result (out.new.items ≡ out.old.items ++ refusal_text (Refusal.Unavailable required alive)) }
{
    out.extend_from_slice(b"unavailable required ")?;
    push_number(out, u64::from(required))?;
    out.extend_from_slice(b" alive ")?;
    push_number(out, u64::from(alive))?;
    Ok(())
}

/// A timeout, of a request that had so many answers and waited for so many.
fn push_timeout(
    out: &mut Vec<u8>,
    name: &str,
    received: u64,
    blockfor: u64,
    last: &str,
) -> Result<(), AllocError>
    ensures { OnOk result (out.new.items ≡ out.old.items ++ timeout_text name.now received blockfor last.now) }
{
    out.extend_from_slice(name.as_bytes())?;
    out.extend_from_slice(b" received ")?;
    push_number(out, received)?;
    out.extend_from_slice(b" blockfor ")?;
    push_number(out, blockfor)?;
    out.extend_from_slice(last.as_bytes())
}

/// Whether a read that timed out had data of some replica.
fn data_word(replied: bool) -> &'static str
    ensures { result.now ≡ data_text replied }
{
    if replied { " data 1" } else { " data 0" }
}

fn push_write_timeout(out: &mut Vec<u8>, received: u8, blockfor: u8) -> Result<(), AllocError>
    ensures { OnOk result (out.new.items ≡ out.old.items ++ refusal_text (Refusal.WriteTimeout received blockfor)) }
{
    let (received, blockfor) = (u64::from(received), u64::from(blockfor));
    push_timeout(out, "write-timeout", received, blockfor, " SIMPLE")
}

fn push_read_timeout(
    out: &mut Vec<u8>,
    received: u8,
    blockfor: u8,
    replied: bool,
) -> Result<(), AllocError>
    ensures { OnOk result (out.new.items ≡ out.old.items ++ refusal_text (Refusal.ReadTimeout received blockfor replied)) }
{
    let (received, blockfor) = (u64::from(received), u64::from(blockfor));
    push_timeout(out, "read-timeout", received, blockfor, data_word(replied))
}

fn invalid_name(why: Invalid) -> &'static str
    ensures { result.now ≡ invalid_text why }
{
    match why {
        Invalid::SerialWrite => "SerialWrite",
        Invalid::Level => "Level",
        Invalid::UnknownTable => "UnknownTable",
        Invalid::PartitionTooLarge => "PartitionTooLarge",
        Invalid::Statement(fault) => fault.name(),
    }
}

fn push_invalid(out: &mut Vec<u8>, why: Invalid) -> Result<(), AllocError>
    ensures { OnOk result (out.new.items ≡ out.old.items ++ refusal_text (Refusal.Invalid why)) }
{
    out.extend_from_slice(b"invalid ")?;
    out.extend_from_slice(invalid_name(why).as_bytes())
}

fn push_refusal(out: &mut Vec<u8>, refusal: Refusal) -> Result<(), AllocError>
    ensures { OnOk result (out.new.items ≡ out.old.items ++ refusal_text refusal) }
{
    match refusal {
        Refusal::Unavailable { required, alive } => push_unavailable(out, required, alive),
        Refusal::WriteTimeout { received, blockfor } => {
            push_write_timeout(out, received, blockfor)
        }
        Refusal::ReadTimeout {
            received,
            blockfor,
            data,
        } => push_read_timeout(out, received, blockfor, data),
        Refusal::Overloaded => out.extend_from_slice(b"overloaded"),
        Refusal::Invalid(why) => push_invalid(out, why),
        Refusal::Down => out.extend_from_slice(b"down"),
    }
}

/// The line of a refusal.
pub(crate) fn push_refused(
    out: &mut Vec<u8>,
    number: u64,
    refusal: Refusal,
) -> Result<(), AllocError>
    ensures { OnOk result (out.new.items ≡ out.old.items ++ refused_line number refusal) }
{
    push_number(out, number)?;
    out.push(b' ')?;
    push_refusal(out, refusal)?;
    out.push(b'\n')?;
    Ok(())
}

fn push_tables_text(out: &mut Vec<u8>, node: u64) -> Result<(), AllocError>
    ensures { OnOk result (out.new.items ≡ out.old.items ++ tables_text node) }
{
    out.extend_from_slice(b"tables ")?;
    push_number(out, node)
}

fn push_table_count(out: &mut Vec<u8>, node: u64, count: u64) -> Result<(), AllocError>
    ensures { OnOk result (out.new.items ≡ out.old.items ++ tables_line node count) }
{
    push_tables_text(out, node)?;
    out.push(b' ')?;
    push_number(out, count)?;
    out.push(b'\n')?;
    Ok(())
}

/// The line of a node's tables.
pub(crate) fn push_tables(out: &mut Vec<u8>, node: NodeId, count: u32) -> Result<(), AllocError>
    ensures { OnOk result (out.new.items ≡ out.old.items ++ tables_line node count) }
{
    let (node, count) = (u64::from(node.number()), u64::from(count));
    push_table_count(out, node, count)
}

fn push_stop(out: &mut Vec<u8>, node: u64) -> Result<(), AllocError>
    ensures { OnOk result (out.new.items ≡ out.old.items ++ stopped_line node) }
{
    out.extend_from_slice(b"stopped ")?;
    push_number(out, node)?;
    out.push(b'\n')?;
    Ok(())
}

/// The line of a node that stopped.
pub(crate) fn push_stopped(out: &mut Vec<u8>, node: NodeId) -> Result<(), AllocError>
    ensures { OnOk result (out.new.items ≡ out.old.items ++ stopped_line node) }
{
    let node = u64::from(node.number());
    push_stop(out, node)
}
