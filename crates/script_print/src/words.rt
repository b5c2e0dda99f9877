//! The words of a line, each behind a space.

ghost use Rattle.std.specs.Prelude.{◌≡◌, ◌++◌, OnOk};
ghost use Rattle.std.specs.Fmt.{decimal, signed_decimal};
ghost use Rattle.script_print.specs.Printed.{level_name as name_of_level, outcome_name as name_of_outcome, up_name as name_of_up, spaced};

use cs_base::{Level, NodeId};
use cs_store::Outcome;
use std::alloc::{AllocError, Global};

pub(crate) fn push_word(out: &mut Vec<u8>, word: &str) -> Result<(), AllocError>
    ensures { OnOk result (out.new.items ≡ out.old.items ++ spaced word.now) }
{
    out.push(b' ')?;
    out.extend_from_slice(word.as_bytes())
}

pub(crate) fn push_number(alloc: Global, out: &mut Vec<u8>, number: u64) -> Result<(), AllocError>
    ensures { OnOk result (out.new.items ≡ out.old.items ++ spaced (decimal number)) }
{
    let digits = number.to_string(alloc)?;
    push_word(out, &digits)
}

pub(crate) fn push_signed(alloc: Global, out: &mut Vec<u8>, number: i64) -> Result<(), AllocError>
    ensures { OnOk result (out.new.items ≡ out.old.items ++ spaced (signed_decimal number)) }
{
    let digits = number.to_string(alloc)?;
    push_word(out, &digits)
}

pub(crate) fn push_node(alloc: Global, out: &mut Vec<u8>, node: NodeId) -> Result<(), AllocError>
    ensures { OnOk result (out.new.items ≡ out.old.items ++ spaced (decimal node)) }
{
    push_number(alloc, out, u64::from(node.number()))
}

/// Cassandra's name of a level.
fn level_name(level: Level) -> &'static str
    ensures { result.now ≡ name_of_level level }
{
    match level {
        Level::One => "ONE",
        Level::Two => "TWO",
        Level::Three => "THREE",
        Level::Quorum => "QUORUM",
        Level::All => "ALL",
        Level::LocalQuorum => "LOCAL_QUORUM",
        Level::Serial => "SERIAL",
        Level::LocalSerial => "LOCAL_SERIAL",
        Level::LocalOne => "LOCAL_ONE",
    }
}

pub(crate) fn push_level(out: &mut Vec<u8>, level: Level) -> Result<(), AllocError>
    ensures { OnOk result (out.new.items ≡ out.old.items ++ spaced (name_of_level level)) }
{
    push_word(out, level_name(level))
}

fn outcome_name(outcome: Outcome) -> &'static str
    ensures { result.now ≡ name_of_outcome outcome }
{
    match outcome {
        Outcome::Kept => "kept",
        Outcome::Lost => "lost",
        Outcome::Torn => "torn",
    }
}

pub(crate) fn push_outcome(out: &mut Vec<u8>, outcome: Outcome) -> Result<(), AllocError>
    ensures { OnOk result (out.new.items ≡ out.old.items ++ spaced (name_of_outcome outcome)) }
{
    push_word(out, outcome_name(outcome))
}

/// What a mark says of the peer.
fn up_name(up: bool) -> &'static str
    ensures { result.now ≡ name_of_up up }
{
    if up { "up" } else { "down" }
}

pub(crate) fn push_up(out: &mut Vec<u8>, up: bool) -> Result<(), AllocError>
    ensures { OnOk result (out.new.items ≡ out.old.items ++ spaced (name_of_up up)) }
{
    push_word(out, up_name(up))
}
