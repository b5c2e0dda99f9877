//! Rows of the tests' tables.

use frame_bodies::BodyError;
use std::alloc::{AllocError, Global};
use std::fmt::Debug;
use std::process::Abort;
use std::test::Fail;

/// What stands before the first space of a line, and what stands behind it.
pub fn word(line: &str) -> (&str, &str) {
    line.split_once(' ').unwrap_or((line, ""))
}

/// Asserts that each line of a table holds.
pub fn each_line<F: Fn(Global, &str) -> Result<bool, Fail>>(
    rt: &impl Abort,
    alloc: Global,
    table: &str,
    holds: F,
) -> Result<(), Fail>
    requires { F.IsAlwaysCallable holds }
{
    for line in table.lines() {
        assert!(rt; holds(alloc, line)?, "{line}");
    }
    Ok(())
}

/// Whether this is shown of a value.
pub fn is_shown<T: Debug + Drop>(alloc: Global, value: &T, want: &str) -> Result<bool, AllocError> {
    Ok(format!(in alloc; "{value:?}")?.as_str() == want)
}

/// Whether a body is refused for this, or is `taken`.
pub fn is_fault(alloc: Global, fault: Option<BodyError>, want: &str) -> Result<bool, AllocError> {
    match fault {
        Some(fault) => is_shown(alloc, &fault, want),
        None => Ok(want == "taken"),
    }
}
