//! What the tests of all kinds share: tables of lines, lists, and what is shown of values.

use cs_base::Items;
use std::alloc::{AllocError, Global};
use std::fmt::Debug;
use std::process::Abort;
use std::test::Fail;

/// Asserts that each line of a table holds.
pub fn each_line<F: Fn(Global, &str) -> Result<bool, Fail>>(
    rt: &impl Abort,
    alloc: Global,
    table: &str,
    holds: F,
) -> Result<(), Fail>
    requires { F.IsAlwaysCallable holds }
{
    for line in table.lines() {
        assert!(rt; holds(alloc, line)?, "{line}");
    }
    Ok(())
}

/// What is shown of a value.
pub fn show<T: Debug + Drop>(alloc: Global, value: T) -> Result<String, AllocError> {
    format!(in alloc; "{value:?}")
}

/// Whether this is shown of a value.
pub fn is_shown<T: Debug + Drop>(alloc: Global, value: T, want: &str) -> Result<bool, AllocError> {
    Ok(show(alloc, value)?.as_str() == want)
}

/// Adds an item at the end.
pub fn push<T: Drop>(items: &mut Items<T>, item: T) -> Result<(), AllocError> {
    items.push(item)?;
    Ok(())
}
