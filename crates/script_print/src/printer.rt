//! The printer.

ghost use Rattle.std.specs.Prelude.{◌≡◌, IfOk};
ghost use Rattle.script_print.specs.Printed.{printed};

use crate::events::push_events;
use crate::head::{push_head, push_statements};
use fault_script::Script;
use std::alloc::{AllocError, Global};

/// The text of a script: its head, where `grace` and `expiry` stand only if they are not the usual ones, its statements
/// as they are written, `run`, and a line for each event. Words have one space between them, and each line ends with a
/// line feed. An `Err` is for want of memory. Cost: the length of the text.
pub fn print(alloc: Global, script: &Script) -> Result<Vec<u8>, AllocError>
    ensures { IfOk result (λ text. text.items ≡ printed script.now) }
{
    let mut out = Vec::new(alloc);
    push_head(alloc, &mut out, script)?;
    push_statements(&mut out, script.statements.as_slice())?;
    out.extend_from_slice(b"run\n")?;
    push_events(alloc, &mut out, script.events.as_slice())?;
    Ok(out)
}
