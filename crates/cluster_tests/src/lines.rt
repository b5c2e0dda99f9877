//! Conversations, which are texts: what comes in each line, and behind its colon what is told then.

use std::alloc::{AllocError, Global};
use std::mem;

/// With whom a conversation is.
pub(crate) trait Partner: Drop {
    /// Takes a line, and tells what comes of it.
    fn take(&mut self, alloc: Global, out: &mut String, line: &str) -> Result<(), AllocError>;
}

/// Takes a line, and writes it with what is told now.
fn replay<P: Partner>(
    partner: &mut P,
    alloc: Global,
    out: &mut String,
    line: &str,
) -> Result<(), AllocError> {
    let (line, _) = line.split_once(':').unwrap_or((line, ""));
    out.push_str(line)?;
    out.push(':')?;
    partner.take(alloc, out, line)
}

/// Writes the first line that goes otherwise, as it goes now.
fn find_unlike<P: Partner>(
    partner: &mut P,
    alloc: Global,
    out: &mut String,
    talk: &str,
) -> Result<(), AllocError> {
    for line in talk.lines() {
        replay(partner, alloc, out, line)?;
        if out.as_str() != line {
            return Ok(());
        }
        out.clear();
    }
    Ok(())
}

/// The first line of a conversation that goes otherwise, as it goes now, or nothing.
pub(crate) fn unlike<P: Partner>(
    alloc: Global,
    partner: P,
    talk: &str,
) -> Result<String, AllocError> {
    let mut partner = partner;
    let mut out = String::new(alloc);
    let found = find_unlike(&mut partner, alloc, &mut out, talk);
    // A long log is let go of byte by byte, which takes as long as the rest.
    mem::forget(partner);
    found?;
    Ok(out)
}
