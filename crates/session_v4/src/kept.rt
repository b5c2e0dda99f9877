//! The prepared statements that a connection keeps, from the oldest on.

ghost use Rattle.std.specs.Prelude.{◌≡◌, OnOk, OnErr, IfOk, option_copied};
ghost use Rattle.session_v4.specs.Kept.{id_of as id_of_text, keep as kept_with, kept_if as kept_where, kept_at as kept_at_id, keyspace_or_none};

use cs_base::{Bytes, Items, Text};
use prepared_statement::Prepared;
use std::alloc::{AllocError, Global};
use std::mem;

/// The most that are kept.
const MOST_KEPT: usize = 1024;

/// A statement that was prepared, and its id.
#[derive(Drop)]
pub(crate) struct KeptStatement {
    pub id: Bytes,
    pub prepared: Prepared,
}

/// Prepared statements, from the oldest on.
pub(crate) type KeptList = Items<KeptStatement>;

/// The id of a text that is prepared with this keyspace in use: the keyspace's name, a zero byte, and the text.
pub(crate) fn id_of(alloc: Global, used: Option<&str>, text: &str) -> Result<Bytes, AllocError>
    ensures { IfOk result (λ id. id ≡ id_of_text (option_copied used.entry) text.now) }
{
    let keyspace = used.unwrap_or("");
    let mut id = Vec::new(alloc);
    id.extend_from_slice(keyspace.as_bytes())?;
    id.push(0)?;
    id.extend_from_slice(text.as_bytes())?;
    Ok(Bytes::from_vec(id))
}

/// The statement of an id.
pub(crate) fn kept_at<'a>(kept: &'a [KeptStatement], id: &[u8]) -> Option<&'a KeptStatement>
    ensures { option_copied result ≡ kept_at_id kept.now id.now }
{
    kept.iter().find(|statement| statement.id.as_slice() == id)
}

/// Adds a statement, and puts out the oldest where there are as many as can be. One whose id is kept stays as it is.
fn keep(kept: &mut Vec<KeptStatement>, statement: KeptStatement) -> Result<(), AllocError>
    ensures ok { OnOk result (kept.new.items ≡ kept_with kept.old.items statement) }
    ensures err { OnErr result (kept.new.items ≡ kept.old.items) }
{
    if kept_at(kept.as_slice(), statement.id.as_slice()).is_some() {
        return Ok(());
    }
    kept.push(statement)?;
    if kept.len() > MOST_KEPT {
        kept.remove(0);
    }
    Ok(())
}

/// Adds a statement that may be kept.
pub(crate) fn keep_if(
    kept: &mut Vec<KeptStatement>,
    may_be: bool,
    statement: KeptStatement,
) -> Result<(), AllocError>
    ensures ok { OnOk result (kept.new.items ≡ kept_where may_be kept.old.items statement) }
    ensures err { OnErr result (kept.new.items ≡ kept.old.items) }
{
    if may_be {
        keep(kept, statement)
    } else {
        Ok(())
    }
}
