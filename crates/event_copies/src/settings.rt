//! Copies of settings.

ghost use Rattle.std.specs.Prelude.{◌≡◌, IfOk};

use cs_base::Items;
use peer_messages::{Setting, TableSetting, TableSettings};
use std::alloc::{AllocError, Global};

fn copy_tables(alloc: Global, tables: &[TableSetting]) -> Result<TableSettings, AllocError>
    ensures { IfOk result (λ copy. copy ≡ tables.now) }
{
    let mut copy = Items::new(alloc);
    for table in tables {
        copy.push(*table)?;
    }
    Ok(copy)
}

/// An equal setting in memory of its own.
pub fn copy_setting(alloc: Global, setting: &Setting) -> Result<Setting, AllocError>
    ensures { IfOk result (λ copy. copy ≡ setting.now) }
{
    Ok(Setting {
        ring: setting.ring,
        tables: copy_tables(alloc, setting.tables.as_slice())?,
        expiry: setting.expiry,
    })
}
