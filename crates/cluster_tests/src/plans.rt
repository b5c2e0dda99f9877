//! What clients ask in tests: of one partition, whose cells they write and whose rows they read.

use crate::words::{level, word};
use changes::{Bound, Draft, DraftMutation, Partition, Place, Query};
use cs_base::{Bytes, Items, Text};
use peer_messages::{Ask, Plan};
use statement_plan::{Columns, Fault};
use std::alloc::{AllocError, Global};

fn partition(alloc: Global) -> Result<Partition, AllocError> {
    Ok(Partition {
        table: 0,
        token: 1,
        key: Bytes::from_slice(alloc, b"k")?,
    })
}

fn draft(alloc: Global, line: &str) -> Result<Draft, AllocError> {
    let row = Bytes::from_slice(alloc, word(line, 3).as_bytes())?;
    let value = Bytes::from_slice(alloc, word(line, 5).as_bytes())?;
    Ok(Draft {
        place: Place::Cell(row, 2),
        value: Some(value),
        timestamp: word(line, 4).parse().ok(),
    })
}

/// A write of a value to the cell of a row.
fn write(alloc: Global, line: &str) -> Result<Plan, AllocError> {
    let partition = partition(alloc)?;
    let changes = Items::from_vec(vec![in alloc; draft(alloc, line)?]?);
    Ok(Plan::Write(DraftMutation { partition, changes }))
}

fn bound(alloc: Global, after: bool) -> Bound {
    Bound {
        at: Bytes::new(alloc),
        after,
    }
}

/// A read of the whole partition.
fn read(alloc: Global) -> Result<Plan, AllocError> {
    let query = Query {
        partition: partition(alloc)?,
        from: bound(alloc, false),
        upto: bound(alloc, true),
        reversed: false,
        limit: 10,
    };
    Ok(Plan::Read(query, Columns::Count))
}

fn plan(alloc: Global, line: &str) -> Result<Plan, AllocError> {
    match word(line, 0) {
        "read" => read(alloc),
        "use" => Ok(Plan::Use(Text::from_str(alloc, word(line, 3))?)),
        "invalid" => Ok(Plan::Invalid(Fault::UnknownTable)),
        _ => write(alloc, line),
    }
}

/// What a line asks for: `write NODE LEVEL ROW TIMESTAMP VALUE`, `read NODE LEVEL`, `use NODE LEVEL KEYSPACE` or
/// `invalid NODE LEVEL`.
pub(crate) fn ask(alloc: Global, line: &str) -> Result<Ask, AllocError> {
    Ok(Ask {
        plan: plan(alloc, line)?,
        level: level(word(line, 2)),
    })
}
