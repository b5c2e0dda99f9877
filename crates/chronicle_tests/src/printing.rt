//! Handmade chronicles, and how they are printed.

use cell_merge::Content;
use changes::{Bound, Mutation, Partition, Query, ShownCell, ShownRow, ShownRows};
use chronicle_pieces::{Alive, Halted, Piece, Stepped};
use chronicle_print::print_chronicle;
use cs_base::{Bytes, Items, Level, Micros, NodeId, ReqId, Text};
use peer_messages::{Entry, Grounds, Invalid, Refusal};
use schema_book::Schema;
use statement_plan::{Columns, Fault, Feature};
use std::alloc::Global;
use std::test::Fail;

/// The request of node 0 at this time.
fn id(time: u64) -> ReqId {
    ReqId {
        node: NodeId::FIRST,
        time: Micros::new(time),
    }
}

fn partition(alloc: Global) -> Result<Partition, Fail> {
    Ok(Partition {
        table: 0,
        token: 5,
        key: Bytes::from_slice(alloc, b"k")?,
    })
}

fn submitted(alloc: Global, request: ReqId) -> Result<Entry, Fail> {
    let mutation = Mutation {
        partition: partition(alloc)?,
        changes: Items::new(alloc),
    };
    Ok(Entry::Submitted(request, mutation))
}

/// The start of a read, of which these columns are shown, or the number of rows.
fn began(alloc: Global, request: ReqId, listed: Option<&[u8]>) -> Result<Entry, Fail> {
    let query = Query {
        partition: partition(alloc)?,
        from: Bound {
            at: Bytes::new(alloc),
            after: false,
        },
        upto: Bound {
            at: Bytes::new(alloc),
            after: true,
        },
        reversed: false,
        limit: 2,
    };
    let columns = match listed {
        Some(numbers) => Columns::Listed(Items::from_vec(Vec::from_slice(alloc, numbers)?)),
        None => Columns::Count,
    };
    Ok(Entry::Began(request, query, Level::Quorum, columns))
}

/// The schema of `script.kv` alone.
fn schema(alloc: Global) -> Result<Schema, Fail> {
    Ok(Schema::from_statements(alloc, &Items::new(alloc), 1, 1, 0)?)
}

fn acked(alloc: Global, request: ReqId) -> Entry {
    Entry::Acked(request, Level::One, Items::new(alloc))
}

fn rows(alloc: Global, request: ReqId, rows: ShownRows) -> Entry {
    let grounds = Grounds {
        heard: Items::new(alloc),
        merged: Content::new(alloc),
    };
    Entry::Rows(request, rows, true, grounds)
}

/// A row with these order bytes and a cell of this column.
fn row(alloc: Global, order: &[u8], column: u8, value: &[u8]) -> Result<ShownRow, Fail> {
    let mut cells = Items::new(alloc);
    cells.push(ShownCell {
        column,
        value: Bytes::from_slice(alloc, value)?,
    })?;
    Ok(ShownRow {
        row: Bytes::from_slice(alloc, order)?,
        cells,
    })
}

/// A step of node 0 that began this request, and has these entries of its own.
fn step(started: Option<ReqId>, entries: Vec<Entry>) -> Piece {
    Piece::Stepped(Stepped {
        node: NodeId::FIRST,
        started,
        alive: Alive::new(),
        time: Micros::new(7),
        entries: Items::from_vec(entries),
        tables: None,
    })
}

/// Two writes, the second of which its node could not begin.
fn add_writes(alloc: Global, pieces: &mut Vec<Piece>) -> Result<(), Fail> {
    let own = vec![in alloc; submitted(alloc, id(7))?, acked(alloc, id(7))]?;
    pieces.push(step(Some(id(7)), own))?;
    let refusal = Refusal::Unavailable {
        required: 2,
        alive: 1,
    };
    pieces.push(Piece::Turned(NodeId::FIRST, refusal))?;
    Ok(())
}

/// A read that is answered with two rows.
fn add_read(alloc: Global, pieces: &mut Vec<Piece>) -> Result<(), Fail> {
    let mut shown = Items::new(alloc);
    shown.push(row(alloc, b"it's\x00\x00", 2, b"it's")?)?;
    shown.push(row(alloc, b"b\x00\xff\x00\x00", 3, b"x")?)?;
    let own = vec![in alloc; began(alloc, id(9), None)?]?;
    pieces.push(step(Some(id(9)), own))?;
    pieces.push(step(None, Vec::new(alloc)))?;
    let listed = began(alloc, id(9), Some(&[1, 2, 0]))?;
    let own = vec![in alloc; listed, rows(alloc, id(9), shown)]?;
    pieces.push(step(None, own))?;
    Ok(())
}

/// A count of one row and a keyspace, both in the step of the second request.
fn add_count(alloc: Global, pieces: &mut Vec<Piece>) -> Result<(), Fail> {
    let mut shown = Items::new(alloc);
    shown.push(row(alloc, b"b\x00\x00", 2, b"x")?)?;
    pieces.push(step(Some(id(10)), Vec::new(alloc)))?;
    let own = vec![in alloc;
        began(alloc, id(10), None)?,
        Entry::Used(id(11), Text::from_str(alloc, "ks")?),
        rows(alloc, id(10), shown),
    ]?;
    pieces.push(step(Some(id(11)), own))?;
    Ok(())
}

fn add_timeouts(own: &mut Vec<Entry>) -> Result<(), Fail> {
    own.push(Entry::Refused(
        id(7),
        Refusal::WriteTimeout {
            received: 1,
            blockfor: 3,
        },
    ))?;
    for data in [true, false] {
        own.push(Entry::Refused(
            id(9),
            Refusal::ReadTimeout {
                received: u8::from(data),
                blockfor: 2,
                data,
            },
        ))?;
    }
    Ok(())
}

/// An id that comes again, answers out of order, and one of a request that never came.
fn add_late(alloc: Global, pieces: &mut Vec<Piece>) -> Result<(), Fail> {
    let overloaded = Entry::Refused(id(9), Refusal::Overloaded);
    let mut own = vec![in alloc; acked(alloc, id(7)), overloaded]?;
    add_timeouts(&mut own)?;
    own.push(acked(alloc, id(8)))?;
    pieces.push(step(Some(id(7)), own))?;
    Ok(())
}

const PRINTED: &[u8] = b"1 ok
2 unavailable required 2 alive 1
3 rows 2
 'it''s' | 'it''s' | 'k'
 'b\x00' | null | 'k'
5 keyspace ks
4 rows 1
 1
6 ok
3 overloaded
6 write-timeout received 1 blockfor 3 SIMPLE
3 read-timeout received 1 blockfor 2 data 1
3 read-timeout received 0 blockfor 2 data 0
0 ok
";

#[test]
fn prints_a_chronicle(rt: HostRuntime) -> Result<(), Fail> {
    let alloc = rt.alloc();
    let mut pieces = Vec::new(alloc);
    add_writes(alloc, &mut pieces)?;
    add_read(alloc, &mut pieces)?;
    add_count(alloc, &mut pieces)?;
    add_late(alloc, &mut pieces)?;
    let schema = schema(alloc)?;
    let text = print_chronicle(alloc, schema.tables(), &pieces)?;
    assert_eq!(rt; text.as_slice(), PRINTED);
    Ok(())
}

const REFUSALS: &[u8] = b"1 invalid SerialWrite
2 invalid Level
3 invalid UnknownTable
4 invalid PartitionTooLarge
5 invalid NotSupported
";

#[test]
fn names_refusals(rt: HostRuntime) -> Result<(), Fail> {
    let alloc = rt.alloc();
    let mut pieces = Vec::new(alloc);
    let unsupported = Fault::NotSupported(Feature::Batch);
    for why in [
        Invalid::SerialWrite,
        Invalid::Level,
        Invalid::UnknownTable,
        Invalid::PartitionTooLarge,
        Invalid::Statement(unsupported),
    ] {
        pieces.push(Piece::Turned(NodeId::FIRST, Refusal::Invalid(why)))?;
    }
    let text = print_chronicle(alloc, &[], &pieces)?;
    assert_eq!(rt; text.as_slice(), REFUSALS);
    Ok(())
}

/// A node that stops at a request, is turned to while it does not run, and has tables once it runs again; one that stops
/// and was told to, which is not printed; and one that can't be loaded.
#[test]
fn tells_of_nodes(rt: HostRuntime) -> Result<(), Fail> {
    let alloc = rt.alloc();
    let node = NodeId::new(6).ok_or("no such node")?;
    let own = vec![in alloc; submitted(alloc, id(7))?]?;
    let pieces = vec![in alloc;
        Piece::Halted(Halted {
            node,
            started: Some(id(7)),
            entries: Items::from_vec(own),
            has_failed: true,
        }),
        Piece::Turned(node, Refusal::Down),
        Piece::Stepped(Stepped {
            node,
            started: None,
            alive: Alive::new(),
            time: Micros::new(7),
            entries: Items::new(alloc),
            tables: Some(u32::MAX),
        }),
        Piece::Halted(Halted {
            node: NodeId::FIRST,
            started: Some(id(8)),
            entries: Items::new(alloc),
            has_failed: false,
        }),
        Piece::Failed(NodeId::FIRST),
        Piece::Turned(NodeId::FIRST, Refusal::Down),
    ]?;
    let text = print_chronicle(alloc, &[], &pieces)?;
    let want = b"stopped 6\n2 down\ntables 6 4294967295\nstopped 0\n4 down\n";
    assert_eq!(rt; text.as_slice(), want.as_slice());
    Ok(())
}

/// What a step usually enters before and behind its own entries is printed among them as well.
#[test]
fn prints_own_entries_of_each_kind(rt: HostRuntime) -> Result<(), Fail> {
    let alloc = rt.alloc();
    let node = NodeId::FIRST;
    let own = vec![in alloc;
        Entry::Asked(Some(id(7))),
        Entry::Marks(node, Items::new(alloc)),
        Entry::Time(node, Micros::new(7)),
        Entry::Asked(None),
        Entry::Turned(node, Refusal::Overloaded),
        Entry::Tables(node, 3),
        Entry::Stopped(node),
        acked(alloc, id(7)),
    ]?;
    let pieces = vec![in alloc; step(None, own)]?;
    let text = print_chronicle(alloc, &[], &pieces)?;
    let want = b"2 overloaded\ntables 0 3\nstopped 0\n1 ok\n";
    assert_eq!(rt; text.as_slice(), want.as_slice());
    Ok(())
}

#[test]
fn prints_nothing_of_nothing(rt: HostRuntime) -> Result<(), Fail> {
    let text = print_chronicle(rt.alloc(), &[], &[])?;
    assert!(rt; text.is_empty());
    Ok(())
}
