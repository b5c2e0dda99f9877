//! Conversations with coordinators, with what they go by, and with lists of nodes.

use crate::given::{markers, mutation, node, partition, request, setting};
use crate::told::{tell_list, tell_move, tell_needed, tell_nodes};
use cell_merge::Content;
use changes::{Bound, Query};
use cs_base::{Bytes, Items, Level, Micros};
use peer_messages::{Move, NodeIds, Setting, marked, with_heard};
use read_coord::ReadCoord;
use statement_plan::Columns;
use std::alloc::{AllocError, Global};
use std::test::Fail;
use write_coord::WriteCoord;

/// The nodes of these digits.
fn nodes(alloc: Global, digits: &str) -> Result<NodeIds, AllocError> {
    let mut nodes = Items::new(alloc);
    for digit in digits.bytes() {
        nodes.push(node(digit.wrapping_sub(b'0')))?;
    }
    Ok(nodes)
}

/// A read of a whole partition, of which nodes 1, 2 and 3 are the replicas.
fn whole(alloc: Global) -> Result<Query, AllocError> {
    Ok(Query {
        partition: partition(alloc, 0, -1)?,
        from: Bound {
            at: Bytes::new(alloc),
            after: false,
        },
        upto: Bound {
            at: Bytes::new(alloc),
            after: true,
        },
        reversed: false,
        limit: 9,
    })
}

/// A reply of these rows.
fn content(alloc: Global, rows: &str) -> Result<Content, AllocError> {
    Content::from_changes(alloc, markers(alloc, rows)?)
}

/// What begins a write, where these nodes are down.
fn open_write(alloc: Global, setting: &Setting, down: &str) -> Result<Move, AllocError> {
    let down = nodes(alloc, down)?;
    let written = mutation(alloc, 0, "r")?;
    write_coord::opening(alloc, setting, down.as_slice(), request(7), written)
}

/// What begins a read, where these nodes are down.
fn open_read(alloc: Global, setting: &Setting, down: &str) -> Result<Move, AllocError> {
    let down = nodes(alloc, down)?;
    let query = whole(alloc)?;
    read_coord::opening(
        alloc,
        setting,
        down.as_slice(),
        request(7),
        Level::Two,
        query,
        Columns::Count,
    )
}

/// A write and a read that a node coordinates, and a list of nodes.
#[derive(Drop)]
struct Open {
    write: WriteCoord,
    read: ReadCoord,
    list: NodeIds,
}

impl Open {
    /// A write at QUORUM for which a hint was kept for each of these nodes, a read at the level, and no nodes.
    fn begin(alloc: Global, level: Level, hinted: &str) -> Result<Open, AllocError> {
        let hinted = nodes(alloc, hinted)?;
        let written = mutation(alloc, 0, "r")?;
        let write = WriteCoord::start(alloc, Level::Quorum, written, hinted)?;
        Ok(Open {
            write,
            read: ReadCoord::start(alloc, level, &whole(alloc)?)?,
            list: Items::new(alloc),
        })
    }

    /// The move that a word makes, with what stands behind it: an opening, or a step of the write or the read. Another word is an
    /// error.
    fn turn(
        &mut self,
        alloc: Global,
        setting: &Setting,
        verb: &str,
        first: &str,
        second: &str,
    ) -> Result<Move, AllocError> {
        let from = node(first.parse().unwrap_or(0));
        let start = request(first.parse().unwrap_or(0));
        let time = Micros::new(second.parse().unwrap_or(0));
        match verb {
            "write" => open_write(alloc, setting, first),
            "read" => open_read(alloc, setting, first),
            "ack" => self.write.on_ack(alloc, setting, request(7), from),
            "reply" => {
                let content = content(alloc, second)?;
                self.read
                    .on_reply(alloc, setting, request(7), from, content)
            }
            "mended" => self.read.on_mend_ack(alloc, request(7), from),
            "write-at" => self.write.at_time(alloc, setting, start, time),
            "read-at" => self.read.at_time(alloc, setting, start, time),
            _ => Err(AllocError),
        }
    }

    /// Begins anew.
    fn restart(&mut self, alloc: Global, level: Level, hinted: &str) -> Result<(), AllocError> {
        *self = Open::begin(alloc, level, hinted)?;
        Ok(())
    }

    /// Tells the replicas that have neither acknowledged the write nor got a hint.
    fn tell_unheard(
        &self,
        alloc: Global,
        setting: &Setting,
        out: &mut String,
    ) -> Result<(), AllocError> {
        let nodes = self.write.unheard(setting, alloc)?;
        tell_nodes(out, nodes.as_slice())
    }

    /// Tells whether a node's reply of these rows ends the read at once.
    fn tell_end(
        &self,
        alloc: Global,
        setting: &Setting,
        out: &mut String,
        from: &str,
        rows: &str,
    ) -> Result<(), AllocError> {
        let from = node(from.parse().unwrap_or(0));
        let ends = self.read.ends(setting, from, &content(alloc, rows)?);
        out.push_str(if ends { " true" } else { " false" })
    }

    /// Hears of one of the replicas 1, 2 and 4, or marks a node up or down, and tells what the list is then.
    fn list(
        &mut self,
        alloc: Global,
        out: &mut String,
        verb: &str,
        peer: &str,
    ) -> Result<(), AllocError> {
        let replicas = [node(1), node(2), node(4)];
        let peer = node(peer.parse().unwrap_or(0));
        let now = self.list.as_slice();
        self.list = match verb {
            "hear" => with_heard(alloc, &replicas, now, peer),
            _ => marked(alloc, now, peer, verb == "up"),
        }?;
        tell_list(alloc, out, self.list.as_slice(), peer)
    }

    /// Takes a step of a conversation, and tells what comes of it.
    fn hear(
        &mut self,
        alloc: Global,
        setting: &Setting,
        out: &mut String,
        step: &str,
    ) -> Result<(), AllocError> {
        let (verb, rest) = step.split_once(' ').unwrap_or((step, ""));
        let (first, second) = rest.split_once(' ').unwrap_or((rest, ""));
        match verb {
            "[Two]" => self.restart(alloc, Level::Two, ""),
            "[Quorum]" => self.restart(alloc, Level::Quorum, ""),
            "[Hinted]" => self.restart(alloc, Level::Two, "1"),
            "unheard" => self.tell_unheard(alloc, setting, out),
            "ends" => self.tell_end(alloc, setting, out, first, second),
            "hear" | "down" | "up" => self.list(alloc, out, verb, first),
            "all" => tell_needed(alloc, out, setting, Level::All, first),
            "quorum" => tell_needed(alloc, out, setting, Level::Quorum, first),
            _ => tell_move(out, &self.turn(alloc, setting, verb, first, second)?),
        }
    }

    /// The conversation anew: what comes is as it was, and what is told is told now.
    fn replay(
        &mut self,
        alloc: Global,
        setting: &Setting,
        talk: &str,
    ) -> Result<String, AllocError> {
        let mut out = String::new(alloc);
        for line in talk.lines() {
            let (step, _) = line.split_once(':').unwrap_or((line, ""));
            out.push_str(step)?;
            out.push(':')?;
            self.hear(alloc, setting, &mut out, step)?;
            out.push('\n')?;
        }
        Ok(out)
    }
}

fn replayed(alloc: Global, talk: &str) -> Result<String, AllocError> {
    let setting = setting(alloc)?;
    Open::begin(alloc, Level::Two, "")?.replay(alloc, &setting, talk)
}

/// What comes in each line, and behind the colon what is told then. Brackets begin anew: with a write at QUORUM, a read at the
/// level in the brackets, and an empty list of nodes; or with a write for which a hint was kept for node 1.
const TALK: &str = "[Two] A write goes to replicas that are alive:
write: write>1 write>2 write>3 submitted
write 02: write>1 write>3 submitted
write 312: submitted
[Two] It is answered once at a quorum, and done with at the last replica's acknowledgement:
ack 0:
ack 2:
ack 2:
ack 3: acked>23
ack 3:
ack 1: over
[Two] One that is answered is told nothing more at its deadline:
ack 2:
ack 3: acked>23
write-at 7 5000006:
write-at 7 5000007: over
[Two] At its deadline one is told who has acknowledged it, where node 0 is no replica and node 2 counts once:
ack 0:
ack 2:
ack 2:
write-at 7 0:
write-at 7 5000006:
write-at 7 5000007: WriteTimeout { received: 1, blockfor: 2 } over
write-at 7 5000008: WriteTimeout { received: 1, blockfor: 2 } over
write-at 7 18446744073709551615: WriteTimeout { received: 1, blockfor: 2 } over
write-at 18446744073704551615 18446744073709551614:
write-at 18446744073704551615 18446744073709551615: WriteTimeout { received: 1, blockfor: 2 } over
write-at 18446744073704551616 18446744073709551615:
[Hinted] It needs no acknowledgement of whom a hint waits for:
unheard:>23
ack 3:
unheard:>2
ack 2: acked>32 over
[Two] A read asks replicas that are alive:
read: read>1 read>2 read>3 began
read 02: read>1 read>3 began
read 312: began
[Two] It merges two replies, where node 0 is no replica and the second reply of node 1 counts for nothing:
reply 0 z:
reply 1 ab:
reply 1 c:
reply 3 ab: [ShownRow { row: [97], cells: Items { items: [] } }, ShownRow { row: [98], cells: Items { items: [] } }]>13 over
[Quorum] A reply that agrees ends it:
reply 1 ab:
ends 0 ab: false
ends 1 ab: false
ends 2 a: false
ends 2 ab: true
[Quorum] Who lacks a row is mended, and a third reply is too late, as is what comes of those that are not waited for:
reply 1 ab:
reply 2 b: mend>2
reply 3 c:
mended 1:
mended 3:
mended 2: [ShownRow { row: [97], cells: Items { items: [] } }, ShownRow { row: [98], cells: Items { items: [] } }]>12 over
[Quorum] It is so where the first reply lacks a row:
reply 1 a:
reply 2 ab: mend>1
reply 3 c:
mended 2:
mended 3:
mended 1: [ShownRow { row: [97], cells: Items { items: [] } }, ShownRow { row: [98], cells: Items { items: [] } }]>12 over
[Quorum] It is so where the second reply has none:
reply 1 ab:
reply 2: mend>2
reply 3 c:
mended 1:
mended 3:
mended 2: [ShownRow { row: [97], cells: Items { items: [] } }, ShownRow { row: [98], cells: Items { items: [] } }]>12 over
[Two] At its deadline it has no data without a reply:
read-at 7 5000007: ReadTimeout { received: 0, blockfor: 2, data: false } over
[Two] It is told who has the merge:
reply 1 a:
reply 2 b: mend>1 mend>2
read-at 7 5000007: ReadTimeout { received: 0, blockfor: 2, data: true } over
mended 2:
read-at 7 5000007: ReadTimeout { received: 1, blockfor: 2, data: true } over
[Two] It is told who has replied, where node 0 is no replica and node 1 counts once:
reply 0 a:
reply 1 a:
reply 1 a:
read-at 7 0:
read-at 7 5000006:
read-at 7 5000007: ReadTimeout { received: 1, blockfor: 2, data: true } over
read-at 7 5000008: ReadTimeout { received: 1, blockfor: 2, data: true } over
read-at 7 18446744073709551615: ReadTimeout { received: 1, blockfor: 2, data: true } over
read-at 18446744073704551615 18446744073709551614:
read-at 18446744073704551615 18446744073709551615: ReadTimeout { received: 1, blockfor: 2, data: true } over
read-at 18446744073704551616 18446744073709551615:
[Two] Replicas 1, 2 and 4 are heard of once:
hear 2:>2 true 1 2>14
hear 2:>2 true 1 2>14
hear 3:>2 false 1 2>14
hear 4:>24 true 2 1>1
hear 1:>241 true 3 0>
hear 1:>241 true 3 0>
[Two] Nodes are marked down once:
down 1:>1 true 1 2>24
down 1:>1 true 1 2>24
down 3:>13 true 1 2>24
down 4:>134 true 2 1>2
up 2:>134 false 2 1>2
up 1:>34 false 1 2>12
up 1:>34 false 1 2>12
[Two] A level needs replicas by the factor of the table:
all 1: 2 true>01
quorum 0: 2 true>012
all 0: 3 true>012
all 2: 0 false>
";

#[test]
fn tells_what_it_is_to(rt: HostRuntime) -> Result<(), Fail> {
    let told = replayed(rt.alloc(), TALK)?;
    assert!(rt; told.as_str() == TALK, "{told}");
    Ok(())
}
