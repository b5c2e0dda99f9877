//! Nodes, each a replica, stepped by hand: what is lost, repeated and reordered, each refusal, steps that a node does not take,
//! messages that count for nothing, and nodes that have failed.

use crate::talk::unlike;
use crate::words::word;
use std::alloc::{AllocError, Global};
use std::test::Fail;

/// What comes in each line, and behind the colon what is told then.
const TALK: &str = "load 0 3 formatted -- A quorum acknowledges a write, once:
load 1 3 formatted:
write 0 QUORUM a 5 x: submitted
hear 1 0:
hear 0 1: acked>01
ack 0 1 1:
load 0 3 formatted -- Distinct replicas are counted:
write 0 ALL a 5 x: submitted
ack 0 1 1:
ack 0 1 1:
ack 0 5 1:
ack 0 2 1: acked>012
load 0 3 formatted -- A quorum answers a read, and a node takes in what it lacked:
load 1 3 formatted:
write 0 ONE a 5 x: acked>0
read 1 ONE: 0 shown
read 1 QUORUM: began
hear 0 1:
hear 1 0: 1 shown x
read 1 ONE: 1 shown x
load 0 3 formatted -- A read waits for a quorum, and a write for two:
read 0 QUORUM: began
write 0 TWO a 5 x: submitted
load 0 3 formatted -- Of two writes the later one comes first, and order does not matter:
load 1 3 formatted:
write 0 ALL a 5 e: submitted
write 0 ALL a 6 l: submitted
hear 1 0:
hear 1 0:
read 1 LOCAL_ONE: 1 shown l
load 0 1 formatted -- Requests are refused:
write 0 TWO a 5 x: Unavailable { required: 2, alive: 1 }
write 0 SERIAL a 5 x: Invalid(SerialWrite)
read 0 LOCAL_SERIAL: Invalid(Level)
read 0 ALL: 0 shown
load 0 1 formatted -- Statements without a partition are answered:
use 0 SERIAL ks: used
invalid 0 ALL: Invalid(Statement(UnknownTable))
load 0 3 formatted -- Dead replicas are not asked, and a write at each turn leaves a hint for a node that is marked down:
down 0 1:>1
spread 0 QUORUM a 5 x: write>2 submitted
down 0 1:>1
spread 0 QUORUM a 5 x: write>2 submitted
down 0 0:>1
spread 0 QUORUM a 5 x: write>2 submitted
down 0 5:>1
spread 0 QUORUM a 5 x: write>2 submitted
up 0 2:>1
spread 0 QUORUM a 5 x: write>2 submitted
up 0 1: hint>1 hint>1 hint>1 hint>1 hint>1>
spread 0 QUORUM a 5 x: write>1 write>2 submitted
down 0 2:>2
spread 0 QUORUM a 5 x: write>1 submitted
crash 0 lost:
up 0 0:>
load 0 3 formatted -- Too few replicas are alive:
down 0 1:>1
down 0 2:>12
read 0 TWO: Unavailable { required: 2, alive: 1 }
write 0 ONE a 5 x: acked>0
load 0 1 formatted -- Time has an end:
clock 18446744073709551615:
tick 0: 4611686018427387904
load 0 3 late -- No time is left:
tick 0: 9223372036852678656
tick 0: no room
read 0 ONE: no room
load 0 3 formatted -- A fault that comes later is not met:
fault 0 5 fails:
write 0 ONE a 5 x: acked>0
read 0 ONE: 1 shown x
write 0 ONE a 6 y: failed 0 began at 3 0 submitted at 3
load 0 3 formatted -- A message from more than a minute ahead of the node's time and its clock is refused, and its time is not taken:
load 1 3 formatted:
write 1 ONE a 5 x: acked>1
date 60000000 1:
judge 0 1: taken 60000001 ack>1
read 0 ONE: 1 shown x
load 0 3 formatted:
load 1 3 formatted:
write 1 ONE a 5 x: acked>1
date 60000001 1:
judge 0 1: refused 1
read 0 ONE: 0 shown
load 0 3 formatted:
load 1 3 formatted:
write 1 ONE a 5 x: acked>1
date 60000007 1:
clock 7:
judge 0 1: taken 60000008 ack>1
read 0 ONE: 1 shown x
load 0 3 formatted:
load 1 3 formatted:
write 1 ONE a 5 x: acked>1
date 60000008 1:
clock 7:
judge 0 1: refused 7
read 0 ONE: 0 shown
load 0 3 formatted:
load 1 3 formatted:
write 1 ONE a 5 x: acked>1
date 18446744073709551615 18446744073709551615:
judge 0 1: refused 1
read 0 ONE: 0 shown
load 0 3 formatted -- One that is too old is refused behind it:
load 1 3 formatted:
write 1 ONE a 5 x: acked>1
date 1 1:
clock 1000000001:
judge 0 1: taken 1000000001 ack>1
read 0 ONE: 1 shown x
load 0 3 formatted:
load 1 3 formatted:
write 1 ONE a 5 x: acked>1
date 1 1:
clock 1000000002:
judge 0 1: refused 1000000002
read 0 ONE: 0 shown
load 0 3 formatted:
load 1 3 formatted:
write 1 ONE a 5 x: acked>1
date 1000000000 1:
clock 1000000001:
judge 0 1: taken 1000000001 ack>1
read 0 ONE: 1 shown x
load 0 3 formatted:
load 1 3 formatted:
write 1 ONE a 5 x: acked>1
date 1000000001 1:
clock 1000000001:
judge 0 1: refused 1000000002
read 0 ONE: 0 shown
load 0 3 formatted -- 1,024 requests may wait for an answer:
often write 0 QUORUM a 5 x: submitted
often read 0 QUORUM: began
read 0 ONE: Overloaded
write 0 ONE a 5 x: Overloaded
write 0 SERIAL a 5 x: Invalid(SerialWrite)
load 0 3 full -- Where a partition would be too large nothing has happened, no time has passed, and there is room for one byte less:
write 0 ONE b 5 x: too large Partition { token: 1, table: 0, key: [107] }
tick 0: 1
write 0 ONE b 5: acked>0
";

#[test]
fn nodes_tell_what_they_are_to(rt: HostRuntime) -> Result<(), Fail> {
    let unlike = unlike(rt.alloc(), TALK)?;
    assert!(rt; unlike.is_empty(), "{unlike}");
    Ok(())
}

/// Three nodes, of which node 1 has written.
const BEFORE: &str = "load 0 3 formatted:
load 1 3 formatted:
write 1 ONE a 5 x: acked>1
date 1 1:
";

/// A write fails, and tells that it began and was submitted. Then the node answers that it has failed, and tells nothing else.
const DYING: &str = "write 0 ONE a 5 x: failed 0 began at 1 0 submitted at 1
clock 9:
write 0 ONE a 6 y: failed
read 0 ONE: failed
hear 0 1: failed
flush 0: failed
tick 0: failed
clock 0:
";

/// Behind a load the cell and the ceiling are there, or neither.
const THERE: &str = "read 0 ONE: 1 shown x
tick 0: 1000003
";

const GONE: &str = "read 0 ONE: 0 shown
tick 0: 2
";

/// What a crash makes of a write, the fault and the call of the store at which it comes, and whether the write has to be there.
///
/// A commit has four calls; the third one writes what counts.
const FAULTS: &str = "kept fails 1 gone
kept fails 2 gone
kept fails 3 gone
kept fails 4 there
kept stops 1 gone
kept stops 2 gone
kept stops 3 there
kept stops 4 there
lost fails 1 gone
lost fails 2 gone
lost fails 3 gone
lost fails 4 gone
lost stops 1 gone
lost stops 2 gone
lost stops 3 gone
lost stops 4 gone
torn fails 1 either
torn fails 2 either
torn fails 3 either
torn fails 4 either
torn stops 1 either
torn stops 2 either
torn stops 3 either
torn stops 4 either";

/// Whether a node that fails as a row says answers nothing, and has this once it is loaded again.
fn fails_so(alloc: Global, row: &str, ending: &str) -> Result<bool, AllocError> {
    let (outcome, how, call) = (word(row, 0), word(row, 1), word(row, 2));
    let talk = format!(in alloc;
        "{BEFORE}fault 0 {call} {how} {outcome}:\n{DYING}crash 0 {outcome}:\n{ending}"
    )?;
    Ok(unlike(alloc, talk.as_str())?.is_empty())
}

/// The first row that does not hold, or nothing.
fn failing(alloc: Global) -> Result<&'static str, AllocError> {
    for row in FAULTS.lines() {
        let there = fails_so(alloc, row, THERE)?;
        let gone = fails_so(alloc, row, GONE)?;
        let holds = match word(row, 3) {
            "there" => there,
            "gone" => gone,
            _ => there || gone,
        };
        if !holds {
            return Ok(row);
        }
    }
    Ok("")
}

#[test]
fn a_node_that_failed_answers_nothing(rt: HostRuntime) -> Result<(), Fail> {
    let failing = failing(rt.alloc())?;
    assert!(rt; failing.is_empty(), "{failing}");
    Ok(())
}
