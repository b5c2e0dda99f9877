//! Scripts, and what they mean, written by hand.

use cs_base::NodeId;
use fault_script::{
    CqlRequest, GetRequest, MessagePlace, ParseError, PutRequest, Script, ScriptError, ScriptEvent,
    ScriptEvents, parse,
};
use std::alloc::{AllocError, Global};
use std::fmt::Write;
use std::test::Fail;

/// A line at three nodes, and what it does.
const EVENTS: &str = "put 0 QUORUM k a 5 x|put 0 Quorum k a 5 x
put 2 LOCAL_ONE  k  a -0012  x=1|put 2 LocalOne k a -12 x=1
put 1 ONE put get 9223372036854775807 drop|put 1 One put get 9223372036854775807 drop
put 1 ONE k a -9223372036854775808 x|put 1 One k a -9223372036854775808 x
get 1 TWO k|get 1 Two k
get 1 THREE k|get 1 Three k
get 1 ALL k|get 1 All k
get 1 LOCAL_QUORUM k|get 1 LocalQuorum k
get 1 SERIAL k|get 1 Serial k
get 002 LOCAL_SERIAL k|get 2 LocalSerial k
deliver 0 1 1|deliver 0 1 1
deliver 1 0 18446744073709551615|deliver 1 0 18446744073709551615
deliver 2 2 007|deliver 2 2 7
drop 2 1 0|drop 2 1 0
settle 1|settle 1
settle 0100000|settle 100000
put 0 ONE k a 5|Line(5)
put 0 ONE k a 5 x y|Line(5)
put 0 ONE k a +5 x|Line(5)
put x ONE k a 5 x|Line(5)
put 9 ANY k a 9223372036854775808 x y|Line(5)
put 0 ONE k a 9223372036854775808 x|Number(5)
put 0 ONE k a -9223372036854775809 x|Number(5)
put 3 ONE k a 5 x|Number(5)
put 0 ANY k a 5 x|Number(5)
Put 0 ONE k a 5 x|Line(5)
get 0 ONE|Line(5)
get 0 ONE k a|Line(5)
get -1 ONE k|Line(5)
get 3 ONE k|Number(5)
get 0 one k|Number(5)
get 0 EACH_QUORUM k|Number(5)
get 18446744073709551616 ONE k|Number(5)
get 0 ONE k |Line(5)
 get 0 ONE k|Line(5)
deliver 0 1|Line(5)
deliver 0 1 1 1|Line(5)
deliver 0 1 -1|Line(5)
deliver a 9 1|Line(5)
deliver 3 0 1|Number(5)
deliver 0 3 1|Number(5)
drop 0 1 18446744073709551616|Number(5)
drop 0 b 1|Line(5)
drop 0 1|Line(5)
settle|Line(5)
settle 1 1|Line(5)
settle x|Line(5)
settle 0|Number(5)
settle 100001|Number(5)
clock 0 5000001|clock 0 5000001
clock 2  018446744073709551615|clock 2 18446744073709551615
clock 0|Line(5)
clock 0 -1|Line(5)
clock 0 1 1|Line(5)
clock 3 1|Number(5)
clock 0 18446744073709551616|Number(5)
mark 0 1 up|mark 0 1 true
mark 02  1 down|mark 2 1 false
mark 0 0 up|Number(5)
mark 0 3 down|Number(5)
mark 3 0 up|Number(5)
mark 9 9 gone|Line(5)
mark 3 x up|Line(5)
mark x 3 down|Line(5)
mark 0 1 Up|Line(5)
mark 0 1|Line(5)
mark 0 1 up up|Line(5)
crash 0 kept|crash 0 Kept
crash 01 lost|crash 1 Lost
crash 2 torn|crash 2 Torn
crash 0|Line(5)
crash 0 Kept|Line(5)
crash 9 gone|Line(5)
crash 0 kept kept|Line(5)
crash x kept|Line(5)
crash 3 kept|Number(5)
stopat 1 4 kept|stopat 1 4 Kept
stopat 0 01 torn|stopat 0 1 Torn
stopat 0 4294967295 lost|stopat 0 4294967295 Lost
stopat 0 0 kept|Number(5)
stopat 0 4294967296 kept|Number(5)
stopat 3 1 kept|Number(5)
stopat 0 0 keep|Line(5)
stopat 0 kept|Line(5)
stopat 0 1|Line(5)
stopat 0 x kept|Line(5)
failat 0 2|failat 0 2
failat 2 4294967295|failat 2 4294967295
failat 0 0|Number(5)
failat 0 4294967296|Number(5)
failat 3 1|Number(5)
failat 0|Line(5)
failat 0 1 kept|Line(5)
restart 0|restart 0
restart 3|Number(5)
restart|Line(5)
restart 0 0|Line(5)
restart x|Line(5)
flush 002|flush 2
flush 3|Number(5)
flush|Line(5)
merge 1|merge 1
merge 18446744073709551616|Number(5)
merge 1 1|Line(5)
run|Line(5)
 |Line(5)
cql 0 ONE SELECT * FROM t WHERE k = 1|cql 0 One <SELECT * FROM t WHERE k = 1>
cql  02  QUORUM   USE ks;|cql 2 Quorum <USE ks;>
cql 1 ALL USE ks  |cql 1 All <USE ks  >
cql 0 ONE SELEC|Cql(5, 0)
cql 0 ONE   SELECT|Cql(5, 6)
cql 0 ONE USE ks USE|Cql(5, 7)
cql 0 ONE USE $|Cql(5, 4)
cql 0 ONE USE 'ks|Cql(5, 4)
cql 0 ONE |Cql(5, 0)
cql 0 ONE    |Cql(5, 0)
cql 0 ONE|Line(5)
cql 0 |Line(5)
cql 0|Line(5)
cql |Line(5)
cql|Line(5)
cql x ANY SELEC|Line(5)
cql 3 ONE SELEC|Number(5)
cql 0 ANY SELEC|Number(5)
 cql 0 ONE USE ks|Line(5)
cql0 ONE USE ks|Line(5)
schema USE ks|Line(5)
grace 5|Line(5)";

/// A script, with a slash for each line feed and an at sign for [`KEYSPACE`], and what it is: the tokens, what else the
/// head says, and how many statements, tables and events there are.
const SCRIPTS: &str =
    "cassandra-script 1/ring 0/rf 1/run|0 rf 1 grace 864000 expiry 10800 statements 0 tables 1 events 0
cassandra-script  1/ring  -3 0  3/rf 03/run/get 2 ALL k/get 0 ONE l/|-3 0 3 rf 3 grace 864000 expiry 10800 statements 0 tables 1 events 2
# a script/cassandra-script 1//#  /ring 5 -5/rf 2/run//get 1 ONE k/# end|5 -5 rf 2 grace 864000 expiry 10800 statements 0 tables 1 events 1
cassandra-script 1/ring 6 5 4 3 2 1 -0/rf 7/run/get 6 ONE k|6 5 4 3 2 1 0 rf 7 grace 864000 expiry 10800 statements 0 tables 1 events 1
cassandra-script 1/ring 9223372036854775807 -9223372036854775808/rf 1/run|9223372036854775807 -9223372036854775808 rf 1 grace 864000 expiry 10800 statements 0 tables 1 events 0
cassandra-script 1/ring 0/rf 1/grace 0/expiry 1000/run|0 rf 1 grace 0 expiry 1000 statements 0 tables 1 events 0
cassandra-script 1/ring 0/rf 1/grace  0100000000/run|0 rf 1 grace 100000000 expiry 10800 statements 0 tables 1 events 0
cassandra-script 1/ring 0/rf 1/expiry 100000/run|0 rf 1 grace 864000 expiry 100000 statements 0 tables 1 events 0
cassandra-script 1/ring 0/rf 1/@/schema  CREATE TABLE ks.t (k int PRIMARY KEY) /run/cql 0 ONE USE ks|0 rf 1 grace 864000 expiry 10800 statements 2 tables 2 events 1
cassandra-script 1/ring 0/rf 1/grace 5/expiry 5000/@//# and/run|0 rf 1 grace 5 expiry 5000 statements 1 tables 1 events 0
|Head(1)
cassandra-script 01|Head(1)
cassandra-script 1 1|Head(1)
cassandra-script 1|Head(2)
cassandra-script 1/ring|Head(2)
cassandra-script 1/ring 1 2 3 4 5 6 7 8|Head(2)
cassandra-script 1/ring 1 2 3 4 5 6 7 99999999999999999999|Head(2)
cassandra-script 1/ring --1|Head(2)
cassandra-script 1/ring 9223372036854775808 x|Head(2)
cassandra-script 1/ring 1 1 9223372036854775808|Number(2)
cassandra-script 1/ring -9223372036854775809|Number(2)
cassandra-script 1/ring 4 5 04|Head(2)
cassandra-script 1/ring 0 -0|Head(2)
cassandra-script 1/rf 1|Head(2)
cassandra-script 1/ring 0 1 /rf 1|Head(2)
cassandra-script 1/ring 0 1/rf 0|Number(3)
cassandra-script 1/ring 0 1/rf 3|Number(3)
cassandra-script 1/ring 0 1/rf -1|Head(3)
cassandra-script 1/ring 0 1/rf 1 1|Head(3)
cassandra-script 1/ring 0 1/ring 0|Head(3)
cassandra-script 1/ring 0 1/schema USE ks|Head(3)
cassandra-script 1/ring 0 1/grace 5|Head(3)
cassandra-script 1/ring 0 1/rf 2|Head(4)
cassandra-script 1/ring 0 1/rf 2/run 1|Head(4)
cassandra-script 1/ring 0 1/rf 2/get 0 ONE k|Head(4)
cassandra-script 1/ring 0 1/rf 2/cql 0 ONE USE ks|Head(4)
cassandra-script 1/ring 0 1/rf 2/run/get 0 ONE k/get 2 ONE k/get|Number(6)
cassandra-script 1/ring 0/rf 1/grace 100000001|Number(4)
cassandra-script 1/ring 0/rf 1/grace -1|Head(4)
cassandra-script 1/ring 0/rf 1/grace|Head(4)
cassandra-script 1/ring 0/rf 1/grace 5 5|Head(4)
cassandra-script 1/ring 0/rf 1/grace 5 /run|Head(4)
cassandra-script 1/ring 0/rf 1/grace 5/grace 5|Head(5)
cassandra-script 1/ring 0/rf 1/expiry 999|Number(4)
cassandra-script 1/ring 0/rf 1/expiry 100001|Number(4)
cassandra-script 1/ring 0/rf 1/expiry x|Head(4)
cassandra-script 1/ring 0/rf 1/expiry 1000/grace 5|Head(5)
cassandra-script 1/ring 0/rf 1/@/grace 5|Head(5)
cassandra-script 1/ring 0/rf 1/@/expiry 5000|Head(5)
cassandra-script 1/ring 0/rf 1/@/get 0 ONE k|Head(5)
cassandra-script 1/ring 0/rf 1/@|Head(5)
cassandra-script 1/ring 0/rf 1/schema|Head(4)
cassandra-script 1/ring 0/rf 1/schema |Cql(4, 0)
cassandra-script 1/ring 0/rf 1/schema   USE|Cql(4, 3)
cassandra-script 1/ring 0/rf 1/schema SELEC/schema USE ks|Cql(4, 0)
cassandra-script 1/ring 0/rf 1/schema USE ks/run|Head(4)
cassandra-script 1/ring 0/rf 1/schema USE ks|Head(4)
cassandra-script 1/ring 0/rf 1/schema USE ks/schema SELEC|Head(4)
cassandra-script 1/ring 0/rf 1/@/# and/schema CREATE TABLE no.t (k int PRIMARY KEY)/@/expiry 1|Head(6)
cassandra-script 1/ring 0/rf 1/@/@/schema USE ks/run/get|Head(5)
cassandra-script 1/ring 0/rf 1/run/@|Line(5)";

const KEYSPACE: &str =
    "schema CREATE KEYSPACE ks WITH REPLICATION = {'class': 'SimpleStrategy', 'replication_factor': 1}";

fn written_out(alloc: Global, text: &str) -> Result<String, AllocError> {
    let mut lines = String::new(alloc);
    for character in text.chars() {
        match character {
            '/' => lines.push('\n')?,
            '@' => lines.push_str(KEYSPACE)?,
            _ => lines.push(character)?,
        }
    }
    Ok(lines)
}

fn write_put(shown: &mut String, put: &PutRequest) -> Result<(), Fail> {
    let node = put.node.number();
    let level = put.level;
    let key = put.key.as_str();
    let row = put.row.as_str();
    let timestamp = put.timestamp;
    let value = put.value.as_str();
    write!(
        shown,
        "put {node} {level:?} {key} {row} {timestamp} {value}"
    )?;
    Ok(())
}

fn write_get(shown: &mut String, get: &GetRequest) -> Result<(), Fail> {
    let node = get.node.number();
    let level = get.level;
    let key = get.key.as_str();
    write!(shown, "get {node} {level:?} {key}")?;
    Ok(())
}

fn write_cql(shown: &mut String, cql: &CqlRequest) -> Result<(), Fail> {
    let node = cql.node.number();
    let level = cql.level;
    let text = cql.text.as_str();
    write!(shown, "cql {node} {level:?} <{text}>")?;
    Ok(())
}

fn write_place(shown: &mut String, verb: &str, place: MessagePlace) -> Result<(), Fail> {
    let from = place.from.number();
    let upto = place.upto.number();
    let number = place.number;
    write!(shown, "{verb} {from} {upto} {number}")?;
    Ok(())
}

/// A line that names a node, and perhaps a number.
fn write_node(
    shown: &mut String,
    verb: &str,
    node: NodeId,
    number: Option<u64>,
) -> Result<(), Fail> {
    let node = node.number();
    write!(shown, "{verb} {node}")?;
    if let Some(number) = number {
        write!(shown, " {number}")?;
    }
    Ok(())
}

/// What befalls a node.
fn write_node_event(shown: &mut String, event: &ScriptEvent) -> Result<(), Fail> {
    match event {
        ScriptEvent::Clock(node, micros) => {
            write_node(shown, "clock", *node, Some(micros.count()))
        }
        ScriptEvent::Mark(node, peer, up) => {
            write_node(shown, "mark", *node, Some(u64::from(peer.number())))?;
            write!(shown, " {up}")?;
            Ok(())
        }
        ScriptEvent::Crash(node, outcome) => {
            write_node(shown, "crash", *node, None)?;
            write!(shown, " {outcome:?}")?;
            Ok(())
        }
        ScriptEvent::StopAt(node, call, outcome) => {
            write_node(shown, "stopat", *node, Some(u64::from(*call)))?;
            write!(shown, " {outcome:?}")?;
            Ok(())
        }
        ScriptEvent::FailAt(node, call) => {
            write_node(shown, "failat", *node, Some(u64::from(*call)))
        }
        ScriptEvent::Restart(node) => write_node(shown, "restart", *node, None),
        ScriptEvent::Flush(node) => write_node(shown, "flush", *node, None),
        ScriptEvent::Merge(node) => write_node(shown, "merge", *node, None),
        _ => Ok(()),
    }
}

fn write_event(shown: &mut String, event: &ScriptEvent) -> Result<(), Fail> {
    match event {
        ScriptEvent::Put(put) => write_put(shown, put),
        ScriptEvent::Get(get) => write_get(shown, get),
        ScriptEvent::Cql(cql) => write_cql(shown, cql),
        ScriptEvent::Deliver(place) => write_place(shown, "deliver", *place),
        ScriptEvent::Drop(place) => write_place(shown, "drop", *place),
        ScriptEvent::Settle(count) => {
            write!(shown, "settle {count}")?;
            Ok(())
        }
        _ => write_node_event(shown, event),
    }
}

fn shown_events(alloc: Global, events: &ScriptEvents) -> Result<String, Fail> {
    let mut shown = String::new(alloc);
    for event in events.as_slice() {
        write_event(&mut shown, event)?;
    }
    Ok(shown)
}

fn write_settings(shown: &mut String, script: &Script) -> Result<(), Fail> {
    let factor = script.factor;
    let grace = script.grace;
    let expiry = script.expiry;
    write!(shown, "rf {factor} grace {grace} expiry {expiry}")?;
    Ok(())
}

fn write_counts(shown: &mut String, script: &Script) -> Result<(), Fail> {
    let statements = script.statements.as_slice().len();
    let tables = script.schema.tables().len();
    let events = script.events.as_slice().len();
    write!(
        shown,
        " statements {statements} tables {tables} events {events}"
    )?;
    Ok(())
}

fn write_script(shown: &mut String, script: &Script) -> Result<(), Fail> {
    for token in script.ring.tokens() {
        write!(shown, "{token} ")?;
    }
    write_settings(shown, script)?;
    write_counts(shown, script)
}

fn shown_error(alloc: Global, error: &ParseError) -> Result<String, Fail> {
    match error {
        ParseError::Script(error) => Ok(format!(in alloc; "{error:?}")?),
        ParseError::NoMemory => Ok(String::from_str(alloc, "no memory")?),
    }
}

/// The event of a line behind the head, or the refusal.
fn shown_event(alloc: Global, line: &str) -> Result<String, Fail> {
    let mut text = String::from_str(alloc, "cassandra-script 1\nring -3 0 3\nrf 3\nrun\n")?;
    text.push_str(line)?;
    match parse(alloc, text.as_bytes()) {
        Ok(script) => shown_events(alloc, &script.events),
        Err(error) => shown_error(alloc, &error),
    }
}

fn shown_script(alloc: Global, text: &str) -> Result<String, Fail> {
    let text = written_out(alloc, text)?;
    match parse(alloc, text.as_bytes()) {
        Ok(script) => {
            let mut shown = String::new(alloc);
            write_script(&mut shown, &script)?;
            Ok(shown)
        }
        Err(error) => shown_error(alloc, &error),
    }
}

#[test]
fn reads_events(rt: HostRuntime) -> Result<(), Fail> {
    let alloc = rt.alloc();
    for row in EVENTS.lines() {
        let (line, want) = row.split_once('|').unwrap_or((row, ""));
        assert!(rt; shown_event(alloc, line)?.as_str() == want, "{row}");
    }
    Ok(())
}

#[test]
fn reads_scripts(rt: HostRuntime) -> Result<(), Fail> {
    let alloc = rt.alloc();
    for row in SCRIPTS.lines() {
        let (text, want) = row.split_once('|').unwrap_or((row, ""));
        assert!(rt; shown_script(alloc, text)?.as_str() == want, "{row}");
    }
    Ok(())
}

fn error_of(alloc: Global, script: &[u8]) -> Option<ScriptError> {
    match parse(alloc, script) {
        Err(ParseError::Script(error)) => Some(error),
        _ => None,
    }
}

#[test]
fn refuses_what_is_no_text(rt: HostRuntime) {
    let script = b"cassandra-script 1\nring 0\nrf 1\nrun\nget 0 ONE \xff\n";
    assert_eq!(rt; error_of(rt.alloc(), script), Some(ScriptError::Line(5)));
    let head = b"cassandra-script 1\nring \xff\n";
    assert_eq!(rt; error_of(rt.alloc(), head), Some(ScriptError::Head(2)));
}

const HEAD: &[u8] = b"cassandra-script 1\nring 0\nrf 1\nrun\n";

/// A script with the byte so many times at its end.
fn script_with(alloc: Global, line: &[u8], byte: u8, count: usize) -> Result<Vec<u8>, AllocError> {
    let mut script = Vec::from_slice(alloc, HEAD)?;
    script.extend_from_slice(line)?;
    for _ in 0..count {
        script.push(byte)?;
    }
    Ok(script)
}

/// Whether this error, or none, is told of the script with the byte so many times at its end.
fn is_told(
    alloc: Global,
    line: &[u8],
    byte: u8,
    count: usize,
    error: Option<ScriptError>,
) -> Result<bool, AllocError> {
    let script = script_with(alloc, line, byte, count)?;
    Ok(error_of(alloc, &script) == error)
}

#[test]
fn takes_long_lines(rt: HostRuntime) -> Result<(), Fail> {
    let alloc = rt.alloc();
    assert!(rt; is_told(alloc, b"get 0 ONE ", b'k', 100_000, None)?);
    assert!(rt; is_told(alloc, b"cql 0 ONE USE ks", b' ', 100_000, None)?);
    Ok(())
}

#[test]
fn bounds_lines(rt: HostRuntime) -> Result<(), Fail> {
    let alloc = rt.alloc();
    assert!(rt; is_told(alloc, b"", b'\n', 1_000_000, None)?);
    assert!(rt; is_told(alloc, b"", b'\n', 1_000_001, Some(ScriptError::TooMany))?);
    assert!(rt;
        is_told(
            alloc,
            b"get\n",
            b'\n',
            1_000_001,
            Some(ScriptError::Line(5))
        )?
    );
    Ok(())
}
