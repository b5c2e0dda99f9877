//! Worked scripts, with answers that were written by hand.

use cluster_program::{Finished, Status, run_cluster};
use cs_base::Micros;
use cs_doors::MemDoors;
use cs_io::{MemSink, MemSource, OpenGate};
use cs_runtime::{ListSpawner, SetClock};
use cs_store::MemStores;
use std::alloc::{AllocError, Global};
use std::collections::VecDeque;
use std::sync::Wait;
use std::test::Fail;
use std::thread::Threads;

/// What a run ended with, and what it wrote.
#[derive(Drop)]
struct Ended {
    status: Status,
    text: Vec<u8>,
}

impl Ended {
    fn is(&self, status: Status, text: &str) -> bool {
        self.status == status && self.text.as_slice() == text.as_bytes()
    }
}

/// Source and sink take `most` bytes in a call, and these calls of theirs fail.
#[derive(Clone, Copy)]
struct Outside<'a> {
    most: usize,
    failing_reads: &'a [u64],
    failing_writes: &'a [u64],
}

const SOUND: Outside<'static> = Outside {
    most: 1000,
    failing_reads: &[],
    failing_writes: &[],
};

fn words_of(alloc: Global, command: &str) -> Result<Vec<String>, AllocError> {
    let mut words = Vec::new(alloc);
    for word in command.split(' ') {
        words.push(String::from_str(alloc, word)?)?;
    }
    Ok(words)
}

fn source_of(alloc: Global, script: &str, outside: &Outside<'_>) -> Result<MemSource, AllocError> {
    let bytes = Vec::from_slice(alloc, script.as_bytes())?;
    let failing = Vec::from_slice(alloc, outside.failing_reads)?;
    Ok(MemSource::new(bytes, outside.most, failing))
}

/// The program on these streams, with stores, doors, a clock and threads with which a script has nothing to do.
pub(crate) fn run_program<R: Threads + Wait + Sync>(
    rt: &R,
    alloc: Global,
    words: &[String],
    source: MemSource,
    sink: MemSink,
) -> Result<Finished<MemSource, MemSink>, AllocError> {
    let mut stores = MemStores::formatted(alloc)?;
    let mut doors = MemDoors::new(alloc, VecDeque::new(alloc), Vec::new(alloc));
    let clock = SetClock::new(vec![in alloc; Micros::new(0)]?);
    let mut spawner = ListSpawner::new(rt, Vec::new(alloc));
    Ok(run_cluster(
        rt,
        alloc,
        words,
        source,
        sink,
        &mut stores,
        &mut doors,
        &clock,
        &mut spawner,
        &OpenGate,
    ))
}

fn run<R: Threads + Wait + Sync>(
    rt: &R,
    alloc: Global,
    command: &str,
    script: &str,
    outside: &Outside<'_>,
) -> Result<Ended, AllocError> {
    let words = words_of(alloc, command)?;
    let source = source_of(alloc, script, outside)?;
    let failing = Vec::from_slice(alloc, outside.failing_writes)?;
    let sink = MemSink::new(alloc, outside.most, failing);
    let finished = run_program(rt, alloc, &words, source, sink)?;
    Ok(Ended {
        status: finished.status,
        text: Vec::from_slice(alloc, finished.sink.bytes())?,
    })
}

const HEAD: &str = "cassandra-script 1\nring 0\nrf 1\nrun\n";

fn behind(alloc: Global, head: &str, lines: &str) -> Result<String, AllocError> {
    let mut script = String::from_str(alloc, head)?;
    script.push_str(lines)?;
    Ok(script)
}

/// Whether the script is run so, and prints this.
fn ends_with<R: Threads + Wait + Sync>(
    rt: &R,
    alloc: Global,
    script: &str,
    status: Status,
    want: &str,
) -> Result<bool, AllocError> {
    Ok(run(rt, alloc, "script", script, &SOUND)?.is(status, want))
}

/// Whether these lines print this behind the head of one node.
fn one_node_answers<R: Threads + Wait + Sync>(
    rt: &R,
    alloc: Global,
    lines: &str,
    want: &str,
) -> Result<bool, AllocError> {
    ends_with(
        rt,
        alloc,
        behind(alloc, HEAD, lines)?.as_str(),
        Status::Ok,
        want,
    )
}

#[test]
fn answers_scripts(rt: HostRuntime) -> Result<(), Fail> {
    let cases = [
        (
            "put 0 ONE k a 5 x\nget 0 ONE k\n",
            "1 ok\n2 rows 1\n 'a' | 'x'\n",
        ),
        ("put 0 ONE k a 5 x\nget 0 ONE z\n", "1 ok\n2 rows 0\n"),
        (
            "put 0 ONE k a 5 1\nput 0 ONE k a 5 2\nput 0 ONE k b 5 2\nput 0 ONE k b 5 1\nget 0 ONE k",
            "1 ok\n2 ok\n3 ok\n4 ok\n5 rows 2\n 'a' | '2'\n 'b' | '2'\n",
        ),
        (
            "# later lines may be older\n\nput 0 ONE k b 2 it's\nput 0 ONE k b -1 old\nput 0 ONE k a 1 x\nget 0 ONE k\n",
            "1 ok\n2 ok\n3 ok\n4 rows 2\n 'a' | 'x'\n 'b' | 'it''s'\n",
        ),
        (
            "put 0 TWO k a 5 x\nput 0 SERIAL k a 5 x\nget 0 LOCAL_SERIAL k\n",
            "1 unavailable required 2 alive 1\n2 invalid SerialWrite\n3 invalid Level\n",
        ),
        ("deliver 0 0 1\ndrop 0 0 0\nsettle 100000\n", ""),
        ("", ""),
    ];
    for (lines, want) in &cases {
        assert!(rt; one_node_answers(&rt, rt.alloc(), lines, want)?, "{lines}");
    }
    Ok(())
}

const HEAD_OF_THREE: &str = "cassandra-script 1\nring -3 0 3\nrf 3\nrun\n";

// Lost, repeated and late messages between three nodes.
#[test]
fn answers_scripts_of_three_nodes(rt: HostRuntime) -> Result<(), Fail> {
    let cases = [
        (
            "put 0 QUORUM k a 5 x\ndeliver 0 1 1\ndeliver 1 0 1\nget 2 QUORUM k\ndeliver 2 1 1\ndeliver 1 2 1\n",
            "1 ok\n2 rows 1\n 'a' | 'x'\n",
        ),
        (
            "put 0 ALL k a 5 x\ndeliver 0 1 1\ndeliver 1 0 1\ndeliver 1 0 1\n",
            "",
        ),
        (
            "put 0 QUORUM k a 5 x\ndrop 0 1 1\nsettle 100\nget 1 ONE k\ndeliver 0 1 1\nget 1 ONE k\n",
            "1 ok\n2 rows 0\n3 rows 1\n 'a' | 'x'\n",
        ),
        (
            "put 0 ALL k a 5 x\nput 1 ALL k a 4 old\nsettle 100\nget 2 ALL k\nsettle 100\n",
            "1 ok\n2 ok\n3 rows 1\n 'a' | 'x'\n",
        ),
    ];
    for (lines, want) in &cases {
        assert!(rt;
            three_nodes_answer(&rt, rt.alloc(), lines, want)?,
            "{lines}"
        );
    }
    Ok(())
}

/// Whether these lines print this behind the head of three nodes.
pub(crate) fn three_nodes_answer<R: Threads + Wait + Sync>(
    rt: &R,
    alloc: Global,
    lines: &str,
    want: &str,
) -> Result<bool, AllocError> {
    ends_with(
        rt,
        alloc,
        behind(alloc, HEAD_OF_THREE, lines)?.as_str(),
        Status::Ok,
        want,
    )
}

// A stop before the gate of a log entry is written leaves nothing of it, whatever of the entry is in the file; behind it
// all is there.
#[test]
fn loads_what_was_kept(rt: HostRuntime) -> Result<(), Fail> {
    let cases = [
        (
            "put 0 QUORUM k a 5 x\nstopat 1 1 torn\ndeliver 0 1 1\nrestart 1\nget 1 ONE k\n",
            "2 rows 0\n",
        ),
        (
            "put 0 QUORUM k a 5 x\nstopat 1 1 kept\ndeliver 0 1 1\nrestart 1\nget 1 ONE k\n",
            "2 rows 0\n",
        ),
        (
            "put 0 QUORUM k a 5 x\nstopat 1 4 kept\ndeliver 0 1 1\nrestart 1\nget 1 ONE k\n",
            "2 rows 1\n 'a' | 'x'\n",
        ),
        (
            "crash 1 kept\nget 1 ONE k\nflush 1\nclock 1 9\nrestart 1\nrestart 1\nget 1 ONE k\nflush 1\nmerge 2\n",
            "1 down\n2 rows 0\ntables 1 0\ntables 2 0\n",
        ),
        (
            "failat 1 1\ncrash 1 lost\nrestart 1\nfailat 2 1\ncrash 2 lost\nfailat 2 1\nrestart 2\nrestart 2\nget 2 ONE k\n",
            "stopped 2\n1 rows 0\n",
        ),
    ];
    for (lines, want) in &cases {
        assert!(rt;
            three_nodes_answer(&rt, rt.alloc(), lines, want)?,
            "{lines}"
        );
    }
    Ok(())
}

// A message from more than a minute ahead is not taken, and one that is older than the head says changes nothing.
#[test]
fn takes_messages_in_their_time(rt: HostRuntime) -> Result<(), Fail> {
    let cases = [
        (
            "clock 0 60000001\nput 0 ALL k a 5 x\ndeliver 0 1 1\nget 1 ONE k\n",
            "2 rows 0\n",
        ),
        (
            "clock 0 60000001\nput 0 ALL k a 5 x\nclock 1 2\ndeliver 0 1 1\nget 1 ONE k\n",
            "2 rows 1\n 'a' | 'x'\n",
        ),
        (
            "put 0 ONE k a 5 x\nclock 1 10800000000\ndeliver 0 1 1\nget 1 ONE k\n",
            "1 ok\n2 rows 1\n 'a' | 'x'\n",
        ),
        (
            "put 0 ONE k a 5 x\nclock 1 10800000001\ndeliver 0 1 1\nget 1 ONE k\n",
            "1 ok\n2 rows 0\n",
        ),
    ];
    for (lines, want) in &cases {
        assert!(rt;
            three_nodes_answer(&rt, rt.alloc(), lines, want)?,
            "{lines}"
        );
    }
    Ok(())
}

// A call that fails stops its node; what was acknowledged before is found again.
#[test]
fn answers_through_stops(rt: HostRuntime) -> Result<(), Fail> {
    let cases = [
        (
            "failat 0 2\nput 0 ONE k a 5 x\nget 0 ONE k\nrestart 0\nget 0 ONE k\n",
            "stopped 0\n2 down\n3 rows 0\n",
        ),
        (
            "put 0 ONE k a 5 x\ncrash 0 lost\nrestart 0\nget 0 ONE k\n",
            "1 ok\n2 rows 1\n 'a' | 'x'\n",
        ),
    ];
    for (lines, want) in &cases {
        assert!(rt; one_node_answers(&rt, rt.alloc(), lines, want)?, "{lines}");
    }
    Ok(())
}

const HEAD_OF_KS: &str =
    "cassandra-script 1\nring 0\nrf 1\nschema CREATE KEYSPACE ks WITH replication = {'class': 'SimpleStrategy', 'replication_factor': 1}\nschema CREATE TABLE ks.t (k int, c int, v text, PRIMARY KEY (k, c))\nrun\n";

/// Whether these lines print this behind the head with the table `ks.t`.
fn table_answers<R: Threads + Wait + Sync>(
    rt: &R,
    alloc: Global,
    lines: &str,
    want: &str,
) -> Result<bool, AllocError> {
    ends_with(
        rt,
        alloc,
        behind(alloc, HEAD_OF_KS, lines)?.as_str(),
        Status::Ok,
        want,
    )
}

// A deletion beats a value of its time; INSERT writes a row, and UPDATE only cells (CQL reference, "UPDATE").
#[test]
fn answers_statements(rt: HostRuntime) -> Result<(), Fail> {
    let cases = [
        (
            "cql 0 ONE UPDATE ks.t USING TIMESTAMP 9 SET v = 'x' WHERE k = 1 AND c = 1\ncql 0 ONE UPDATE ks.t USING TIMESTAMP 9 SET v = null WHERE k = 1 AND c = 1\ncql 0 ONE SELECT * FROM ks.t WHERE k = 1\n",
            "1 ok\n2 ok\n3 rows 0\n",
        ),
        (
            "cql 0 ONE INSERT INTO ks.t (k, c) VALUES (1, 1)\ncql 0 ONE SELECT * FROM ks.t WHERE k = 1\n",
            "1 ok\n2 rows 1\n 1 | 1 | null\n",
        ),
        (
            "cql 0 ONE UPDATE ks.t SET v = null WHERE k = 2 AND c = 1\ncql 0 ONE SELECT * FROM ks.t WHERE k = 2\n",
            "1 ok\n2 rows 0\n",
        ),
        (
            "cql 0 ONE SELECT * FROM ks.nope WHERE k = 1\ncql 0 ONE SELECT * FROM ks.t WHERE k = ?\n",
            "1 invalid UnknownTable\n2 invalid ValueCount\n",
        ),
        (
            "cql 0 ONE INSERT INTO ks.t (k, c, v) VALUES (1, -1, 'a');\ncql 0 ONE INSERT INTO ks.t (k, c, v) VALUES (1, 1, 'b')\ncql 0 ONE SELECT v, c FROM ks.t WHERE k = 1 ORDER BY c DESC LIMIT 1\ncql 0 ONE SELECT COUNT(*) FROM ks.t WHERE k = 1 AND c > -2 \n",
            "1 ok\n2 ok\n3 rows 1\n 'b' | 1\n4 rows 1\n 2\n",
        ),
    ];
    for (lines, want) in &cases {
        assert!(rt; table_answers(&rt, rt.alloc(), lines, want)?, "{lines}");
    }
    Ok(())
}

// A keyspace in use is that of later statements; levels and too few nodes come after a statement's own refusal.
#[test]
fn answers_in_their_order(rt: HostRuntime) -> Result<(), Fail> {
    let cases = [
        (
            "cql 0 ONE SELECT v FROM t WHERE k = 1\ncql 0 ONE USE ks\ndrop 0 0 1\ncql 0 ONE SELECT v FROM t WHERE k = 1\ncql 0 ONE USE nope\ncql 0 ONE SELECT v FROM t WHERE k = 1\n",
            "1 invalid UnknownTable\n2 keyspace ks\n3 rows 0\n4 invalid UnknownKeyspace\n5 rows 0\n",
        ),
        (
            "cql 0 TWO SELECT v FROM ks.nope WHERE k = 1\ncql 0 TWO SELECT v FROM ks.t WHERE k = 1\ncql 0 SERIAL SELECT v FROM ks.t WHERE k = 1\ncql 0 SERIAL USE ks\n",
            "1 invalid UnknownTable\n2 unavailable required 2 alive 1\n3 invalid Level\n4 keyspace ks\n",
        ),
        (
            "cql 0 ONE INSERT INTO ks.t (k, c) VALUES (1, 1) IF NOT EXISTS\ncql 0 ONE CREATE TABLE ks.u (k int PRIMARY KEY)\nget 0 ONE k\nput 0 ONE k it's 5 o'clock\nget 0 ONE k\n",
            "1 invalid NotSupported\n2 invalid NotSupported\n3 rows 0\n4 ok\n5 rows 1\n 'it''s' | 'o''clock'\n",
        ),
    ];
    for (lines, want) in &cases {
        assert!(rt; table_answers(&rt, rt.alloc(), lines, want)?, "{lines}");
    }
    Ok(())
}

#[test]
fn refuses_what_is_no_script(rt: HostRuntime) -> Result<(), Fail> {
    let cases = [
        ("", "1: head expected\n"),
        ("cassandra-script 2\n", "1: head expected\n"),
        ("cassandra-script 1\nring 0\nrf 1\n", "4: head expected\n"),
        (
            "cassandra-script 1\nring 9223372036854775808\n",
            "2: number out of range\n",
        ),
        (
            "cassandra-script 1\nring 0\nrf 2\n",
            "3: number out of range\n",
        ),
        (
            "cassandra-script 1\nring 0\nrf 1\nrun\nput 0 ONE k a 5\n",
            "5: line not understood\n",
        ),
        (
            "cassandra-script 1\nring 0\nrf 1\nrun\nget 0 ONE k z\n",
            "5: line not understood\n",
        ),
        (
            "cassandra-script 1\nring 0\nrf 1\nrun\nget 9 ONE k\n",
            "5: number out of range\n",
        ),
        (
            "cassandra-script 1\nring 0\nrf 1\nrun\n# comment\nget 0 ANY k\n",
            "6: number out of range\n",
        ),
        (
            "cassandra-script 1\nring 0\nrf 1\nrun\nget 0 ONE k \n",
            "5: line not understood\n",
        ),
        (
            "cassandra-script 1\nring 0\nrf 1\nrun\ncql 0 ONE SELEC\n",
            "5: cql refused at 0\n",
        ),
        (
            "cassandra-script 1\nring 0\nrf 1\n\nschema CREATE TABLE ks.t (k int PRIMARY KEY)\nrun\nput\n",
            "5: head expected\n",
        ),
    ];
    for (script, want) in &cases {
        assert!(rt;
            ends_with(&rt, rt.alloc(), script, Status::BadScript, want)?,
            "{script}"
        );
    }
    Ok(())
}

const HELP: &str =
    "usage: script | serve <dir> <port>\nscript              reads a fault script from standard input, runs it, and writes its answers\nserve <dir> <port>  serves connections; reads the head of a script and then console lines from standard input\n--help              writes this\n--version           writes the version, and the toolchain that it is proved with\n";

const USAGE: &str = "usage: script | serve <dir> <port>\n";

#[test]
fn tells_of_itself(rt: HostRuntime) -> Result<(), Fail> {
    let cases = [
        ("--help", Status::Ok, HELP),
        (
            "--version",
            Status::Ok,
            "biropuve 0.1.0, proved with rattle-kit-13f\n",
        ),
        ("--help --version", Status::Usage, USAGE),
        ("", Status::Usage, USAGE),
        ("serve rows", Status::Usage, USAGE),
        ("serve rows 1023", Status::Usage, USAGE),
        ("serve rows 65530", Status::Usage, USAGE),
        ("serve rows 09042", Status::Usage, USAGE),
        ("serve rows 9042 now", Status::Usage, USAGE),
        ("serve rows 1024", Status::BadScript, "1: head expected\n"),
        ("serve rows 65529", Status::BadScript, "1: head expected\n"),
    ];
    for (words, status, text) in &cases {
        let ended = run(&rt, rt.alloc(), words, "no script", &SOUND)?;
        assert!(rt; ended.is(*status, text), "{words}");
    }
    Ok(())
}

#[test]
fn tells_faults_apart(rt: HostRuntime) -> Result<(), Fail> {
    let script = behind(rt.alloc(), HEAD, "put 0 ONE k a 5 x\n")?;
    let cases = [
        ("scripts", SOUND, Status::Usage, USAGE),
        ("script now", SOUND, Status::Usage, USAGE),
        (
            "script",
            Outside {
                most: 7,
                failing_reads: &[3],
                failing_writes: &[],
            },
            Status::ReadFault,
            "read fault\n",
        ),
        (
            "script",
            Outside {
                most: 3,
                failing_reads: &[],
                failing_writes: &[2],
            },
            Status::WriteFault,
            "1 o",
        ),
        (
            "script",
            Outside {
                most: 0,
                failing_reads: &[],
                failing_writes: &[],
            },
            Status::WriteFault,
            "",
        ),
        (
            "script",
            Outside {
                most: 1,
                failing_reads: &[],
                failing_writes: &[],
            },
            Status::Ok,
            "1 ok\n",
        ),
    ];
    for (word, outside, status, text) in &cases {
        let ended = run(&rt, rt.alloc(), word, script.as_str(), outside)?;
        assert!(rt; ended.is(*status, text), "{word} {text}");
    }
    Ok(())
}
