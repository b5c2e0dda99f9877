//! Worked scripts of deadlines, marks and hints, with answers that were written by hand.

use crate::running::three_nodes_answer;
use std::test::Fail;

// A deadline comes five seconds after its request began, and not a microsecond before; a second acknowledgement of one replica
// counts once.
#[test]
fn tells_deadlines(rt: HostRuntime) -> Result<(), Fail> {
    let cases = [
        (
            "put 0 ALL k a 5 x\ndeliver 0 1 1\ndeliver 1 0 1\ndeliver 1 0 1\nclock 0 5000000\n",
            "",
        ),
        (
            "put 0 ALL k a 5 x\ndeliver 0 1 1\ndeliver 1 0 1\ndeliver 1 0 1\nclock 0 5000000\nclock 0 5000001\n",
            "1 write-timeout received 2 blockfor 3 SIMPLE\n",
        ),
        ("get 0 QUORUM k\nclock 0 5000000\n", ""),
        (
            "get 0 QUORUM k\nclock 0 5000001\n",
            "1 read-timeout received 1 blockfor 2 data 1\n",
        ),
        (
            "put 0 QUORUM k a 5 x\nstopat 1 4 kept\ndeliver 0 1 1\nrestart 1\nget 1 ONE k\nclock 0 5000001\n",
            "2 rows 1\n 'a' | 'x'\n1 write-timeout received 1 blockfor 2 SIMPLE\n",
        ),
        // the coordinator forgets its request at a stop
        (
            "put 0 QUORUM k a 5 x\ncrash 0 kept\nrestart 0\nclock 0 9000000\n",
            "",
        ),
        // two deadlines of one step, in the order of their requests
        (
            "put 0 QUORUM k a 5 x\nget 0 QUORUM k\nclock 0 9000000\n",
            "1 write-timeout received 1 blockfor 2 SIMPLE\n2 read-timeout received 1 blockfor 2 data 1\n",
        ),
    ];
    for (lines, want) in &cases {
        assert!(rt;
            three_nodes_answer(&rt, rt.alloc(), lines, want)?,
            "{lines}"
        );
    }
    Ok(())
}

// Nodes that are marked down are not asked, and too few of the others are told at once.
#[test]
fn sees_marks(rt: HostRuntime) -> Result<(), Fail> {
    let cases = [
        (
            "mark 0 1 down\nmark 0 2 down\nput 0 QUORUM k a 5 x\nput 0 ONE k a 5 x\n",
            "1 unavailable required 2 alive 1\n2 ok\n",
        ),
        (
            "mark 0 1 down\nmark 0 2 down\nmark 0 1 up\nput 0 QUORUM k a 5 x\nput 1 ALL k a 5 x\ndeliver 0 1 1\ndeliver 1 0 2\n",
            "1 ok\n",
        ),
        // another node's marks are its own, and a restart forgets them
        (
            "mark 0 1 down\nmark 0 2 down\nget 1 QUORUM k\nsettle 100\ncrash 0 kept\nrestart 0\nget 0 QUORUM k\nsettle 100\n",
            "1 rows 0\n2 rows 0\n",
        ),
    ];
    for (lines, want) in &cases {
        assert!(rt;
            three_nodes_answer(&rt, rt.alloc(), lines, want)?,
            "{lines}"
        );
    }
    Ok(())
}

// A write for a node that is down is kept, is handed over when the node is back, and is not taken once it is too old; a restart
// of its keeper keeps it too.
#[test]
fn hands_hints_over(rt: HostRuntime) -> Result<(), Fail> {
    let cases = [
        (
            "mark 0 1 down\nput 0 QUORUM k a 5 x\ndeliver 0 2 1\ndeliver 2 0 1\nmark 0 1 up\nclock 1 10800000001\ndeliver 0 1 1\nget 1 ONE k\n",
            "1 ok\n2 rows 1\n 'a' | 'x'\n",
        ),
        (
            "mark 0 1 down\nput 0 QUORUM k a 5 x\ndeliver 0 2 1\ndeliver 2 0 1\nmark 0 1 up\nclock 1 10800000002\ndeliver 0 1 1\nget 1 ONE k\n",
            "1 ok\n2 rows 0\n",
        ),
        (
            "mark 0 1 down\nput 0 QUORUM k a 5 x\ndeliver 0 2 1\ndeliver 2 0 1\ncrash 0 kept\nrestart 0\nmark 0 1 down\nmark 0 1 up\nclock 1 10800000001\ndeliver 0 1 1\nget 1 ONE k\n",
            "1 ok\n2 rows 1\n 'a' | 'x'\n",
        ),
        // a replica that did not answer by the deadline gets a hint then
        (
            "put 0 ONE k a 5 x\nclock 0 5000001\nmark 0 1 up\ndeliver 0 1 2\nget 1 ONE k\n",
            "1 ok\n2 rows 1\n 'a' | 'x'\n",
        ),
        // a hint that came is not sent again
        (
            "mark 0 1 down\nput 0 ONE k a 5 x\nmark 0 1 up\nsettle 100\nmark 0 1 up\nput 0 ALL k b 6 y\ndeliver 0 1 2\nget 1 ONE k\n",
            "1 ok\n3 rows 2\n 'a' | 'x'\n 'b' | 'y'\n",
        ),
    ];
    for (lines, want) in &cases {
        assert!(rt;
            three_nodes_answer(&rt, rt.alloc(), lines, want)?,
            "{lines}"
        );
    }
    Ok(())
}

// A node takes 1,024 requests that wait for an answer, and no more.
#[test]
fn refuses_too_many(rt: HostRuntime) -> Result<(), Fail> {
    let mut lines = String::new(rt.alloc());
    for _ in 0..1025 {
        lines.push_str("get 0 QUORUM k\n")?;
    }
    assert!(rt; three_nodes_answer(&rt, rt.alloc(), lines.as_str(), "1025 overloaded\n")?);
    Ok(())
}
