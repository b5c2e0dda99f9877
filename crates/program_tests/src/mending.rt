//! Worked scripts of reads that mend replicas, with answers that were written by hand.

use crate::running::three_nodes_answer;
use std::test::Fail;

// A node that missed a write takes it in before it answers, and has it from then on; one that has it is sent nothing.
#[test]
fn mends_what_it_meets(rt: HostRuntime) -> Result<(), Fail> {
    let cases = [
        // the coordinator mends itself in the event that brings the reply
        (
            "put 0 QUORUM k a 5 x\ndeliver 0 1 1\ndeliver 1 0 1\nget 2 ONE k\nget 2 QUORUM k\ndeliver 2 1 2\ndeliver 1 2 1\nget 2 ONE k\n",
            "1 ok\n2 rows 0\n3 rows 1\n 'a' | 'x'\n4 rows 1\n 'a' | 'x'\n",
        ),
        // another replica is waited for
        (
            "put 0 ONE k a 5 x\nget 0 QUORUM k\ndeliver 0 2 2\ndeliver 2 0 1\nget 2 ONE k\ndeliver 0 2 3\nget 2 ONE k\ndeliver 2 0 3\ndeliver 2 0 3\n",
            "1 ok\n3 rows 0\n4 rows 1\n 'a' | 'x'\n2 rows 1\n 'a' | 'x'\n",
        ),
        (
            "put 0 ONE k a 5 x\nget 0 QUORUM k\ndeliver 0 2 2\ndeliver 2 0 1\ndeliver 0 2 3\ndeliver 2 0 2\ndeliver 2 0 2\nget 2 ONE k\n",
            "1 ok\n2 rows 1\n 'a' | 'x'\n3 rows 1\n 'a' | 'x'\n",
        ),
        // a reply behind the merge is too late: what it shows is not in the answer
        (
            "put 0 ONE k a 5 x\nput 1 ONE k b 6 y\nget 0 QUORUM k\ndeliver 0 2 2\ndeliver 2 0 1\ndeliver 0 1 2\ndeliver 1 0 2\ndeliver 0 2 3\ndeliver 2 0 2\n",
            "1 ok\n2 ok\n3 rows 1\n 'a' | 'x'\n",
        ),
        // replicas that agree are sent nothing: there is no third message
        (
            "put 0 ALL k a 5 x\nsettle 100\nget 0 QUORUM k\ndeliver 0 2 2\ndeliver 2 0 2\ndeliver 0 2 3\ndeliver 2 0 3\n",
            "1 ok\n2 rows 1\n 'a' | 'x'\n",
        ),
    ];
    for (lines, want) in &cases {
        assert!(rt;
            three_nodes_answer(&rt, rt.alloc(), lines, want)?,
            "{lines}"
        );
    }
    Ok(())
}

// A read that waits for a merge to be taken in is told how many have it; and what was sent is taken in all the same.
#[test]
fn tells_who_is_mended(rt: HostRuntime) -> Result<(), Fail> {
    let cases = [
        (
            "put 0 ONE k a 5 x\nget 0 QUORUM k\ndeliver 0 2 2\ndeliver 2 0 1\nclock 0 6000000\n",
            "1 ok\n2 read-timeout received 1 blockfor 2 data 1\n",
        ),
        (
            "put 0 ONE k a 5 x\nput 1 ONE k b 6 y\nget 2 ALL k\ndeliver 2 0 1\ndeliver 2 1 1\ndeliver 0 2 2\ndeliver 1 2 2\ndeliver 2 0 2\ndeliver 0 2 3\nclock 2 6000000\nget 0 ONE k\nget 2 ONE k\n",
            "1 ok\n2 ok\n3 read-timeout received 2 blockfor 3 data 1\n4 rows 2\n 'a' | 'x'\n 'b' | 'y'\n5 rows 2\n 'a' | 'x'\n 'b' | 'y'\n",
        ),
        // a stop forgets the read, and what its node took in stays
        (
            "put 0 ONE k a 5 x\nget 2 QUORUM k\ndeliver 2 0 1\ndeliver 0 2 2\ncrash 2 lost\nrestart 2\nget 2 ONE k\n",
            "1 ok\n2 rows 1\n 'a' | 'x'\n3 rows 1\n 'a' | 'x'\n",
        ),
        // a mend whose node stops before it is kept is not acknowledged
        (
            "put 0 ONE k a 5 x\nget 0 QUORUM k\ndeliver 0 2 2\ndeliver 2 0 1\nstopat 2 1 lost\ndeliver 0 2 3\nrestart 2\nget 2 ONE k\ndeliver 2 0 2\ndeliver 0 2 3\ndeliver 2 0 3\n",
            "1 ok\n3 rows 0\n2 rows 1\n 'a' | 'x'\n",
        ),
    ];
    for (lines, want) in &cases {
        assert!(rt;
            three_nodes_answer(&rt, rt.alloc(), lines, want)?,
            "{lines}"
        );
    }
    Ok(())
}
