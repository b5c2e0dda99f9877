//! Scripts, and what is printed of them.

use fault_script::parse;
use script_print::print;
use std::alloc::{AllocError, Global};
use std::test::Fail;

/// A script, with a slash for each line feed and an at sign for [`KEYSPACE`], and what is printed of it.
const SCRIPTS: &str = "cassandra-script 1/ring 0/rf 1/run|cassandra-script 1/ring 0/rf 1/run/
# a script//cassandra-script   1/ring  -3 -0  007/rf 03/grace  5/# and/expiry 01000/run//# end/|cassandra-script 1/ring -3 0 7/rf 3/grace 5/expiry 1000/run/
cassandra-script 1/ring 0/rf 1/grace 0864000/expiry 10800/run|cassandra-script 1/ring 0/rf 1/run/
cassandra-script 1/ring 0/rf 1/grace 10800/expiry 99999/run|cassandra-script 1/ring 0/rf 1/grace 10800/expiry 99999/run/
cassandra-script 1/ring 9223372036854775807 -9223372036854775808/rf 2/expiry 5000/run|cassandra-script 1/ring 9223372036854775807 -9223372036854775808/rf 2/expiry 5000/run/
cassandra-script 1/ring 0/rf 1/@//schema   CREATE TABLE ks.t (k int PRIMARY KEY) /run/cql  00  QUORUM   USE  ks; |cassandra-script 1/ring 0/rf 1/@/schema CREATE TABLE ks.t (k int PRIMARY KEY) /run/cql 0 QUORUM USE  ks; /
cassandra-script 1/ring 0 9/rf 1/run/put 1  ONE żółć #a  -0012 x=1/put 01 QUORUM run k 18 9/get 001  LOCAL_SERIAL key|cassandra-script 1/ring 0 9/rf 1/run/put 1 ONE żółć #a -12 x=1/put 1 QUORUM run k 18 9/get 1 LOCAL_SERIAL key/
cassandra-script 1/ring 0 9/rf 1/run/get 1 TWO k/get 1 THREE k/get 1 ALL k/get 1 LOCAL_QUORUM k/get 1 SERIAL k/get 1 LOCAL_ONE k|cassandra-script 1/ring 0 9/rf 1/run/get 1 TWO k/get 1 THREE k/get 1 ALL k/get 1 LOCAL_QUORUM k/get 1 SERIAL k/get 1 LOCAL_ONE k/
cassandra-script 1/ring 0 9/rf 1/run/deliver 0 1 18446744073709551615/#/drop  1 00 007/settle 0100|cassandra-script 1/ring 0 9/rf 1/run/deliver 0 1 18446744073709551615/drop 1 0 7/settle 100/
cassandra-script 1/ring 0 9/rf 1/run/clock 01  5000001/mark 1  00 up/mark 0 01 down/crash 0 kept/crash 1 lost/stopat 1 04 torn/failat 0 2/restart 001/flush 0/merge 1|cassandra-script 1/ring 0 9/rf 1/run/clock 1 5000001/mark 1 0 up/mark 0 1 down/crash 0 kept/crash 1 lost/stopat 1 4 torn/failat 0 2/restart 1/flush 0/merge 1/";

const KEYSPACE: &str =
    "schema CREATE KEYSPACE ks WITH REPLICATION = {'class': 'SimpleStrategy', 'replication_factor': 1}";

fn written_out(alloc: Global, text: &str) -> Result<String, AllocError> {
    let mut lines = String::new(alloc);
    for character in text.chars() {
        match character {
            '/' => lines.push('\n')?,
            '@' => lines.push_str(KEYSPACE)?,
            _ => lines.push(character)?,
        }
    }
    Ok(lines)
}

/// What is printed of the script that a text is read as; nothing where it is none.
fn printed(alloc: Global, text: &[u8]) -> Result<Vec<u8>, AllocError> {
    match parse(alloc, text) {
        Ok(script) => print(alloc, &script),
        Err(_) => Ok(Vec::new(alloc)),
    }
}

fn is_printed(alloc: Global, text: &[u8], want: &[u8]) -> Result<bool, AllocError> {
    Ok(printed(alloc, text)?.as_slice() == want)
}

#[test]
fn prints_scripts(rt: HostRuntime) -> Result<(), Fail> {
    let alloc = rt.alloc();
    for row in SCRIPTS.lines() {
        let (text, want) = row.split_once('|').unwrap_or((row, ""));
        let want = written_out(alloc, want)?;
        assert!(rt;
            is_printed(alloc, written_out(alloc, text)?.as_bytes(), want.as_bytes())?,
            "{row}"
        );
        assert!(rt;
            is_printed(alloc, want.as_bytes(), want.as_bytes())?,
            "{row}"
        );
    }
    Ok(())
}
