//! Consistency levels.

use cs_base::{Level, blockfor, meets};

/// The codes of native_protocol_v4.spec, section 3, [consistency], and the replicas that are waited for out of five.
const CODES: [(u16, Option<Level>, u8, bool); 12] = [
    (0, None, 0, false),
    (1, Some(Level::One), 1, false),
    (2, Some(Level::Two), 2, false),
    (3, Some(Level::Three), 3, false),
    (4, Some(Level::Quorum), 3, false),
    (5, Some(Level::All), 5, false),
    (6, Some(Level::LocalQuorum), 3, false),
    (7, None, 0, false),
    (8, Some(Level::Serial), 3, true),
    (9, Some(Level::LocalSerial), 3, true),
    (10, Some(Level::LocalOne), 1, false),
    (11, None, 0, false),
];

/// How many out of five replicas the level waits for, and whether it is that of a condition's phases.
fn told(level: Option<Level>) -> (u8, bool) {
    match level {
        Some(level) => (blockfor(level, 5), level.is_serial()),
        None => (0, false),
    }
}

#[test]
fn reads_codes(rt: HostRuntime) {
    for (code, want, count, serial) in &CODES {
        let level = Level::from_code(*code);
        assert!(rt;
            level == *want && told(level) == (*count, *serial),
            "at {code}"
        );
    }
}

#[test]
fn tells_counts_that_meet(rt: HostRuntime) {
    for (w, r, rf, want) in &[
        (2, 2, 3, true),
        (1, 2, 3, false),
        (1, 3, 3, true),
        (255, 255, 255, true),
    ] {
        assert!(rt; meets(*w, *r, *rf) == *want, "at {w}, {r}, {rf}");
    }
}
