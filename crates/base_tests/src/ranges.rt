//! Ranges of tokens.

use cs_base::Range;

#[test]
fn contains_tokens_above_and_up_to(rt: HostRuntime) {
    let rows = [
        (-5, 5, -5, false),
        (-5, 5, -4, true),
        (-5, 5, 5, true),
        (-5, 5, 6, false),
        (5, -5, 5, false),
        (5, -5, i64::MAX, true),
        (5, -5, i64::MIN, true),
        (5, -5, -5, true),
        (5, -5, 0, false),
        (5, 5, 5, true),
        (5, 5, i64::MIN, true),
    ];
    for (after, upto, token, want) in &rows {
        let range = Range {
            after: *after,
            upto: *upto,
        };
        assert!(rt;
            range.contains(*token) == *want,
            "{token} above {after} up to {upto}"
        );
    }
}
