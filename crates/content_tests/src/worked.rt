//! Worked cases: which changes win by Cassandra's rules, the order of places, lengths, contents, what is shown of them, copies,
//! and what a node keeps. What each table asks is said at `Ask`.

use crate::asked::{Ask, is_so};
use std::test::Fail;

/// A text, a second one, and the answer.
type Case = (&'static str, &'static str, &'static str);

/// Two changes at a place; the deletion of the rows from "b" to those that begin with "c"; and that of the partition.
const DOING: [Case; 16] = [
    ("2r=a@2#1", "2r=b@1#2", "beats"),
    ("2r=b#1", "2r=a#2", "beats"),
    ("2r=ab#1", "2r=a#2", "beats"),
    ("2r#1", "2r=z#2", "beats and covers"),
    ("2r=a@2#1", "2r@1#2", "beats"),
    ("2r=a#3", "2r=a#2", "beats"),
    ("Rb..c+@5", "2a@5#2", ""),
    ("Rb..c+@5", "2b@5#2", "covers"),
    ("Rb..c+@5", "2bz@5#2", "covers"),
    ("Rb..c+@5", "2c@5#2", "covers"),
    ("Rb..c+@5", "2cz@5#2", "covers"),
    ("Rb..c+@5", "2d@5#2", ""),
    ("Rb..c+@5", "2b@6#2", ""),
    ("Rb..c+@5", "2b@-5#2", "covers"),
    ("P@5#3", "Rb..c+@5", "covers"),
    ("P@5#3", "P@5#3", "is"),
];

/// A change has 26 bytes for the kind, the times and the request; then those of the place, and of a cell's value. Several have
/// four more for their number.
const LENGTHS: [Case; 7] = [
    ("P@3", "", "26 30"),
    ("Ra+..b@3", "", "38 42"),
    ("Da@3", "", "31 35"),
    ("Ma=@3", "", "31 35"),
    ("3ab@3", "", "34 38"),
    ("3ab=xyz@3", "", "41 45"),
    ("P@0 Da@1", "", "57 61"),
];

/// Places of each kind in their order.
const ORDERED: &str =
    "P@0 R..z+@1 Ra..ab+@2 Ra..a+@3 Rab..a+@4 Ra+..b@5 Da@6 Ma@7 0a@8 *a@9 3ab@10 Db@11";

/// Of a place that comes twice the later change stays.
const SORTED: [Case; 4] = [
    (ORDERED, "", ORDERED),
    (
        "Db@0 3ab@1 *a@2 0a@3 Ma@4 Da@5 Ra+..b@6 Rab..a+@7 Ra..a+@8 Ra..ab+@9 R..z+@10 P@11",
        "",
        "P@11 R..z+@10 Ra..ab+@9 Ra..a+@8 Rab..a+@7 Ra+..b@6 Da@5 Ma@4 0a@3 *a@2 3ab@1 Db@0",
    ),
    (
        "Ra+..b@0 Db@1 P@2 3ab@3 Rab..a+@4 0a@5 Ra..a+@6 *a@7 R..z+@8 Ma@9 Ra..ab+@10 Da@11 P@12",
        "",
        "P@12 R..z+@8 Ra..ab+@10 Ra..a+@6 Rab..a+@4 Ra+..b@0 Da@11 Ma@9 0a@5 *a@7 3ab@3 Db@1",
    ),
    ("", "", ""),
];

/// Each order of five changes, one in which each comes again, and the four that stay.
const ORDERS: &str =
    "01234 01243 01324 01342 01423 01432 02134 02143 02314 02341 02413 02431 03124 03142 03214 \
     03241 03412 03421 04123 04132 04213 04231 04312 04321 10234 10243 10324 10342 10423 10432 \
     12034 12043 12304 12340 12403 12430 13024 13042 13204 13240 13402 13420 14023 14032 14203 \
     14230 14302 14320 20134 20143 20314 20341 20413 20431 21034 21043 21304 21340 21403 21430 \
     23014 23041 23104 23140 23401 23410 24013 24031 24103 24130 24301 24310 30124 30142 30214 \
     30241 30412 30421 31024 31042 31204 31240 31402 31420 32014 32041 32104 32140 32401 32410 \
     34012 34021 34102 34120 34201 34210 40123 40132 40213 40231 40312 40321 41023 41032 41203 \
     41230 41302 41320 42013 42031 42103 42130 42301 42310 43012 43021 43102 43120 43201 43210 \
     0012234401 4320";

const JOINED: [Case; 1] = [(ORDERS, "", "P@1 Rc..d+@2 Db@3 2b=v@4")];

const FIRST: &str = "2a=v 2b=v 2d=v";

const SECOND: &str = "Ra..a+ 2b=v 2c=v";

const BOTH: &str = "Ra..a+ 2b=v 2c=v 2d=v";

/// Cells of a few rows, and one deletion of rows or two.
const ONE_RANGE: &str = "Raa..ab+@9 2a=v 2b=v 2c=v 2d=v";

const TWO_RANGES: &str = "Raa..ab+@9 Re..f+@9 2a=v 2b=v 2c=v 2d=v";

/// Cells and a marker of rows of which some begin with others, and a deletion of rows.
const ROWS: &str = "2d=v 2ba=v 2a=v 2bb=v 2c=v 2b=v Mb=";

const ROWS_AND_RANGE: &str = "Rx..z+ 2a=v Mb= 2b=v 2ba=v 2bb=v 2c=v 2d=v";

const MERGED: [Case; 6] = [
    (FIRST, SECOND, BOTH),
    (FIRST, "", FIRST),
    (BOTH, "", BOTH),
    ("", BOTH, BOTH),
    (ONE_RANGE, "Re..f+@9", TWO_RANGES),
    (ROWS, "Rx..z+", ROWS_AND_RANGE),
];

const SAME: [Case; 5] = [
    (FIRST, FIRST, "yes"),
    (BOTH, "2c=v 2d=v 2b=v Ra..a+", "yes"),
    (BOTH, FIRST, "no"),
    (FIRST, SECOND, "no"),
    (BOTH, "Ra..a+ 2b=v 2c=v 2d=x", "no"),
];

/// Rows whose bytes are the greatest.
const GREATEST: &str = "2\u{fe}\u{ff} 2\u{ff} 2\u{ff}\u{ff} 2\u{fe}";

const SLICED: [Case; 4] = [
    (TWO_RANGES, "ab+..d", "Raa..ab+@9 2b=v 2c=v"),
    ("", "ab+..d", ""),
    (GREATEST, "\u{fe}\u{ff}+..\u{ff}+", "2\u{ff} 2\u{ff}\u{ff}"),
    (GREATEST, "\u{ff}+..\u{ff}+", ""),
];

const WALKED: [Case; 14] = [
    (ROWS_AND_RANGE, "b..b+", "b+ba1bb1"),
    (ROWS_AND_RANGE, "-b..b+", "bb1ba1b+"),
    (ROWS_AND_RANGE, "b+..d", "c1"),
    (ROWS_AND_RANGE, "-b+..d", "c1"),
    (ROWS_AND_RANGE, "..+", "a1b+ba1bb1c1d1"),
    (ROWS_AND_RANGE, "-..+", "d1c1bb1ba1b+a1"),
    (ROWS_AND_RANGE, "+..d", ""),
    (ROWS_AND_RANGE, "-+..d", ""),
    (ROWS_AND_RANGE, "ba..c", "ba1bb1"),
    (ROWS_AND_RANGE, "-ba..c", "bb1ba1"),
    (ROWS_AND_RANGE, "c+..a", ""),
    (ROWS_AND_RANGE, "-c+..a", ""),
    (ROWS_AND_RANGE, "a+..b", ""),
    (ROWS_AND_RANGE, "-a+..b", ""),
];

/// Row a has two cells; b had one, and a marker; c has a marker alone; d has a deleted cell alone; e is deleted, and had a
/// cell before; f is deleted, and has a cell since; those from g to h are deleted, and have a cell before in g and one
/// since in h; i has a deleted cell and another one.
const HELD: &str =
    "Rg..h+@5 Mb= Mc= De@2 Df@2 4a=y 3a=x 3b=x 3b@2 3d 3e=x 3f=z@3 3g=x 3h=@9 3i@2 5i=u@2";

/// The same, nothing, and the deletion of the rows from c to f, which covers what c has, in three orders.
const HELD_NONE_GONE: &str = "Rg..h+@5 Mb= Mc= De@2 Df@2 4a=y 3a=x 3b=x 3b@2 3d 3e=x 3f=z@3 3g=x \
     3h=@9 3i@2 5i=u@2\n\nRc..f+@2";

const NONE_GONE_HELD: &str = "\nRc..f+@2\nRg..h+@5 Mb= Mc= De@2 Df@2 4a=y 3a=x 3b=x 3b@2 3d 3e=x \
     3f=z@3 3g=x 3h=@9 3i@2 5i=u@2";

const GONE_HELD_NONE: &str = "Rc..f+@2\nRg..h+@5 Mb= Mc= De@2 Df@2 4a=y 3a=x 3b=x 3b@2 3d 3e=x \
     3f=z@3 3g=x 3h=@9 3i@2 5i=u@2\n\n";

const SHOWN: [Case; 40] = [
    (HELD, "..+ 0", "+"),
    (HELD, "..+ 1", "a:3=x,4=y, +"),
    (HELD, "..+ 2", "a:3=x,4=y, b: +"),
    (HELD, "..+ 5", "a:3=x,4=y, b: c: f:3=z, h:3=, +"),
    (HELD, "..+ 6", "a:3=x,4=y, b: c: f:3=z, h:3=, i:5=u, "),
    (HELD, "..+ 7", "a:3=x,4=y, b: c: f:3=z, h:3=, i:5=u, "),
    (
        HELD,
        "..+ 4294967295",
        "a:3=x,4=y, b: c: f:3=z, h:3=, i:5=u, ",
    ),
    (HELD, "-..+ 0", "+"),
    (HELD, "-..+ 1", "i:5=u, +"),
    (HELD, "-..+ 2", "i:5=u, h:3=, +"),
    (HELD, "-..+ 5", "i:5=u, h:3=, f:3=z, c: b: +"),
    (HELD, "-..+ 6", "i:5=u, h:3=, f:3=z, c: b: a:3=x,4=y, "),
    (
        HELD,
        "-..+ 4294967295",
        "i:5=u, h:3=, f:3=z, c: b: a:3=x,4=y, ",
    ),
    (HELD, "b..f+ 9", "b: c: f:3=z, "),
    (HELD, "b+..f 9", "c: "),
    (HELD, "-b..h+ 2", "h:3=, f:3=z, +"),
    (HELD, "d..e+ 0", ""),
    (HELD, "c..c+ 1", "c: "),
    (HELD, "c..e+ 1", "c: "),
    (HELD, "-d..f+ 1", "f:3=z, "),
    (HELD, "-h+..a 9", ""),
    // A reversed read gives the last rows.
    (HELD, "-b..f+ 1", "f:3=z, +"),
    (HELD, "-b..f+ 2", "f:3=z, c: +"),
    (HELD, "-b..f+ 3", "f:3=z, c: b: "),
    (HELD, "-c..g+ 1", "f:3=z, +"),
    (HELD, "-c..g+ 2", "f:3=z, c: "),
    // An empty content shows no row.
    ("\n", "..+ 0", ""),
    ("\n", "-..+ 3", ""),
    // Wide and empty replies show one thing.
    (
        HELD_NONE_GONE,
        "..+ 9",
        "a:3=x,4=y, b: f:3=z, h:3=, i:5=u, ",
    ),
    (
        NONE_GONE_HELD,
        "..+ 9",
        "a:3=x,4=y, b: f:3=z, h:3=, i:5=u, ",
    ),
    (
        GONE_HELD_NONE,
        "..+ 9",
        "a:3=x,4=y, b: f:3=z, h:3=, i:5=u, ",
    ),
    (HELD_NONE_GONE, "b..f+ 9", "b: f:3=z, "),
    (NONE_GONE_HELD, "b..f+ 9", "b: f:3=z, "),
    (GONE_HELD_NONE, "b..f+ 9", "b: f:3=z, "),
    (HELD_NONE_GONE, "c..e+ 9", ""),
    (NONE_GONE_HELD, "c..e+ 9", ""),
    (GONE_HELD_NONE, "c..e+ 9", ""),
    (HELD_NONE_GONE, "h..a+ 9", ""),
    (NONE_GONE_HELD, "h..a+ 9", ""),
    (GONE_HELD_NONE, "h..a+ 9", ""),
];

/// Changes at places of each kind, submitted before the time of their request.
const COPIED: &str =
    "4r=v@-5#8/9 Mr=v@-5#8/9 Ds=v@-5#8/9 4r@-5#8/9 Ra..b+@-5#8/9 P@-5#8/9 Mr=@-5#8/9";

/// Drafts, of which those at 0 have no timestamp; a batch changes each place once.
const MADE: [Case; 6] = [
    ("2r=v@-2 3r=v@0", "", "2r=v@-2#9 3r=v@9#9"),
    ("2r=v@7 2r=v@0", "", "2r=v@9#9"),
    ("2r=v@0 2r=v@7", "", "2r=v@9#9"),
    ("2r=v@0 2r=v@11", "", "2r=v@11#9"),
    ("2r=v@11 2r=v@0", "", "2r=v@11#9"),
    ("2r=v@0 2r=v@0", "", "2r=v@9#9"),
];

/// A cell keeps its arrival until another comes.
const ARRIVED: [Case; 9] = [
    ("1a@5", "1a", "0"),
    ("1a@5\n1a@5", "1a", "0"),
    ("1a@5\n1a@5\n1a@4", "1a", "0"),
    ("1a@5\n1a@5\n1a@4\nDa@4", "1a", "0"),
    ("1a@5\n1a@5\n1a@4\nDa@4\n1a@6", "1a", "4"),
    ("1a@5\n1a@5\n1a@4\nDa@4\n1a@6\nDa@6", "1a", "never"),
    ("1a@5\n1a@5\n1a@4\nDa@4\n1a@6\nDa@6\n1a@6", "1a", "never"),
    ("1a@5\n1a@5\n1a@4\nDa@4\n1a@6\nDa@6\n1a@6\n1a@7", "1a", "7"),
    (
        "1a@5\n1a@5\n1a@4\nDa@4\n1a@6\nDa@6\n1a@6\n1a@7\n1a@7",
        "1a",
        "7",
    ),
];

/// Of 10,000 cells, 9,990 of 37 bytes are left, and the deletion of the others, of 46 bytes.
const LEFT: [Case; 1] = [("R05000..05009+@2", "", "true 9991 369680 100000000001")];

/// Cells all in order; one that comes again, one out of order, and one that is later at its place; a deletion of a row;
/// nothing; and cells behind all others.
const LOADED: [Case; 6] = [
    ("", "", ""),
    ("1a=v 1b=v 1c=v", "", ""),
    ("1a=v 1b=v 1c=v\n1a=v 1aa=v@2 1b=v@3 1d=v", "", ""),
    (
        "1a=v 1b=v 1c=v\n1a=v 1aa=v@2 1b=v@3 1d=v\nDb@2 1c=v@2",
        "",
        "",
    ),
    (
        "1a=v 1b=v 1c=v\n1a=v 1aa=v@2 1b=v@3 1d=v\nDb@2 1c=v@2\n\n",
        "",
        "",
    ),
    (
        "1a=v 1b=v 1c=v\n1a=v 1aa=v@2 1b=v@3 1d=v\nDb@2 1c=v@2\n\n1e=v 1f=v",
        "",
        "",
    ),
];

const CASES: [(Ask, &[Case]); 15] = [
    (Ask::Does, &DOING),
    (Ask::Long, &LENGTHS),
    (Ask::Sorted, &SORTED),
    (Ask::Joined, &JOINED),
    (Ask::Merged, &MERGED),
    (Ask::Same, &SAME),
    (Ask::Sliced, &SLICED),
    (Ask::Walked, &WALKED),
    (Ask::Shown, &SHOWN),
    (Ask::Paged, &[(HELD, "..+ 3", "")]),
    (Ask::Copied, &[(COPIED, "-a+..c 6", COPIED)]),
    (Ask::Made, &MADE),
    (Ask::Arrived, &ARRIVED),
    (Ask::Left, &LEFT),
    (Ask::Loaded, &LOADED),
];

#[test]
fn worked_cases_are_so(rt: HostRuntime) -> Result<(), Fail> {
    for (ask, cases) in &CASES {
        for (first, second, answer) in *cases {
            let is_right = is_so(rt.alloc(), ask, first, second, answer)?;
            assert!(rt; is_right, "{first} {second} {answer}");
        }
    }
    Ok(())
}
