//! A script in which a node stops at each call of its store in turn, and is loaded again, against a plain model of what it may
//! answer.

use crate::running::run_program;
use cluster_program::Status;
use cs_io::{MemSink, MemSource};
use std::alloc::{AllocError, Global};
use std::sync::Wait;
use std::test::Fail;
use std::thread::Threads;

/// A value is a digit, which is its timestamp too. Nothing is below it.
const NOTHING: u8 = b'0';

const REPLICAS: usize = 3;

/// A row of the partition, and a value.
#[derive(Clone, Copy, PartialEq, Eq)]
struct Cell {
    row: u8,
    value: u8,
}

/// A request, with what befalls the other nodes before it.
#[derive(Clone, Copy)]
struct Step<'a> {
    before: &'a str,
    request: &'a str,
    /// For so many replicas it waits.
    needed: usize,
    /// What it writes. A read writes nothing.
    writes: Option<Cell>,
}

/// Node 1 stops. Of the nodes that are down when something is written, or read, each misses it: so most of these reads can have
/// what they must show from node 1 alone.
const STEPS: [Step; 10] = [
    Step {
        before: "crash 2 lost\n",
        request: "put 0 QUORUM k a 1 1\n",
        needed: 2,
        writes: Some(Cell {
            row: b'a',
            value: b'1',
        }),
    },
    Step {
        before: "",
        request: "put 1 TWO k b 2 2\n",
        needed: 2,
        writes: Some(Cell {
            row: b'b',
            value: b'2',
        }),
    },
    Step {
        before: "crash 0 lost\n",
        request: "put 1 ONE k c 3 3\n",
        needed: 1,
        writes: Some(Cell {
            row: b'c',
            value: b'3',
        }),
    },
    Step {
        before: "restart 2\n",
        request: "get 2 QUORUM k\n",
        needed: 2,
        writes: None,
    },
    Step {
        before: "restart 0\n",
        request: "get 0 ALL k\n",
        needed: 3,
        writes: None,
    },
    Step {
        before: "",
        request: "put 2 ALL k a 4 4\n",
        needed: 3,
        writes: Some(Cell {
            row: b'a',
            value: b'4',
        }),
    },
    Step {
        before: "",
        request: "get 1 ONE k\n",
        needed: 1,
        writes: None,
    },
    Step {
        before: "crash 2 torn\n",
        request: "put 0 QUORUM k b 5 5\n",
        needed: 2,
        writes: Some(Cell {
            row: b'b',
            value: b'5',
        }),
    },
    Step {
        before: "restart 2\ncrash 0 kept\n",
        request: "get 1 QUORUM k\n",
        needed: 2,
        writes: None,
    },
    Step {
        before: "restart 0\n",
        request: "get 2 ALL k\n",
        needed: 3,
        writes: None,
    },
];

/// What is printed where no node stops.
const UNSTOPPED: &str = "1 ok
2 rows 0
3 ok
4 rows 0
5 ok
6 rows 0
7 rows 3
 'a' | '1'
 'b' | '2'
 'c' | '3'
8 rows 0
9 rows 3
 'a' | '1'
 'b' | '2'
 'c' | '3'
10 rows 0
11 ok
12 rows 0
13 rows 3
 'a' | '4'
 'b' | '2'
 'c' | '3'
14 rows 0
15 ok
16 rows 0
17 rows 3
 'a' | '4'
 'b' | '5'
 'c' | '3'
18 rows 0
19 rows 3
 'a' | '4'
 'b' | '5'
 'c' | '3'
20 rows 0
";

/// The script in which node 1 stops at this call. Behind each request another partition is read at it, which tells whether it
/// runs, and it is loaded again if it does not.
fn script(alloc: Global, call: u32, outcome: &str) -> Result<String, AllocError> {
    let mut script = format!(in alloc;
        "cassandra-script 1\nring -3 0 3\nrf 3\nrun\nstopat 1 {call} {outcome}\n"
    )?;
    for step in &STEPS {
        script.push_str(step.before)?;
        script.push_str(step.request)?;
        script.push_str("settle 100\nget 1 ONE z\nrestart 1\n")?;
    }
    Ok(script)
}

/// What the program prints of a script.
fn printed<R: Threads + Wait + Sync>(rt: &R, alloc: Global, script: &str) -> Result<String, Fail> {
    let words = vec![in alloc; String::from_str(alloc, "script")?]?;
    let bytes = Vec::from_slice(alloc, script.as_bytes())?;
    let source = MemSource::new(bytes, 1000, Vec::new(alloc));
    let sink = MemSink::new(alloc, 1000, Vec::new(alloc));
    let finished = run_program(rt, alloc, &words, source, sink)?;
    if finished.status != Status::Ok {
        return Err("the script is not run".into());
    }
    Ok(String::from_str(alloc, std::str::from_utf8(finished.sink.bytes())?)?)
}

/// A cell that the answer of the request shows.
#[derive(Clone, Copy)]
struct Shown {
    request: usize,
    cell: Cell,
}

/// The printed answers, by the numbers of the requests.
#[derive(Drop)]
struct Answers {
    acknowledged: Vec<usize>,
    read: Vec<usize>,
    shown: Vec<Shown>,
    has_stopped: bool,
}

/// The row and the value that a line shows.
fn cell_of(line: &str) -> Option<Cell> {
    match line.as_bytes() {
        [
            b' ',
            b'\'',
            row,
            b'\'',
            b' ',
            b'|',
            b' ',
            b'\'',
            value,
            b'\'',
        ] => Some(Cell {
            row: *row,
            value: *value,
        }),
        _ => None,
    }
}

impl Answers {
    /// Takes a line in behind that of this request.
    fn take(&mut self, request: usize, line: &str) -> Result<usize, Fail> {
        if let Some(cell) = cell_of(line) {
            self.shown.push(Shown { request, cell })?;
            return Ok(request);
        }
        let (number, answer) = line.split_once(' ').ok_or("no answer")?;
        let request = number.parse::<usize>()?;
        match answer.split_once(' ').map_or(answer, |(word, _)| word) {
            "ok" => self.acknowledged.push(request)?,
            "rows" => self.read.push(request)?,
            "down" => self.has_stopped = true,
            _ => return Err("another answer".into()),
        }
        Ok(request)
    }

    fn of(alloc: Global, text: &str) -> Result<Answers, Fail> {
        let mut answers = Answers {
            acknowledged: Vec::new(alloc),
            read: Vec::new(alloc),
            shown: Vec::new(alloc),
            has_stopped: false,
        };
        let mut request = 0;
        for line in text.lines() {
            request = answers.take(request, line)?;
        }
        Ok(answers)
    }

    /// The value of a row in the answer of a request, and how often it is shown.
    fn value(&self, request: usize, row: u8) -> (u8, usize) {
        let mut value = NOTHING;
        let mut count: usize = 0;
        for shown in &self.shown {
            if shown.request == request && shown.cell.row == row {
                value = shown.cell.value;
                count = count.saturating_add(1);
            }
        }
        (value, count)
    }

    fn is_acknowledged(&self, request: usize) -> bool {
        self.acknowledged.iter().any(|other| *other == request)
    }

    fn is_read(&self, request: usize) -> bool {
        self.read.iter().any(|other| *other == request)
    }

    /// The greatest value of the row that a read with so many replicas has to meet, of what the steps before this place wrote.
    fn met(&self, place: usize, needed: usize, row: u8) -> u8 {
        let mut value = NOTHING;
        for (before, step) in STEPS.iter().take(place).enumerate() {
            if let Some(cell) = step.writes {
                let meets = step.needed.saturating_add(needed) > REPLICAS;
                if cell.row == row && meets && self.is_acknowledged(number_of(before)) {
                    value = value.max(cell.value);
                }
            }
        }
        value
    }

    /// Whether an answered read shows in a row what it has to, once, and nothing that was not asked for.
    fn row_is_right(&self, place: usize, needed: usize, row: u8) -> bool {
        let (value, count) = self.value(number_of(place), row);
        let is_known = value == NOTHING || was_asked(place, Cell { row, value });
        is_known && count <= 1 && value >= self.met(place, needed, row)
    }

    /// Whether an answered read shows no other row than these.
    fn rows_are_known(&self, request: usize) -> bool {
        self.shown.iter().all(|shown| shown.request != request
            || matches!(shown.cell.row, b'a'..=b'c'))
    }

    /// Whether the answer of the step at this place is right, if it has one.
    fn is_right(&self, place: usize, step: &Step) -> bool {
        let request = number_of(place);
        if step.writes.is_some() || !self.is_read(request) {
            return true;
        }
        self.rows_are_known(request)
            && self.row_is_right(place, step.needed, b'a')
            && self.row_is_right(place, step.needed, b'b')
            && self.row_is_right(place, step.needed, b'c')
    }

    /// The place of the first step whose answer is wrong.
    fn first_wrong(&self) -> Option<usize> {
        for (place, step) in STEPS.iter().enumerate() {
            if !self.is_right(place, step) {
                return Some(place);
            }
        }
        None
    }
}

/// The number of the request of the step at this place.
fn number_of(place: usize) -> usize {
    place.saturating_mul(2).saturating_add(1)
}

/// Whether one of the steps before this place wrote the cell.
fn was_asked(place: usize, cell: Cell) -> bool {
    STEPS
        .iter()
        .take(place)
        .any(|step| step.writes == Some(cell))
}

fn wrong(
    alloc: Global,
    outcome: &str,
    call: u32,
    place: usize,
    text: &str,
) -> Result<Fail, AllocError> {
    let why = format!(in alloc; "{outcome} {call}: step {place} is wrong in {text}")?;
    Ok(why.as_str().into())
}

/// Whether a node stopped in the run of which this is the print, each of whose answers is right.
fn has_stopped(alloc: Global, text: &str, outcome: &str, call: u32) -> Result<bool, Fail> {
    let answers = Answers::of(alloc, text)?;
    match answers.first_wrong() {
        Some(place) => Err(wrong(alloc, outcome, call, place, text)?),
        None => Ok(answers.has_stopped),
    }
}

/// Whether node 1 stops at this call.
fn stops_at<R: Threads + Wait + Sync>(
    rt: &R,
    alloc: Global,
    call: u32,
    outcome: &str,
) -> Result<bool, Fail> {
    let text = printed(rt, alloc, script(alloc, call, outcome)?.as_str())?;
    if has_stopped(alloc, text.as_str(), outcome, call)? {
        return Ok(true);
    }
    if text.as_str() != UNSTOPPED {
        return Err("without a stop something else is answered".into());
    }
    Ok(false)
}

/// At how many calls node 1 stops, with this outcome, until there is none left.
fn stops<R: Threads + Wait + Sync>(rt: &R, alloc: Global, outcome: &str) -> Result<u32, Fail> {
    for call in 1..100 {
        if !stops_at(rt, alloc, call, outcome)? {
            return Ok(call.saturating_sub(1));
        }
    }
    Err("it stops again and again".into())
}

// Node 1 keeps five writes, and twice a new ceiling alone, at four calls each.
#[test]
fn acknowledged_writes_outlive_stops(rt: HostRuntime) -> Result<(), Fail> {
    for outcome in ["kept", "lost", "torn"] {
        assert!(rt; stops(&rt, rt.alloc(), outcome)? == 28, "{outcome}");
    }
    Ok(())
}
