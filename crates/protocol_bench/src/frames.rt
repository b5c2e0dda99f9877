//! Feeds a framer a made stream of requests, and prints what came out: `frames [FRAMES PIECE_LENGTH]`.
//!
//! With two numbers it does so several times, and prints the nanoseconds of the fastest turn too. The stream and the
//! counts are those of `bench/frame_v4/plain.rs`, which does the same without contracts.

use anyhow::Result;
use cs_base::Bytes;
use frame_v4::{Frame, FrameError, Framer, write_request};
use std::alloc::{AllocError, Global};
use std::io;
use std::time::Instant;

/// How often the stream is fed where time is measured.
const TURNS: u32 = 7;

/// What came out, so that two programs can be compared.
#[derive(Clone, Copy)]
struct Tally {
    frames: u64,
    bytes: u64,
    mix: u64,
}

impl Tally {
    fn add(&mut self, frame: &Frame) {
        let body = frame.body.as_slice();
        let last = body.last().copied().unwrap_or(0);
        let stream = u64::from(frame.stream.cast_unsigned());
        self.frames = self.frames.wrapping_add(1);
        self.bytes = self.bytes.wrapping_add(body.len() as u64);
        self.mix = self
            .mix
            .wrapping_mul(31)
            .wrapping_add(stream)
            .wrapping_add(u64::from(last));
    }
}

/// A request of 20 to 119 bytes.
fn request(alloc: Global, number: u32) -> Result<Bytes, AllocError> {
    let length = 20 + number.wrapping_mul(7919) % 100;
    let mut body = Vec::new(alloc);
    for place in 0..length {
        body.push((number.wrapping_add(place) % 256) as u8)?;
    }
    let frame = Frame {
        flags: 0,
        stream: (number % 32768) as i16,
        opcode: 0x07,
        body: Bytes::from_vec(body),
    };
    if frame.body.as_slice().len() > 200 {
        return Err(AllocError);
    }
    write_request(alloc, &frame)
}

fn requests(alloc: Global, count: u32) -> Result<Vec<u8>, AllocError> {
    let mut stream = Vec::new(alloc);
    for number in 0..count {
        stream.extend_from_slice(request(alloc, number)?.as_slice())?;
    }
    Ok(stream)
}

/// Feeds the stream in pieces of this length.
fn feed_all(alloc: Global, stream: &[u8], piece_len: usize) -> Result<Tally, FrameError> {
    let mut framer = Framer::new(alloc);
    let mut tally = Tally {
        frames: 0,
        bytes: 0,
        mix: 0,
    };
    for piece in stream.chunks(piece_len.max(1)) {
        let frames = framer.feed(piece)?;
        for frame in frames.as_slice() {
            tally.add(frame);
        }
    }
    Ok(tally)
}

fn print_tally(rt: &impl Print, tally: &Tally) -> io::Result<()> {
    let Tally { frames, bytes, mix } = tally;
    println!(rt; "frames {frames}, body bytes {bytes}, mix {mix}")
}

/// The few frames that a run with no argument feeds.
fn run_small(rt: &HostRuntime) -> Result<()> {
    let stream = requests(rt.alloc(), 1000)?;
    print_fed(rt, feed_all(rt.alloc(), &stream, 4096))?;
    Ok(())
}

fn print_fed(rt: &impl Print, fed: Result<Tally, FrameError>) -> io::Result<()> {
    match fed {
        Ok(tally) => print_tally(rt, &tally),
        Err(error) => println!(rt; "{error}"),
    }
}

/// The fastest of several turns.
fn run_timed(rt: &HostRuntime, count: u32, piece_len: usize) -> Result<()> {
    let stream = requests(rt.alloc(), count)?;
    let mut fastest = u128::MAX;
    for turn in 0..TURNS {
        let start = Instant::now(rt)?;
        let fed = feed_all(rt.alloc(), &stream, piece_len);
        fastest = fastest.min(start.elapsed(rt)?.as_nanos());
        if turn == 0 {
            print_fed(rt, fed)?;
        }
    }
    let length = stream.len();
    println!(rt; "bytes {length}, nanoseconds {fastest}")?;
    Ok(())
}

pub(crate) fn run(rt: &HostRuntime, words: &[String]) -> Result<()> {
    match words {
        [count, piece_len] => run_timed(rt, count.parse()?, piece_len.parse()?),
        _ => run_small(rt),
    }
}
