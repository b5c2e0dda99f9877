//! What a connection reads and writes, measured: `protocol_bench BENCH [COUNT ..]`, by the benches `frames`, `bodies`,
//! `statements`, `bindings` and `conversation`. With no words each of them writes its sample.
#![tactic(auto)]

mod bindings;
mod bodies;
mod conversation;
mod frames;
mod statements;

use anyhow::{Result, bail};
use std::env;

fn main(rt: HostRuntime) -> Result<()> {
    let words: Vec<String> = env::args(&rt)?.collect(rt.alloc())?;
    match words.as_slice() {
        [_, bench, rest @ ..] if bench.as_str() == "conversation" => conversation::run(&rt, rest),
        [_, bench, rest @ ..] => run(&rt, bench.as_str(), rest),
        _ => {
            samples(&rt)?;
            conversation::run(&rt, &[])
        }
    }
}

fn run(rt: &HostRuntime, bench: &str, words: &[String]) -> Result<()> {
    match bench {
        "frames" => frames::run(rt, words)?,
        "bodies" => bodies::run(rt, words)?,
        "statements" => statements::run(rt, words)?,
        "bindings" => bindings::run(rt, words)?,
        _ => bail!("frames, bodies, statements, bindings, conversation, or no words"),
    }
    Ok(())
}

fn samples(rt: &HostRuntime) -> Result<()> {
    for bench in ["frames", "bodies", "statements", "bindings"] {
        run(rt, bench, &[])?;
    }
    Ok(())
}
