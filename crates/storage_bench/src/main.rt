//! What is kept and shown of rows, measured: `storage_bench BENCH WORDS`, by the benches `logs`, `replicas`, `contents`, `queries`
//! and `mutations`. With no words each of them writes its sample.
#![tactic(auto)]

mod contents;
mod logs;
mod mutations;
mod queries;
mod replicas;

use anyhow::{Result, bail};
use std::env;

fn main(rt: HostRuntime) -> Result<()> {
    let words: Vec<String> = env::args(&rt)?.collect(rt.alloc())?;
    match words.as_slice() {
        [_, bench, rest @ ..] => run(&rt, bench.as_str(), rest),
        _ => samples(&rt),
    }
}

fn run(rt: &HostRuntime, bench: &str, words: &[String]) -> Result<()> {
    match bench {
        "logs" => logs::run(rt, words),
        "replicas" => replicas::run(rt, words),
        "contents" => contents::run(rt, words),
        "queries" => queries::run(rt, words),
        "mutations" => mutations::run(rt, words),
        _ => bail!("logs, replicas, contents, queries, mutations, or no words"),
    }
}

fn samples(rt: &HostRuntime) -> Result<()> {
    for bench in ["logs", "replicas", "contents", "queries", "mutations"] {
        run(rt, bench, &[])?;
    }
    Ok(())
}
