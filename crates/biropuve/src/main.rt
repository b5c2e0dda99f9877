//! The program: it makes the real source, sink, stores, doors, clock and threads, and ends with the status of the top call.
#![tactic(auto)]

use cluster_program::run_cluster;
use cs_doors::TcpDoors;
use cs_io::{OpenGate, StdSink, StdSource};
use cs_runtime::{SysClock, ThreadSpawner};
use folder_store::DirStores;
use std::alloc::Global;
use std::process::ExitCode;
use std::{env, io};

/// The words behind the program's name.
fn words(rt: &HostRuntime) -> io::Result<Vec<String>> {
    let mut words = Vec::new(rt.alloc());
    for word in env::args(rt)?.skip(1) {
        words.push(word)?;
    }
    Ok(words)
}

fn main(rt: HostRuntime) -> io::Result<ExitCode> {
    let words = words(&rt)?;
    let finished = run_cluster(
        &rt,
        rt.alloc(),
        &words,
        StdSource::new(rt.reader()),
        StdSink::new(io::writer(&rt)),
        &mut DirStores::new(&rt),
        &mut TcpDoors::new(&rt, rt.alloc()),
        &SysClock::new(&rt),
        &mut ThreadSpawner::new(&rt),
        &OpenGate,
    );
    Ok(ExitCode::from(finished.status.code()))
}
