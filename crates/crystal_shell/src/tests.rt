//! The program on streams in memory: what no row of whole texts can show.

mod meetings;
mod statistics;
mod streams;

use crate::running::run;
use crystal_streams::{MemorySink, MemorySource};
use std::alloc::{AllocError, Global};
use std::test::Fail;
use std::thread::Threads;
use worker_gate::Gate;

/// The room of a sink that is never used up.
const ROOM: usize = 8_000_000;

/// The status and the output of a run with these words and no statistics.
fn run_bare<T: Threads + Sync, G: Gate>(
    rt: &T,
    alloc: Global,
    words: &[&str],
    source: MemorySource,
    sink: MemorySink,
    gate: &G,
) -> Result<(u8, Vec<u8>), Fail> {
    let words = strings(alloc, words)?;
    let (mut source, mut sink) = (source, sink);
    let outcome = run(
        rt,
        alloc,
        words.as_slice(),
        &mut source,
        &mut sink,
        Vec::new(alloc),
        gate,
    );
    Ok((outcome.status, sink.bytes().to_vec(alloc)?))
}

fn strings(alloc: Global, words: &[&str]) -> Result<Vec<String>, AllocError> {
    let mut all = Vec::new(alloc);
    for word in words {
        all.push(String::from_str(alloc, word)?)?;
    }
    Ok(all)
}

/// A job with this text behind the header.
fn job(alloc: Global, text: &str) -> Result<Vec<u8>, AllocError> {
    let mut bytes = b"crystal-job 1\n".to_vec(alloc)?;
    bytes.extend_from_slice(text.as_bytes())?;
    Ok(bytes)
}

const A2: &str = "crystal A 2\ngraph 8 8\n0 | 2 1 1 | 2 1 0 | 1:1 2:3\n1 | 2 1 2 | 1 2 0 | 2:2\n\
2 | 2 1 3 | 1 1 1 | 2:5\n3 | 3 1 1 | 2 0 1 | 1:4\n4 | 3 1 2 | 1 1 1 | 1:6\n5 | 3 1 3 | 1 0 2 | 1:7\n\
6 | 3 2 2 | 0 2 1 | 2:7\n7 | 3 2 3 | 0 1 2 | -\nend\n";
