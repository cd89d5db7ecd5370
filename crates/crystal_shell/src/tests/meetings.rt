//! Growers and sessions run beside each other.

use super::{ROOM, job, run_bare};
use crystal_streams::{MemorySink, MemorySource};
use std::alloc::Global;
use std::sync::atomic::{AtomicU64, Ordering};
use std::test::Fail;
use std::thread::Threads;
use worker_gate::Gate;

/// A gate at whose start some workers wait for each other, for so many turns at most.
#[derive(Drop)]
struct Meeting {
    /// The bits of the workers that wait.
    workers: u64,
    came: AtomicU64,
    missed: AtomicU64,
}

const MOST_TURNS: u64 = 1_000_000_000;

impl Gate for Meeting {
    fn pass(&self, worker: u32, turn: u64) {
        if turn != 0 {
            return;
        }
        let own = 1 << (worker % 64);
        self.came.fetch_or(own, Ordering::SeqCst);
        if own & self.workers == 0 {
            return;
        }
        for _ in 0..MOST_TURNS {
            if self.came.load(Ordering::SeqCst) & self.workers == self.workers {
                return;
            }
        }
        self.missed.fetch_add(1, Ordering::SeqCst);
    }
}

/// The status of a run at whose start these workers meet, and how many missed the others.
fn run_meeting<T: Threads + Sync>(
    rt: &T,
    alloc: Global,
    growers: &str,
    text: &str,
    workers: u64,
) -> Result<(u8, u64), Fail> {
    let gate = Meeting {
        workers,
        came: AtomicU64::new(0),
        missed: AtomicU64::new(0),
    };
    let source = MemorySource::new(job(alloc, text)?, Vec::new(alloc), 4096);
    let sink = MemorySink::new(alloc, ROOM, Vec::new(alloc), 4096)?;
    let (status, _output) = run_bare(rt, alloc, &["grow", growers], source, sink, &gate)?;
    Ok((status, gate.missed.load(Ordering::SeqCst)))
}

#[test]
fn workers_meet(rt: HostRuntime) -> Result<(), Fail> {
    let moves = "type A 1\nspace v v\nstart 1 1\nsession\nlook f 1 1 1\nf 1 1 1\nlook f 1 1 1\n";
    let adds = "type A 1\nspace v v\nstart 1 1\nsession\nadd 2 1\nsession\nadd 2 1\n";
    let growth = "type A 2\nshape 2 1\ncells 8\n";
    for (growers, text, workers) in [
        ("1", moves, (1 << 0) | (1 << 17)),
        ("1", adds, (1 << 17) | (1 << 18)),
        ("2", growth, (1 << 0) | (1 << 1)),
    ] {
        let ended = run_meeting(&rt, rt.alloc(), growers, text, workers)?;
        assert_eq!(rt; ended, (0, 0));
    }
    Ok(())
}
