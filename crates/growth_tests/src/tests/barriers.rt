//! A gate at which workers wait for each other.
use std::sync::atomic::{AtomicU64, Ordering};
use worker_gate::Gate;

/// The most turns of a wait.
pub(super) const MOST_TURNS: u64 = 1_000_000_000;

/// A gate at whose start some workers wait until all of them have come, for so many turns at most.
#[derive(Drop)]
pub(super) struct Barrier {
    /// The bits of the workers that wait.
    workers: u64,
    came: AtomicU64,
    missed: AtomicU64,
}

impl Barrier {
    pub(super) fn of(workers: u64) -> Barrier {
        Barrier {
            workers,
            came: AtomicU64::new(0),
            missed: AtomicU64::new(0),
        }
    }

    /// How many workers missed others, and the bits of those that came.
    pub(super) fn counts(&self) -> (u64, u64) {
        (
            self.missed.load(Ordering::SeqCst),
            self.came.load(Ordering::SeqCst),
        )
    }
}

impl Gate for Barrier {
    fn pass(&self, worker: u32, turn: u64) {
        if turn != 0 {
            return;
        }
        let own = 1 << (worker % 64);
        self.came.fetch_or(own, Ordering::SeqCst);
        if own & self.workers == 0 {
            return;
        }
        for _ in 0..MOST_TURNS {
            if self.came.load(Ordering::SeqCst) & self.workers == self.workers {
                return;
            }
        }
        self.missed.fetch_add(1, Ordering::SeqCst);
    }
}
