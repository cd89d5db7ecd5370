//! The gate of workers: where growers and sessions pass before their turns.
//!
//! The program's gate lets everybody through. A test's may hold one worker until another has come.
#![tactic(auto)]

/// What each grower and each session passes before its turns, so that a test can hold one of them until another has come.
/// Growers are numbered from 0; session s has the number 16 + s.
pub trait Gate: Sync {
    /// The worker is about to take this turn: turn 0 is its start, and turn k comes before a grower's k-th parcel.
    fn pass(&self, worker: u32, turn: u64);
}

/// A gate that holds nobody.
#[derive(Clone, Copy, Debug)]
pub struct OpenGate;

impl Gate for OpenGate {
    fn pass(&self, _worker: u32, _turn: u64) {}
}
