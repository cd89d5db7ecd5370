//! What a grower does in one round.
ghost use Rattle.std.specs.Prelude.{◌≡◌};
ghost use Rattle.wide_growth.specs.Rounds.{CanDraw, IsDone};

use crate::drawing::{OpenVertex, Stop, draw_all};
use std::alloc::Global;
use wide_rule::{WideGraph, WideSeat};
use wide_words::WideSteps;
use worker_gate::Gate;

/// What a grower is given: its number, its turn at the gate, a seat of its own, and its part of the open vertices.
#[derive(Drop)]
pub(crate) struct Job {
    pub(crate) alloc: Global,
    pub(crate) worker: u32,
    pub(crate) turn: u64,
    pub(crate) seat: WideSeat,
    pub(crate) waiting: Vec<OpenVertex>,
}

/// What a grower gives back: its seat, the vertices that it put in, and how many lowering arrows of its part lead to a
/// word.
#[derive(Drop)]
pub(crate) struct Share {
    pub(crate) seat: WideSeat,
    pub(crate) added: Vec<OpenVertex>,
    pub(crate) arrows: u64,
}

/// Does a job, after the turn at the gate.
pub(crate) fn work<G: Gate>(
    graph: &WideGraph,
    steps: &WideSteps,
    gate: &G,
    job: Job,
) -> Result<Share, Stop>
    requires can { CanDraw graph.now job.seat job.waiting.items }
    requires steps { steps.now ≡ graph.now.world.space }
    ensures { IsDone job result }
{
    let Job {
        alloc,
        worker,
        turn,
        mut seat,
        waiting,
    } = job;
    gate.pass(worker, turn);
    let mut added = Vec::new(alloc);
    match draw_all(graph, steps, &mut seat, waiting.as_slice(), &mut added) {
        Ok(arrows) => Ok(Share {
            seat,
            added,
            arrows,
        }),
        Err(stop) => Err(stop),
    }
}
