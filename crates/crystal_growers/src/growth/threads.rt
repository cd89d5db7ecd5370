//! Growers side by side.
ghost use Rattle.std.specs.Prelude.{◌≡◌, [], All, IfOk};
ghost use Rattle.crystal_growers.specs.Drawing.{IsWaiting};
ghost use Rattle.crystal_growers.specs.Grower.{IsShift};
ghost use Rattle.crystal_growers.specs.Gathering.{AreShifts};

use crate::grower::{Shift, Start, work};
use graph_rule::Graph;
use parcel_deques::Naming;
use std::alloc::AllocError;
use std::thread;
use std::thread::Threads;
use worker_gate::Gate;

/// Lets each grower work on a thread of its own.
pub(crate) fn work_all<J: Naming + Send + Sync, R: Threads + Sync, G: Gate>(
    rt: &R,
    graph: &Graph,
    gate: &G,
    starts: Vec<Start<J>>,
) -> Result<Vec<Shift<J>>, AllocError>
    requires named { J.graph ≡ graph.now }
    requires free { All (λ s. IsWaiting graph.now [] s.seat × (s.bench.away ≡ [])) starts.items }
    ensures { IfOk result (λ shifts. AreShifts graph.now starts.items shifts.items) }
{
    thread::map_vec(
        rt,
        starts,
        &|start: Start<J>| -> Shift<J>
            requires { (J.graph ≡ graph.now) × IsWaiting graph.now [] start.seat × (start.bench.away ≡ []) }
            ensures { IsShift graph.entry.now start.seat result.seat start.bench result.bench result.ending }
        { work(graph, gate, start) },
    )
}
