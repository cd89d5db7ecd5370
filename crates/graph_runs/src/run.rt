//! The run of a job.
ghost use Rattle.std.specs.Prelude.{◌≡◌, ℕ, ◌<◌, ◌≤◌, [], length, All, Contains, IfOk, slice_index_or};
ghost use Rattle.session_desk.specs.Sessions.{IsAsked};
ghost use Rattle.session_desk.specs.Texts.{IsPrintable};
ghost use Rattle.graph_runs.specs.Runs.{IsHistory, EndsRun, Holds};

use crate::beside::{GrownSeat, run_both};
use crate::ending::end_run;
use crate::hear::{Brought, hear};
use crate::seats::seat_all;
use crate::serve::{Served, begin};
use canonical_graph::Finished;
use crystal_streams::NoMemory;
use graph_history::Front;
use graph_rule::{Graph, Seat};
use job_text::Scripts;
use session_desk::Replies;
use std::alloc::Global;
use std::thread::Threads;
use tensor_words::{Codes, World};
use worker_gate::Gate;

/// The graph of a run, and the seat into which all others were joined.
#[derive(Drop)]
pub struct Held {
    pub graph: Graph,
    pub seat: Seat,
}

/// What a run gave.
#[derive(Drop)]
pub struct Ran {
    /// The replies of the sessions, in order.
    pub told: Vec<Replies>,
    /// The finished graph; `None` where some word found no cell.
    pub finished: Option<Finished>,
    /// The history of the run.
    pub front: Front,
    pub held: Held,
}

/// Grows the graph of a world from the starts, with so many growers, while the scripts of the sessions run on it, each on
/// a thread and under a number of its own.
pub fn run_beside<R: Threads + Sync, G: Gate>(
    rt: &R,
    alloc: Global,
    world: World,
    starts: &Codes,
    scripts: &Scripts,
    growers: u32,
    gate: &G,
) -> Result<Ran, NoMemory>
    requires rooted { All (Contains world.roots) starts.now }
    requires asked { All (All (IsAsked world)) scripts.now }
    requires few { length scripts.now ≤ 16 }
    requires growers { (1 ≤ growers) × (growers ≤ 16) }
    ensures history { IfOk result (λ ran. IsHistory world starts.now scripts.now ran.front ran.told.items) }
    ensures printable { IfOk result (λ ran. (k : ℕ) → k < length scripts.now → All (IsPrintable world.space) (slice_index_or ran.told.items k [])) }
    ensures ends { IfOk result (λ ran. EndsRun world ran.front ran.finished) }
    ensures held { IfOk result (λ ran. Holds world ran.held.graph ran.held.seat ran.front) }
{
    let (graph, seat) = Graph::new(alloc, world)?;
    let Served {
        mut seat,
        cells,
        replies: _,
    } = begin(alloc, &graph, seat, starts)?;
    let sessions = seat_all(alloc, &graph, &mut seat, scripts.len())?;
    let (growth, back) = run_both(
        rt,
        alloc,
        &graph,
        (seat, cells, growers),
        scripts,
        sessions,
        gate,
    );
    let GrownSeat { mut seat, grown } = growth?;
    let Brought { told, cells } = hear(alloc, &graph, &mut seat, scripts, back?)?;
    let finished = end_run(rt, alloc, &graph, &mut seat, grown, cells, growers, gate)?;
    Ok(Ran {
        told,
        finished,
        front: seat.front(),
        held: Held { graph, seat },
    })
}
