//! The growth of a job's graph from its first root.
ghost use Rattle.std.specs.Prelude.{◌≡◌, ◌≤◌, Contains};
ghost use Rattle.graph_rule.specs.Parting.{first_view};

use crystal_growers::{Grown, grow};
use crystal_streams::NoMemory;
use graph_history::{Added, Origin};
use graph_rule::{Graph, Seat};
use job_text::{Job, MOST_JOB_BYTES, read_job};
use std::alloc::Global;
use std::thread::Threads;
use table_calls::add;
use tensor_words::World;
use worker_gate::OpenGate;

/// How a growth ends.
#[derive(Clone, Copy, Debug, PartialEq, Eq)]
enum GrowthEnd {
    /// Nothing was grown.
    Begun,
    /// All arrows are drawn.
    Closed,
    /// There were too few cells.
    Full,
}

/// Grows the graph of a world from its first root alone, with so many growers; with none nothing is grown.
fn run_growth<R: Threads + Sync>(
    rt: &R,
    alloc: Global,
    world: World,
    growers: u32,
) -> Result<GrowthEnd, NoMemory>
    requires { growers ≤ 16 }
{
    let (graph, seat) = Graph::new(alloc, world)?;
    let root = *graph.world().roots().at(0);
    grow_from(rt, alloc, &graph, seat, root, growers)
}

/// Puts in a root at the first seat of a graph, and grows from its cell.
fn grow_from<R: Threads + Sync>(
    rt: &R,
    alloc: Global,
    graph: &Graph,
    mut seat: Seat,
    root: u64,
    growers: u32,
) -> Result<GrowthEnd, NoMemory>
    requires table { seat.table ≡ graph.now.table }
    requires new { seat.view ≡ first_view graph.now.world }
    requires root { Contains graph.now.world.roots root }
    requires growers { growers ≤ 16 }
{
    let Added::New { cell } = add(graph, &mut seat, root, Origin::Root) else {
        return Ok(GrowthEnd::Full);
    };
    if growers == 0 {
        return Ok(GrowthEnd::Begun);
    }
    seat.reveal();
    let cells = Vec::from_array(alloc, [cell])?;
    match grow(rt, alloc, graph, &mut seat, cells, growers, &OpenGate)? {
        Grown::Closed => Ok(GrowthEnd::Closed),
        Grown::Full { .. } => Ok(GrowthEnd::Full),
    }
}

/// How the growth of the graph of a job ends, which is given as a text.
pub fn growth_of_job<R: Threads + Sync>(
    rt: &R,
    alloc: Global,
    bytes: &[u8],
    growers: u32,
) -> &'static str
    requires { growers ≤ 16 }
{
    if bytes.len() > MOST_JOB_BYTES {
        return "no job";
    }
    let Ok(Job { world, .. }) = read_job(alloc, bytes) else {
        return "no job";
    };
    match run_growth(rt, alloc, world, growers) {
        Ok(GrowthEnd::Begun) => "begun",
        Ok(GrowthEnd::Closed) => "closed",
        Ok(GrowthEnd::Full) => "full",
        Err(NoMemory) => "no memory",
    }
}
