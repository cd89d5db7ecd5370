//! Growth of wide words by rounds: the vertices that are to be drawn are dealt to growers, and what they add is dealt again.
ghost use Rattle.std.specs.Prelude.{◌≡◌, ◌<◌, ◌≤◌, length, All, IfOk, IfErr};
ghost use Rattle.tensor_words.specs.Worlds.{most_cells};
ghost use Rattle.wide_words.specs.WideSpaces.{IsWide};
ghost use Rattle.wide_rule.specs.Parting.{first_view};
ghost use Rattle.wide_growth.specs.Drawing.{IsStop};
ghost use Rattle.wide_growth.specs.Grown.{IsGrownTo};

use crate::drawing::{Stop, enter_roots};
use crate::rounds::grow;
use crystal_streams::NoMemory;
use std::alloc::Global;
use std::thread::Threads;
use wide_rule::{WideGraph, WideSeat};
use wide_words::{WideCode, WideSpace, WideSteps};
use worker_gate::Gate;

/// How a growth ended.
#[derive(Clone, Copy, Debug, PartialEq, Eq)]
pub enum WideGrown {
    /// So many words are reached, and so many lowering arrows between them are not zero.
    Closed { vertices: u32, arrows: u64 },
    /// More words are reached than the capacity.
    Full,
}

/// How many words of the space are reached from the roots, and how many of their lowering arrows are not zero; or `Full`,
/// where more words are reached than the capacity, 1 to 1,048,576. The graph is grown by 1 to 16 growers on threads of
/// their own. Each passes the gate when it starts, and then before each of its later rounds.
pub fn wide_grow<T: Threads + Sync, G: Gate>(
    rt: &T,
    alloc: Global,
    space: &WideSpace,
    capacity: u32,
    roots: &[WideCode],
    growers: u32,
    gate: &G,
) -> Result<WideGrown, NoMemory>
    requires some { 1 ≤ capacity }
    requires few { capacity ≤ most_cells }
    requires rooted { 0 < length roots.now }
    requires words { All (IsWide space.now) roots.now }
    requires growers { (1 ≤ growers) × (growers ≤ 16) }
    ensures { IfOk result (λ g. IsGrownTo (record { space = space.now; capacity = capacity; roots = roots.now }) g) }
{
    let owned = Vec::from_slice(alloc, roots)?;
    let steps = WideSteps::new(alloc, space)?;
    let (graph, seat) = WideGraph::new(alloc, *space, capacity, owned)?;
    match grow_from(rt, alloc, &graph, &steps, seat, growers, gate) {
        Ok(grown) => Ok(grown),
        Err(Stop::Full) => Ok(WideGrown::Full),
        Err(Stop::NoMemory) => Err(NoMemory),
    }
}

/// Grows a new graph from its roots.
fn grow_from<T: Threads + Sync, G: Gate>(
    rt: &T,
    alloc: Global,
    graph: &WideGraph,
    steps: &WideSteps,
    seat: WideSeat,
    growers: u32,
    gate: &G,
) -> Result<WideGrown, Stop>
    requires steps { steps.now ≡ graph.now.world.space }
    requires growers { (1 ≤ growers) × (growers ≤ 16) }
    requires table { seat.table ≡ graph.now.table }
    requires view { seat.view ≡ first_view graph.now.world }
    ensures grown { IfOk result (IsGrownTo graph.now.world) }
    ensures stop { IfErr result (IsStop graph.now.world) }
{
    let mut seat = seat;
    let mut waiting = Vec::new(alloc);
    match enter_roots(graph, &mut seat, &mut waiting) {
        Ok(()) => grow(rt, alloc, graph, steps, &mut seat, waiting, growers, gate),
        Err(stop) => Err(stop),
    }
}
