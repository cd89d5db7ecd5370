//! Growth by rounds: the open vertices are drawn, and what is put in is open in the next round.
ghost use Rattle.std.specs.Prelude.{◌≡◌, ◌+◌, ◌*◌, ◌<◌, ◌≤◌, IfOk, IfErr, length};
ghost use Rattle.wide_growth.specs.Drawing.{IsStop};
ghost use Rattle.wide_growth.specs.Rounds.{CanDraw, IsRound, IsGrowing};
ghost use Rattle.wide_growth.specs.Grown.{IsGrownTo};

use crate::deal::deal;
use crate::drawing::{OpenVertex, Stop, draw_all};
use crate::gather::{Gathered, gather};
use crate::growing::WideGrown;
use crate::threads::work_all;
use std::alloc::Global;
use std::thread::Threads;
use wide_rule::{WideGraph, WideSeat, settle};
use wide_words::WideSteps;
use worker_gate::Gate;

/// With fewer open vertices than so many for each grower, a round is drawn by one seat alone: threads would cost more than
/// they save.
const FEW: usize = 64;

/// Grows from the open vertices until none is left, and tells how many words are reached, and how many lowering arrows join
/// them. `waiting` are all vertices so far.
pub(crate) fn grow<T: Threads + Sync, G: Gate>(
    rt: &T,
    alloc: Global,
    graph: &WideGraph,
    steps: &WideSteps,
    seat: &mut WideSeat,
    waiting: Vec<OpenVertex>,
    growers: u32,
    gate: &G,
) -> Result<WideGrown, Stop>
    requires steps { steps.now ≡ graph.now.world.space }
    requires growers { (1 ≤ growers) × (growers ≤ 16) }
    requires growing { IsGrowing graph.now seat.old waiting.items 0 0 }
    ensures grown { IfOk result (IsGrownTo graph.now.world) }
    ensures stop { IfErr result (IsStop graph.now.world) }
{
    let _world = graph.world();
    let capacity = graph.world().capacity() as usize;
    let mut waiting = waiting;
    let mut turn = 0;
    let mut vertices = 0;
    let mut arrows = 0;
    'rounds: while !waiting.is_empty() {
        seat.reveal();
        if capacity - vertices < waiting.len() {
            return Err(Stop::Full);
        }
        let gathered = round(rt, alloc, graph, steps, seat, &waiting, growers, turn, gate)?;
        turn += 1;
        vertices += waiting.len();
        arrows += gathered.arrows;
        waiting = gathered.added;
    }
    seat.reveal();
    let _closed = settle(graph, seat);
    Ok(WideGrown::Closed {
        vertices: vertices as u32,
        arrows,
    })
}

/// One round: all open vertices are drawn. The first round is always drawn by growers on threads of their own.
fn round<T: Threads + Sync, G: Gate>(
    rt: &T,
    alloc: Global,
    graph: &WideGraph,
    steps: &WideSteps,
    seat: &mut WideSeat,
    waiting: &[OpenVertex],
    growers: u32,
    turn: u64,
    gate: &G,
) -> Result<Gathered, Stop>
    requires can { CanDraw graph.now seat.old waiting.now }
    requires steps { steps.now ≡ graph.now.world.space }
    requires growers { (1 ≤ growers) × (growers ≤ 16) }
    requires stake { 17 ≤ seat.old.view.stake }
    requires numbers { 16 ≤ seat.old.view.left }
    ensures round { IfOk result (λ r. IsRound graph.now seat.old seat.new waiting.now r.added.items 16 r.arrows) }
    ensures stop { IfErr result (IsStop graph.now.world) }
{
    if turn > 0 && waiting.len() < FEW * growers as usize {
        draw_alone(alloc, graph, steps, seat, waiting)
    } else {
        draw_shared(rt, alloc, graph, steps, seat, waiting, growers, turn, gate)
    }
}

/// A round that the seat draws alone.
fn draw_alone(
    alloc: Global,
    graph: &WideGraph,
    steps: &WideSteps,
    seat: &mut WideSeat,
    waiting: &[OpenVertex],
) -> Result<Gathered, Stop>
    requires can { CanDraw graph.now seat.old waiting.now }
    requires steps { steps.now ≡ graph.now.world.space }
    ensures round { IfOk result (λ r. IsRound graph.now seat.old seat.new waiting.now r.added.items 16 r.arrows) }
    ensures stop { IfErr result (IsStop graph.now.world) }
{
    let mut added = Vec::new(alloc);
    match draw_all(graph, steps, seat, waiting, &mut added) {
        Ok(arrows) => Ok(Gathered { added, arrows }),
        Err(stop) => Err(stop),
    }
}

/// A round that growers draw, each on a thread of its own.
fn draw_shared<T: Threads + Sync, G: Gate>(
    rt: &T,
    alloc: Global,
    graph: &WideGraph,
    steps: &WideSteps,
    seat: &mut WideSeat,
    waiting: &[OpenVertex],
    growers: u32,
    turn: u64,
    gate: &G,
) -> Result<Gathered, Stop>
    requires can { CanDraw graph.now seat.old waiting.now }
    requires steps { steps.now ≡ graph.now.world.space }
    requires growers { (1 ≤ growers) × (growers ≤ 16) }
    requires stake { 17 ≤ seat.old.view.stake }
    requires numbers { 16 ≤ seat.old.view.left }
    ensures round { IfOk result (λ r. IsRound graph.now seat.old seat.new waiting.now r.added.items 16 r.arrows) }
    ensures stop { IfErr result (IsStop graph.now.world) }
{
    let Ok(jobs) = deal(alloc, graph, seat, waiting, growers, turn) else {
        return Err(Stop::NoMemory);
    };
    let Ok(shares) = work_all(rt, graph, steps, gate, jobs) else {
        return Err(Stop::NoMemory);
    };
    match gather(alloc, graph, seat, waiting, shares) {
        Ok(gathered) => Ok(gathered),
        Err(stop) => Err(stop),
    }
}
