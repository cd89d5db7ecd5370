//! The end of a run: missing roots, what is unpaid, the numbering of the vertices.
ghost use Rattle.std.specs.Prelude.{◌≡◌, [], IfOk, Some};
ghost use Rattle.graph_history.specs.History.{state_of};
ghost use Rattle.graph_history.specs.Laws.{HasRoots};
ghost use Rattle.graph_rule.specs.Rule.{whole};
ghost use Rattle.graph_rule.specs.Values.{Belongs};
ghost use Rattle.graph_runs.specs.Runs.{EndsRun};
ghost use Rattle.graph_runs.specs.Ending.{CanEnd, IsLeft, HasEnteredRoots, IsOver};

use canonical_graph::Finished;
use crystal_growers::{Grown, grow};
use crystal_streams::NoMemory;
use graph_history::{Added, Origin};
use graph_numbering::finished;
use graph_rule::{Graph, Seat, settle};
use std::alloc::Global;
use std::thread::Threads;
use table_calls::add;
use worker_gate::Gate;

/// Puts in each root that is missing, grows what is unpaid unless some word found no cell before, and numbers the vertices.
/// `None` comes where some word found no cell.
pub(crate) fn end_run<R: Threads + Sync, G: Gate>(
    rt: &R,
    alloc: Global,
    graph: &Graph,
    seat: &mut Seat,
    grown: Grown,
    cells: Vec<u32>,
    growers: u32,
    gate: &G,
) -> Result<Option<Finished>, NoMemory>
    requires can { CanEnd graph.now seat.old growers }
    requires left { IsLeft seat.old cells.items grown }
    ensures { IfOk result (λ finished. IsOver graph.now seat.old seat.new finished) }
{
    let mut cells = cells;
    let all = enter_roots(graph, seat, &mut cells)?;
    seat.reveal();
    if !all {
        return Ok(None);
    }
    match grown {
        Grown::Full { .. } => Ok(None),
        Grown::Closed => grow_rest(rt, alloc, graph, seat, cells, growers, gate),
    }
}

/// Puts in each root that is missing, and notes its cell. False where one found no cell.
fn enter_roots(graph: &Graph, seat: &mut Seat, cells: &mut Vec<u32>) -> Result<bool, NoMemory>
    requires belongs { Belongs seat.old graph.now }
    requires pledge { seat.old.view.dues.pledge ≡ 0 }
    ensures { IfOk result (HasEnteredRoots graph.now.world seat.old seat.new cells.old.items cells.new.items) }
{
    seat.reveal();
    let roots = graph.world().roots().as_slice();
    'roots: for root in roots {
        match add(graph, seat, *root, Origin::Root) {
            Added::New { cell } => cells.push(cell)?,
            Added::Old { .. } => {}
            Added::Full => return Ok(false),
        }
    }
    Ok(true)
}

/// Grows what is unpaid, and numbers the vertices where every word found a cell.
fn grow_rest<R: Threads + Sync, G: Gate>(
    rt: &R,
    alloc: Global,
    graph: &Graph,
    seat: &mut Seat,
    cells: Vec<u32>,
    growers: u32,
    gate: &G,
) -> Result<Option<Finished>, NoMemory>
    requires can { CanEnd graph.now seat.old growers }
    requires roots { HasRoots graph.now.world (state_of seat.old.view.front) }
    requires unpaid { seat.old.view.dues.unpaid ≡ cells.items }
    ensures { IfOk result (λ finished. IsOver graph.now seat.old seat.new finished) }
{
    seat.reveal();
    match grow(rt, alloc, graph, seat, cells, growers, gate) {
        Ok(Grown::Closed) => match number_all(alloc, graph, seat) {
            Ok(finished) => Ok(Some(finished)),
            Err(NoMemory) => Err(NoMemory),
        },
        Ok(Grown::Full { .. }) => Ok(None),
        Err(_) => Err(NoMemory),
    }
}

/// Settles the graph, and numbers its vertices.
fn number_all(alloc: Global, graph: &Graph, seat: &mut Seat) -> Result<Finished, NoMemory>
    requires belongs { Belongs seat.old graph.now }
    requires stake { seat.old.view.stake ≡ whole }
    requires pledge { seat.old.view.dues.pledge ≡ 0 }
    requires unpaid { seat.old.view.dues.unpaid ≡ [] }
    requires roots { HasRoots graph.now.world (state_of seat.old.view.front) }
    ensures same { IfOk result (λ graph. seat.new ≡ seat.old) }
    ensures ends { IfOk result (λ finished. EndsRun graph.now.world seat.old.view.front (Some finished)) }
{
    seat.reveal();
    let closed = settle(graph, seat);
    match finished(alloc, graph, seat, &closed) {
        Ok(graph) => Ok(graph),
        Err(NoMemory) => Err(NoMemory),
    }
}
