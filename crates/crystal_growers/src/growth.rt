//! Growth by growers that never wait for each other: cells that are added are loaded as parcels on the grower's own deque,
//! from which others steal.
ghost use Rattle.std.specs.Prelude.{◌≡◌, ◌*◌, ◌^◌, ◌<◌, ◌≤◌, IfOk, IfErr};
ghost use Rattle.crystal_growers.specs.Drawing.{CanDraw};
ghost use Rattle.crystal_growers.specs.Growth.{IsGrown, IsLost, IsCovered};

mod closing;
mod starting;
mod threads;

use crate::growth::closing::close_growth;
use crate::growth::starting::{Begun, begin};
use crate::growth::threads::work_all;
use crystal_streams::NoMemory;
use graph_rule::{Graph, Seat};
use parcel_deques::Naming;
use std::alloc::Global;
use std::marker::Brand;
use std::snapshot::Snapshot;
use std::thread::Threads;
use worker_gate::Gate;

/// How a growth ended.
#[derive(Clone, Copy, Debug, PartialEq, Eq)]
pub enum Grown {
    /// All arrows are drawn of each given cell and of each cell that the seat owes.
    Closed,
    /// The word with this code found no cell.
    Full { code: u64 },
}

/// Grows from the given cells, and from all that is added, until nothing is left: draws all arrows of each, by so many
/// growers on threads of their own, each at a seat that is split off and joins again. Each cell is paid for as soon as
/// it is whole. The given cells are unpaid at the seat, and no other cell that it owes has arrows undrawn. Before a
/// grower starts, and before each of its parcels of at most 64 cells, it passes the gate. For want of memory part of the
/// stake may be lost.
pub fn grow<R: Threads + Sync, G: Gate>(
    rt: &R,
    alloc: Global,
    graph: &Graph,
    seat: &mut Seat,
    cells: Vec<u32>,
    growers: u32,
    gate: &G,
) -> Result<Grown, NoMemory>
    requires can { CanDraw graph.now cells.items seat.old }
    requires growers { (1 ≤ growers) × (growers ≤ 16) }
    requires stake { growers < seat.old.view.stake }
    requires numbers { 2 ^ 21 * growers ≤ seat.old.view.left }
    requires owed { IsCovered seat.old cells.items }
    ensures table { IfOk result (λ _. seat.new.table ≡ seat.old.table) }
    ensures grown { IfOk result (λ answer. IsGrown seat.old.view seat.new.view cells.items growers answer) }
    ensures fault { IfErr result (λ _. IsLost seat.old seat.new) }
{
    grow_by::<Brand, R, G>(rt, alloc, graph, seat, &cells, growers, gate)
}

/// The same, for parcels that are named for the graph.
fn grow_by<J: Naming + Send + Sync, R: Threads + Sync, G: Gate>(
    rt: &R,
    alloc: Global,
    graph: &Graph,
    seat: &mut Seat,
    cells: &[u32],
    growers: u32,
    gate: &G,
) -> Result<Grown, NoMemory>
    requires named { J.graph ≡ graph.now }
    requires can { CanDraw graph.now cells.now seat.old }
    requires growers { (1 ≤ growers) × (growers ≤ 16) }
    requires stake { growers < seat.old.view.stake }
    requires numbers { 2 ^ 21 * growers ≤ seat.old.view.left }
    requires owed { IsCovered seat.old cells.now }
    ensures table { IfOk result (λ _. seat.new.table ≡ seat.old.table) }
    ensures grown { IfOk result (λ answer. IsGrown seat.old.view seat.new.view cells.now growers answer) }
    ensures fault { IfErr result (λ _. IsLost seat.old seat.new) }
{
    seat.reveal();
    if cells.is_empty() {
        return Ok(Grown::Closed);
    }
    let Begun { starts, loaded } = begin::<J>(alloc, graph, seat, cells, growers)?;
    seat.reveal();
    let before = Snapshot::of(&starts);
    let shifts = work_all(rt, graph, gate, starts)?;
    let (_, rest) = cells.split_at(loaded);
    match close_growth(alloc, graph, seat, before, shifts, rest)? {
        None => Ok(Grown::Closed),
        Some(code) => Ok(Grown::Full { code }),
    }
}
