//! Growth beside sessions, on threads of their own.
ghost use Rattle.std.specs.Prelude.{◌≡◌, ◌<◌, ◌≤◌, ℕ, length, IfOk, All, slice_index_or, Result};
ghost use denote.Param.Send.{IsSync};
ghost use Rattle.crystal_streams.specs.declared.faults.NoMemory.{NoMemory as NoMemoryType};
ghost use Rattle.graph_rule.specs.Values.{Belongs};
ghost use Rattle.graph_runs.specs.declared.seats.Session.{Session as SessionType};
ghost use Rattle.graph_runs.specs.declared.serve.Served.{Served as ServedType};
ghost use Rattle.graph_runs.specs.Beside.{CanGrow, IsGrowthOver, CanSit, HasSat};

use crate::seats::Session;
use crate::serve::{Served, serve};
use crystal_growers::{Grown, grow};
use crystal_streams::NoMemory;
use graph_rule::{Graph, Seat};
use job_text::Scripts;
use std::alloc::Global;
use std::thread::{Threads, join, map_vec};
use worker_gate::Gate;

/// What a growth answered, and its seat.
#[derive(Drop)]
pub(crate) struct GrownSeat {
    pub(crate) seat: Seat,
    pub(crate) grown: Grown,
}

/// At the gate session s, counted from 1, is the worker with this number plus s.
const BEFORE_SESSIONS: u32 = 16;

/// Runs the scripts of the sessions and a growth from these cells beside each other.
pub(crate) fn run_both<R: Threads + Sync, G: Gate>(
    rt: &R,
    alloc: Global,
    graph: &Graph,
    growing: (Seat, Vec<u32>, u32),
    scripts: &Scripts,
    sessions: Vec<Session>,
    gate: &G,
) -> (
    Result<GrownSeat, NoMemory>,
    Result<Vec<Result<Served, NoMemory>>, NoMemory>,
)
    requires can { CanGrow graph.now growing.0 growing.1.items growing.2 }
    requires seated { All (CanSit graph.now scripts.now) sessions.items }
    ensures growth { IfOk result.0 (IsGrowthOver graph.now growing.0 growing.1.items growing.2) }
    ensures many { IfOk result.1 (λ back. length back.items ≡ length sessions.items) }
    ensures each { IfOk result.1 (λ back. (k : ℕ) (e : SessionType) (d : Result ServedType NoMemoryType) → k < length sessions.items →
        HasSat graph.now scripts.now (slice_index_or sessions.items k e) (slice_index_or back.items k d)) }
{
    let (seat, cells, growers) = growing;
    join(
        rt,
        move || -> Result<GrownSeat, NoMemory>
            requires { IsSync R.row × CanGrow graph.now seat cells.items growers }
            ensures { IfOk result (IsGrowthOver graph.entry.now seat cells.items growers) }
        { grow_by(rt, alloc, graph, seat, cells, growers, gate) },
        move || -> Result<Vec<Result<Served, NoMemory>>, NoMemory>
            requires { IsSync R.row × All (CanSit graph.now scripts.now) sessions.items }
            ensures { IfOk result (λ back. (length back.items ≡ length sessions.items)
                × ((k : ℕ) (e : SessionType) (d : Result ServedType NoMemoryType) → k < length sessions.items →
                HasSat graph.entry.now scripts.entry.now (slice_index_or sessions.items k e) (slice_index_or back.items k d))) }
        { sit_all(rt, alloc, graph, scripts, sessions, gate) },
    )
}

/// Grows at a seat.
fn grow_by<R: Threads + Sync, G: Gate>(
    rt: &R,
    alloc: Global,
    graph: &Graph,
    seat: Seat,
    cells: Vec<u32>,
    growers: u32,
    gate: &G,
) -> Result<GrownSeat, NoMemory>
    requires { CanGrow graph.now seat cells.items growers }
    ensures { IfOk result (IsGrowthOver graph.now seat cells.items growers) }
{
    let mut seat = seat;
    match grow(rt, alloc, graph, &mut seat, cells, growers, gate) {
        Ok(grown) => Ok(GrownSeat { seat, grown }),
        Err(_) => Err(NoMemory),
    }
}

/// Runs the scripts of the sessions beside each other.
fn sit_all<R: Threads + Sync, G: Gate>(
    rt: &R,
    alloc: Global,
    graph: &Graph,
    scripts: &Scripts,
    sessions: Vec<Session>,
    gate: &G,
) -> Result<Vec<Result<Served, NoMemory>>, NoMemory>
    requires seated { All (CanSit graph.now scripts.now) sessions.items }
    ensures many { IfOk result (λ back. length back.items ≡ length sessions.items) }
    ensures each { IfOk result (λ back. (k : ℕ) (e : SessionType) (d : Result ServedType NoMemoryType) → k < length sessions.items →
        HasSat graph.now scripts.now (slice_index_or sessions.items k e) (slice_index_or back.items k d)) }
{
    let run = move |session: Session| -> Result<Served, NoMemory>
        requires { CanSit graph.now scripts.now session }
        ensures { HasSat graph.entry.now scripts.entry.now session result }
    { sit(alloc, graph, scripts, session, gate) };
    match map_vec(rt, sessions, &run) {
        Ok(back) => Ok(back),
        Err(_) => Err(NoMemory),
    }
}

/// Runs the script of a session at its seat, behind the gate.
fn sit<G: Gate>(
    alloc: Global,
    graph: &Graph,
    scripts: &Scripts,
    session: Session,
    gate: &G,
) -> Result<Served, NoMemory>
    requires { CanSit graph.now scripts.now session }
    ensures { HasSat graph.now scripts.now session result }
{
    let Session { seat, place } = session;
    gate.pass(BEFORE_SESSIONS + 1 + place as u32, 0);
    match serve(alloc, graph, seat, scripts.at(place)) {
        Ok(served) => Ok(served),
        Err(NoMemory) => Err(NoMemory),
    }
}
