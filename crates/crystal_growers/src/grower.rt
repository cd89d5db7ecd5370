//! What a grower does.
ghost use Rattle.std.specs.Prelude.{◌≡◌, [], ◌∷◌, ◌++◌, IfSome, IfNone};
ghost use Rattle.graph_rule.specs.Values.{Belongs};
ghost use Rattle.parcel_deques.specs.Lists.{SameItems};
ghost use Rattle.parcel_deques.specs.Benches.{FoundOwnEmpty};
ghost use Rattle.crystal_growers.specs.Drawing.{IsWaiting, IsEnded};
ghost use Rattle.crystal_growers.specs.Grower.{IsParcelRun, IsOffered, IsDrawnBack, IsShift, IsEndingOf};

pub(crate) mod offering;
pub(crate) mod sweeping;

use crate::expansion::drawing::{Drawn, draw_few, draw_out};
use crate::grower::offering::{offer, take_in};
use crate::grower::sweeping::{Swept, sweep};
use graph_rule::{Graph, Seat};
use parcel_deques::{Bench, Naming, Parcel};
use shared_desk::{Hints, NoRoom};
use std::alloc::Global;
use worker_gate::Gate;

/// How often a grower whose deque is empty tries to steal before it ends.
const TRIES: u32 = 4_096;

/// The parcels that a grower runs while it steals and offers.
const MOST_PARCELS: u64 = 2_097_152;

/// Why a grower ended.
#[derive(Clone, Copy, Debug, PartialEq, Eq)]
pub(crate) enum Ending {
    /// It found no parcel any more.
    Done,
    /// The word with this code found no cell.
    Spent { code: u64 },
    /// There was no memory.
    NoMemory,
}

/// What a grower begins with.
#[derive(Drop)]
pub(crate) struct Start<J: Naming> {
    pub(crate) alloc: Global,
    pub(crate) worker: u32,
    pub(crate) seat: Seat,
    pub(crate) bench: Bench<J>,
}

/// What a grower ends with.
#[derive(Drop)]
pub(crate) struct Shift<J: Naming> {
    pub(crate) seat: Seat,
    pub(crate) bench: Bench<J>,
    pub(crate) ending: Ending,
}

/// A grower that goes on: its seat, at which nothing waits, and its hints.
#[derive(Drop)]
pub(crate) struct Ready {
    pub(crate) seat: Seat,
    pub(crate) hints: Hints,
}

/// A grower that stops.
#[derive(Drop)]
pub(crate) struct Stopped {
    pub(crate) seat: Seat,
    pub(crate) ending: Ending,
}

/// The next parcel: the first of the own deque, else one that another grower loaded.
fn take<J: Naming>(bench: &mut Bench<J>) -> Option<Parcel<J>>
    requires { bench.old.away ≡ [] }
    ensures same { bench.new ≡ record bench.old { taken = bench.new.taken; known = bench.new.known } }
    ensures some { IfSome result (λ p. SameItems bench.new.taken (bench.old.taken ++ p ∷ [])) }
    ensures none { IfNone result ((bench.new.taken ≡ bench.old.taken) × FoundOwnEmpty bench.old) }
{
    if let Some(parcel) = bench.drain() {
        return Some(parcel);
    }
    'tries: for _ in 0..TRIES {
        if let Some(parcel) = bench.steal() {
            return Some(parcel);
        }
    }
    None
}

/// Runs a parcel: takes its seat in, draws its cells, and offers those that are added. What comes back of these is drawn
/// here, with all that comes of it.
fn run<J: Naming>(
    alloc: Global,
    graph: &Graph,
    seat: Seat,
    bench: &mut Bench<J>,
    parcel: Parcel<J>,
    hints: Hints,
) -> Result<Ready, Stopped>
    requires named { J.graph ≡ graph.now }
    requires free { IsWaiting graph.now [] seat }
    ensures { IsParcelRun graph.now seat bench.old bench.new parcel result }
{
    let mut seat = seat;
    let cells = take_in(graph, &mut seat, parcel);
    match draw_few(alloc, graph, seat, cells.as_slice(), hints) {
        Ok(drawn) => share(alloc, graph, bench, drawn),
        Err(NoRoom { seat }) => Err(Stopped {
            seat,
            ending: Ending::NoMemory,
        }),
    }
}

/// Offers what was added, and draws what comes back.
fn share<J: Naming>(
    alloc: Global,
    graph: &Graph,
    bench: &mut Bench<J>,
    drawn: Drawn,
) -> Result<Ready, Stopped>
    requires named { J.graph ≡ graph.now }
    requires belongs { Belongs drawn.seat graph.now }
    requires pledge { drawn.seat.view.dues.pledge ≡ 0 }
    requires ended { IsEnded graph.now drawn.added.items drawn.seat drawn.full }
    ensures { IsOffered graph.now drawn.seat drawn.added.items bench.old bench.new result }
{
    let Drawn {
        mut seat,
        added,
        full,
        hints,
    } = drawn;
    seat.reveal();
    if let Some(code) = full {
        let ending = Ending::Spent { code };
        return Err(Stopped { seat, ending });
    }
    match offer(graph, &mut seat, bench, added) {
        Ok(back) => draw_back(alloc, graph, seat, back, hints),
        Err(_) => Err(Stopped {
            seat,
            ending: Ending::NoMemory,
        }),
    }
}

/// Draws what came back.
fn draw_back(
    alloc: Global,
    graph: &Graph,
    seat: Seat,
    back: Vec<u32>,
    hints: Hints,
) -> Result<Ready, Stopped>
    requires { IsWaiting graph.now back.items seat }
    ensures { IsDrawnBack graph.now seat result }
{
    match draw_out(alloc, graph, seat, &back, hints) {
        Ok(drawn) => match drawn.full {
            None => Ok(Ready {
                seat: drawn.seat,
                hints: drawn.hints,
            }),
            Some(code) => Err(Stopped {
                seat: drawn.seat,
                ending: Ending::Spent { code },
            }),
        },
        Err(NoRoom { seat }) => Err(Stopped {
            seat,
            ending: Ending::NoMemory,
        }),
    }
}

/// Works until no parcel is found. The grower passes the gate before anything else, and then before each parcel. After
/// so many parcels it takes those of its own deque alone, and draws all that comes of them; a growth does not come to
/// that, since each of its parcels has a cell and there are at most 2^20.
pub(crate) fn work<J: Naming, G: Gate>(graph: &Graph, gate: &G, start: Start<J>) -> Shift<J>
    requires named { J.graph ≡ graph.now }
    requires free { IsWaiting graph.now [] start.seat }
    requires away { start.bench.away ≡ [] }
    ensures { IsShift graph.now start.seat result.seat start.bench result.bench result.ending }
{
    let Start {
        alloc,
        worker,
        mut seat,
        mut bench,
    } = start;
    gate.pass(worker, 0);
    seat.reveal();
    let Ok(mut hints) = Hints::new(alloc, graph.world().cells() as usize) else {
        let ending = Ending::NoMemory;
        return Shift {
            seat,
            bench,
            ending,
        };
    };
    'parcels: for turn in 0..MOST_PARCELS {
        let Some(parcel) = take(&mut bench) else {
            let ending = Ending::Done;
            return Shift {
                seat,
                bench,
                ending,
            };
        };
        gate.pass(worker, turn + 1);
        match run(alloc, graph, seat, &mut bench, parcel, hints) {
            Ok(ready) => {
                seat = ready.seat;
                hints = ready.hints;
            }
            Err(stopped) => {
                return Shift {
                    seat: stopped.seat,
                    bench,
                    ending: stopped.ending,
                };
            }
        }
    }
    end_shift(alloc, graph, seat, bench, hints)
}

/// Ends the work with the parcels of the own deque.
fn end_shift<J: Naming>(
    alloc: Global,
    graph: &Graph,
    seat: Seat,
    bench: Bench<J>,
    hints: Hints,
) -> Shift<J>
    requires named { J.graph ≡ graph.now }
    requires free { IsWaiting graph.now [] seat }
    ensures { IsShift graph.now seat result.seat bench result.bench result.ending }
{
    let mut bench = bench;
    let swept = Swept {
        seat,
        hints,
        full: None,
    };
    match sweep(alloc, graph, swept, &mut bench) {
        Ok(Swept { seat, full, .. }) => {
            let ending = ending_of(full);
            Shift {
                seat,
                bench,
                ending,
            }
        }
        Err(NoRoom { seat }) => Shift {
            seat,
            bench,
            ending: Ending::NoMemory,
        },
    }
}

/// How a grower ended that found no parcel any more, or no cell for the word with this code.
fn ending_of(full: Option<u64>) -> Ending
    ensures { IsEndingOf full result }
{
    match full {
        None => Ending::Done,
        Some(code) => Ending::Spent { code },
    }
}
