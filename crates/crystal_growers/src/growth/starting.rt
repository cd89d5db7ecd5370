//! How the growers of a growth begin.
ghost use Rattle.std.specs.Prelude.{◌≡◌, ℕ, ◌*◌, ◌^◌, ◌<◌, ◌≤◌, [], ◌∷◌, drop, length, IfOk, IfErr};
ghost use Rattle.graph_rule.specs.Parting.{hand_left};
ghost use Rattle.graph_rule.specs.Values.{Belongs};
ghost use Rattle.parcel_deques.specs.declared.parcel.Slip.{Slip as SlipType};
ghost use Rattle.parcel_deques.specs.Making.{AreNew};
ghost use Rattle.crystal_growers.specs.Drawing.{CanDraw};
ghost use Rattle.crystal_growers.specs.Grower.{HasPushed};
ghost use Rattle.crystal_growers.specs.Gathering.{numbers, AreIdle, HasLoaded, HasStarted};
ghost use Rattle.crystal_growers.specs.Growth.{IsLost, HasBegun};

use crate::expansion::drawing::PARCEL;
use crate::grower::Start;
use crate::grower::offering::load_cells;
use crystal_streams::NoMemory;
use graph_rule::{Graph, Seat};
use parcel_deques::{Bench, Naming, benches};
use std::alloc::Global;

/// The numbers of a grower: its own, and one for each parcel that it loads.
const NUMBERS: u64 = 1_048_577;

/// What a growth begins with: the growers, and how many of the cells are loaded for them.
#[derive(Drop)]
pub(crate) struct Begun<J: Naming> {
    pub(crate) starts: Vec<Start<J>>,
    pub(crate) loaded: usize,
}

/// Loads the cells for so many growers, in parcels of at most 64 on their benches in turn, and splits off a seat for each.
/// As much is left of the stake as the growers need; cells that no stake is left for are not loaded.
pub(crate) fn begin<J: Naming>(
    alloc: Global,
    graph: &Graph,
    seat: &mut Seat,
    cells: &[u32],
    growers: u32,
) -> Result<Begun<J>, NoMemory>
    requires named { J.graph ≡ graph.now }
    requires can { CanDraw graph.now cells.now seat.old }
    requires growers { (1 ≤ growers) × (growers ≤ 16) }
    requires stake { growers < seat.old.view.stake }
    requires numbers { 2 ^ 21 * growers ≤ seat.old.view.left }
    ensures within { IfOk result (λ b. b.loaded ≤ length cells.now) }
    ensures begun { IfOk result (λ b. HasBegun graph.now seat.old seat.new cells.now (drop b.loaded cells.now) growers b.starts.items) }
    ensures fault { IfErr result (λ _. IsLost seat.old seat.new) }
{
    seat.reveal();
    let mut benches = benches(alloc, growers, cells.len().div_ceil(PARCEL))?;
    let loaded = load_all(alloc, graph, seat, &mut benches, cells)?;
    let starts = start_all(alloc, graph, seat, benches)?;
    Ok(Begun { starts, loaded })
}

/// Loads cells on the benches in turn, while more stake is left than there are benches. How many were loaded.
fn load_all<J: Naming>(
    alloc: Global,
    graph: &Graph,
    seat: &mut Seat,
    benches: &mut Vec<Bench<J>>,
    cells: &[u32],
) -> Result<usize, NoMemory>
    requires named { J.graph ≡ graph.now }
    requires can { CanDraw graph.now cells.now seat.old }
    requires numbers { 2 ^ 16 ≤ seat.old.view.left }
    requires stake { length benches.old.items < seat.old.view.stake }
    requires benches { (0 < length benches.old.items) × (length benches.old.items ≤ 16) }
    requires new { (capacity : ℕ) × AreNew (length benches.old.items) capacity benches.old.items × (length cells.now ≤ capacity * 64) }
    ensures within { IfOk result (λ n. n ≤ length cells.now) }
    ensures loaded { IfOk result (λ n. HasLoaded seat.old seat.new cells.now (drop n cells.now) (length benches.old.items) benches.new.items) }
    ensures fault { IfErr result (λ _. IsLost seat.old seat.new) }
{
    seat.reveal();
    let mut rest = cells;
    let mut place = 0;
    'parcels: while !rest.is_empty() && seat.stake() as usize > benches.len() + 1 {
        let (part, later) = rest.split_at(usize::min(PARCEL, rest.len()));
        load_part(alloc, graph, seat, &mut benches[place], part)?;
        place = (place + 1) % benches.len();
        rest = later;
    }
    Ok(cells.len() - rest.len())
}

/// Loads a few cells on a bench that has room.
fn load_part<J: Naming>(
    alloc: Global,
    graph: &Graph,
    seat: &mut Seat,
    bench: &mut Bench<J>,
    part: &[u32],
) -> Result<(), NoMemory>
    requires named { J.graph ≡ graph.now }
    requires can { CanDraw graph.now part.now seat.old }
    requires few { length part.now ≤ 64 }
    requires stake { 1 < seat.old.view.stake }
    requires numbers { 0 < seat.old.view.left }
    requires room { length bench.old.pushed < bench.old.capacity }
    ensures table { seat.new.table ≡ seat.old.table }
    ensures view { IfOk result (λ _. seat.new.view ≡ hand_left 1 1 part.now seat.old.view) }
    ensures pushed { IfOk result (λ _. (x : SlipType) × HasPushed bench.old bench.new (x ∷ []) × (x.cells ≡ part.now) × (x.stake ≡ 1)) }
    ensures fault { IfErr result (λ _. (seat.new ≡ seat.old)) }
{
    let cells = Vec::from_slice(alloc, part)?;
    match load_cells(graph, seat, bench, cells) {
        None => Ok(()),
        Some(_) => unreachable!(),
    }
}

/// Splits off a seat for each bench, with as many numbers as a grower may need and an equal part of the stake.
fn start_all<J: Naming>(
    alloc: Global,
    graph: &Graph,
    seat: &mut Seat,
    benches: Vec<Bench<J>>,
) -> Result<Vec<Start<J>>, NoMemory>
    requires belongs { Belongs seat.old graph.now }
    requires pledge { seat.old.view.dues.pledge ≡ 0 }
    requires benches { (0 < length benches.items) × (length benches.items ≤ 16) }
    requires stake { length benches.items < seat.old.view.stake }
    requires numbers { length benches.items * numbers ≤ seat.old.view.left }
    requires idle { AreIdle benches.items }
    ensures started { IfOk result (λ starts. HasStarted graph.now seat.old seat.new benches.items starts.items) }
    ensures fault { IfErr result (λ _. IsLost seat.old seat.new) }
{
    let growers = benches.len() as u32;
    let share = (seat.stake() - 1) / growers;
    let mut benches = benches;
    let mut starts = Vec::with_capacity(alloc, benches.len())?;
    'growers: for worker in 0..growers {
        let bench = benches.remove(0);
        let seat = seat.split(graph, NUMBERS, share);
        starts.push_reserved(Start {
            alloc,
            worker,
            seat,
            bench,
        });
    }
    Ok(starts)
}
