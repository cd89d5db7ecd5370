//! Cells that a seat offers to all growers.
ghost use Rattle.std.specs.Prelude.{◌≡◌, ℕ, ◌<◌, ◌≤◌, List, [], ◌∷◌, ◌++◌, length, IfOk, MatchOption};
ghost use Rattle.graph_rule.specs.Parting.{hand_left};
ghost use Rattle.graph_rule.specs.Rule.{IsKnown};
ghost use Rattle.graph_rule.specs.Values.{Belongs};
ghost use Rattle.parcel_deques.specs.declared.parcel.Slip.{Slip as SlipType};
ghost use Rattle.crystal_growers.specs.Drawing.{CanDraw, IsWaiting};
ghost use Rattle.crystal_growers.specs.Grower.{HasWorked, HasPushed, HasOffered};

use crate::expansion::drawing::PARCEL;
use crystal_streams::NoMemory;
use graph_rule::{Graph, Seat};
use parcel_deques::{Bench, Cells, Naming, Parcel};

/// Hands cells over to a seat of their own, with a stake of 1, and loads both on a bench as a parcel. The parcel comes back
/// where the bench refuses it.
pub(crate) fn load_cells<J: Naming>(
    graph: &Graph,
    seat: &mut Seat,
    bench: &mut Bench<J>,
    cells: Vec<u32>,
) -> Option<Parcel<J>>
    requires named { J.graph ≡ graph.now }
    requires can { CanDraw graph.now cells.items seat.old }
    requires few { length cells.items ≤ 64 }
    requires stake { 1 < seat.old.view.stake }
    requires numbers { 0 < seat.old.view.left }
    ensures table { seat.new.table ≡ seat.old.table }
    ensures view { seat.new.view ≡ hand_left 1 1 cells.items seat.old.view }
    ensures known { IsKnown seat.new.view }
    ensures loaded { MatchOption result
        ((x : SlipType) × HasPushed bench.old bench.new (x ∷ []) × (x.cells ≡ cells.items) × (x.stake ≡ 1))
        (λ p. (bench.new ≡ bench.old) × (p.cells ≡ cells.items) × (p.stake ≡ 1) × (bench.old.capacity ≤ length bench.old.pushed)) }
{
    let parcel = Parcel::hand(graph, seat, 1, Cells::of(cells));
    match bench.load(parcel) {
        Ok(()) => None,
        Err(parcel) => Some(parcel),
    }
}

/// Takes in the seat of a parcel, whose cells wait besides from then on.
pub(crate) fn take_in<J: Naming>(graph: &Graph, seat: &mut Seat, parcel: Parcel<J>) -> Cells
    requires named { J.graph ≡ graph.now }
    requires belongs { Belongs seat.old graph.now }
    requires pledge { seat.old.view.dues.pledge ≡ 0 }
    ensures cells { result ≡ parcel.cells }
    ensures works { HasWorked graph.now seat.old seat.new (parcel ∷ []) [] }
    ensures waits { (xs : List ℕ) → IsWaiting graph.now xs seat.old → IsWaiting graph.now (xs ++ parcel.cells) seat.new }
{
    seat.reveal();
    let (other, cells) = parcel.into_parts();
    seat.join(graph, other);
    cells
}

/// Offers the cells that wait at a seat, in parcels of at most 64. Those come back for which no stake or number is left,
/// or that the bench refused.
pub(crate) fn offer<J: Naming>(
    graph: &Graph,
    seat: &mut Seat,
    bench: &mut Bench<J>,
    cells: Vec<u32>,
) -> Result<Vec<u32>, NoMemory>
    requires named { J.graph ≡ graph.now }
    requires waiting { IsWaiting graph.now cells.items seat.old }
    ensures offered { HasOffered graph.now seat.old seat.new bench.old bench.new cells.items }
    ensures waiting { IfOk result (λ back. IsWaiting graph.now back.items seat.new) }
{
    seat.reveal();
    let mut rest = cells;
    'parts: while !rest.is_empty() && seat.stake() > 1 && seat.numbers_left() > 0 {
        let start = rest.len() - usize::min(PARCEL, rest.len());
        let part = rest.split_off(start)?;
        if let Some(parcel) = load_cells(graph, seat, bench, part) {
            let cells = take_in(graph, seat, parcel);
            rest.extend_from_slice(cells.as_slice())?;
            return Ok(rest);
        }
    }
    Ok(rest)
}
