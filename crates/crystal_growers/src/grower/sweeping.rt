//! What is left in a deque.
ghost use Rattle.std.specs.Prelude.{◌≡◌, [], None, IfOk, IfErr};
ghost use Rattle.graph_rule.specs.Values.{Belongs};
ghost use Rattle.crystal_growers.specs.Drawing.{IsWaiting};
ghost use Rattle.crystal_growers.specs.Grower.{HasWorked, IsWorking, HasSwept, GoesOn};

use crate::expansion::drawing::draw_out;
use crate::grower::offering::take_in;
use graph_rule::{Graph, Seat};
use parcel_deques::{Bench, Naming};
use shared_desk::{Hints, NoRoom};
use std::alloc::Global;

/// A seat with its hints, and, where some word found no cell, the code of one.
#[derive(Drop)]
pub(crate) struct Swept {
    pub(crate) seat: Seat,
    pub(crate) hints: Hints,
    pub(crate) full: Option<u64>,
}

/// Draws the cells that wait at a seat, with all that comes of them, unless some word had found no cell before.
pub(crate) fn go_on(
    alloc: Global,
    graph: &Graph,
    swept: Swept,
    cells: &[u32],
) -> Result<Swept, NoRoom>
    requires belongs { Belongs swept.seat graph.now }
    requires pledge { swept.seat.view.dues.pledge ≡ 0 }
    requires waiting { swept.full ≡ None → IsWaiting graph.now cells.now swept.seat }
    ensures ok { IfOk result (λ s. HasWorked graph.now swept.seat s.seat [] [] × GoesOn swept.full graph.now s.seat s.full) }
    ensures fault { IfErr result (λ e. HasWorked graph.now swept.seat e.seat [] []) }
{
    swept.seat.reveal();
    if swept.full.is_some() {
        return Ok(swept);
    }
    match draw_out(alloc, graph, swept.seat, cells, swept.hints) {
        Ok(drawn) => Ok(Swept {
            seat: drawn.seat,
            hints: drawn.hints,
            full: drawn.full,
        }),
        Err(fault) => Err(fault),
    }
}

/// Takes all parcels that are left in a deque: their seats join, and their cells are drawn with all that comes of them,
/// unless some word had found no cell before.
pub(crate) fn sweep<J: Naming>(
    alloc: Global,
    graph: &Graph,
    swept: Swept,
    bench: &mut Bench<J>,
) -> Result<Swept, NoRoom>
    requires named { J.graph ≡ graph.now }
    requires belongs { Belongs swept.seat graph.now }
    requires pledge { swept.seat.view.dues.pledge ≡ 0 }
    requires waiting { swept.full ≡ None → IsWaiting graph.now [] swept.seat }
    ensures ok { IfOk result (λ s. HasSwept graph.now swept.seat s.seat bench.old bench.new × GoesOn swept.full graph.now s.seat s.full) }
    ensures fault { IfErr result (λ e. IsWorking graph.now swept.seat e.seat bench.old bench.new) }
{
    swept.seat.reveal();
    let mut swept = swept;
    'parcels: while let Some(parcel) = bench.drain() {
        let cells = take_in(graph, &mut swept.seat, parcel);
        swept = match go_on(alloc, graph, swept, cells.as_slice()) {
            Ok(next) => next,
            Err(fault) => return Err(fault),
        };
    }
    Ok(swept)
}
