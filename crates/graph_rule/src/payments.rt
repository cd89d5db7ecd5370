//! The steps on word 0, the number of debts. A caller owes a debt before it takes a cell, and pays it when the vertex of
//! the cell is whole, so that the debts are at least the vertices that are not whole.
ghost use Rattle.std.specs.Prelude.{◌≡◌, ◌≤◌, ◌+◌, ℕ, [], ◌∷◌, Some, None, Contains};
ghost use Rattle.graph_history.specs.declared.event.Act.TheVariants.{Owed, Settled, Tally};
ghost use Rattle.graph_history.specs.History.{state_of, IsWhole};
ghost use Rattle.graph_rule.specs.Rule.{whole};
ghost use Rattle.graph_rule.specs.Told.{Advances, pledged, unpledged, paid};
ghost use Rattle.graph_rule.specs.Values.{Belongs};

use crate::graph::Graph;
use crate::plays::{Asked, Count, Owe, Pay, Release};
use crate::seat::Seat;
use std::marker::Brand;

/// Owes one more debt, which is pledged until a cell is put in for it. The event is `Owed`.
pub fn owe(graph: &Graph, seat: &mut Seat)
    requires belongs { Belongs seat.old graph.now }
    requires pledge { seat.old.view.dues.pledge ≡ 0 }
    ensures table { seat.new.table ≡ seat.old.table }
    ensures view { Advances seat.old.view seat.new.view (Owed ∷ []) (pledged seat.old.view.dues) }
{
    let _found = graph.board.shared.fetch_add::<Owe>(&mut seat.token, 0, 1);
}

/// Takes the pledged debt back. The event is `Settled` of no cell.
pub fn release(graph: &Graph, seat: &mut Seat)
    requires belongs { Belongs seat.old graph.now }
    requires pledge { seat.old.view.dues.pledge ≡ 1 }
    ensures table { seat.new.table ≡ seat.old.table }
    ensures view { Advances seat.old.view seat.new.view (Settled None ∷ []) (unpledged seat.old.view.dues) }
{
    let _found = graph
        .board
        .shared
        .fetch_sub::<Release>(&mut seat.token, 0, 1);
}

/// Pays the debt of a cell that is unpaid at this seat and whole. The event is `Settled` of the cell.
pub fn pay(graph: &Graph, seat: &mut Seat, cell: u32)
    requires belongs { Belongs seat.old graph.now }
    requires pledge { seat.old.view.dues.pledge ≡ 0 }
    requires unpaid { Contains seat.old.view.dues.unpaid cell }
    requires finished { IsWhole seat.old.view.world (state_of seat.old.view.front) cell }
    ensures table { seat.new.table ≡ seat.old.table }
    ensures view { Advances seat.old.view seat.new.view (Settled (Some cell) ∷ []) (paid cell seat.old.view.dues) }
{
    pay_as::<Brand>(graph, seat, cell)
}

fn pay_as<J: Asked>(graph: &Graph, seat: &mut Seat, _cell: u32)
    requires asked { J.cell ≡ _cell }
    requires belongs { Belongs seat.old graph.now }
    requires pledge { seat.old.view.dues.pledge ≡ 0 }
    requires unpaid { Contains seat.old.view.dues.unpaid _cell }
    requires finished { IsWhole seat.old.view.world (state_of seat.old.view.front) _cell }
    ensures table { seat.new.table ≡ seat.old.table }
    ensures view { Advances seat.old.view seat.new.view (Settled (Some _cell) ∷ []) (paid _cell seat.old.view.dues) }
{
    let _found = graph
        .board
        .shared
        .fetch_sub::<Pay<J>>(&mut seat.token, 0, 1);
}

/// The number of debts, at most the number of cells plus 65,536. The event is `Tally` of it. It is 0 only where nothing is
/// unfinished, and where the seat is alone and has no unpaid cell it is 0.
pub fn tally(graph: &Graph, seat: &mut Seat) -> u64
    requires belongs { Belongs seat.old graph.now }
    requires pledge { seat.old.view.dues.pledge ≡ 0 }
    ensures table { seat.new.table ≡ seat.old.table }
    ensures view { Advances seat.old.view seat.new.view (Tally result ∷ []) seat.old.view.dues }
    ensures debts { result ≡ (state_of seat.new.view.front).debts }
    ensures few { result ≤ graph.now.world.cells + whole }
    ensures alone { seat.old.view.stake ≡ whole → seat.old.view.dues.unpaid ≡ [] → result ≡ 0 }
{
    graph.board.shared.load::<Count>(&mut seat.token, 0)
}
