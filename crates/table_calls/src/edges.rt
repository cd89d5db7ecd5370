//! Looking at arrows, and drawing them.
ghost use Rattle.std.specs.Prelude.{◌≡◌};
ghost use Rattle.tensor_words.specs.Operators.{IsArrow};
ghost use Rattle.graph_history.specs.History.{state_of, HasSome, HasArrow};
ghost use Rattle.graph_history.specs.ArrowRows.{seen};
ghost use Rattle.graph_history.specs.Desks.{look_acts};
ghost use Rattle.graph_rule.specs.Layout.{LeadsTo};
ghost use Rattle.graph_rule.specs.Told.{Advances, target_in, drawn_acts};
ghost use Rattle.graph_rule.specs.Values.{Belongs};

use crystal_cartan::Arrow;
use graph_history::Look;
use graph_rule::{Graph, Seat, claim_edge, load_edge};

/// Where an arrow from the vertex of this cell leads, `Blank` exactly where it is not drawn in the front that is left.
/// The event is `Blank` or `Saw`.
pub fn look(graph: &Graph, seat: &mut Seat, cell: u32, arrow: Arrow) -> Look
    requires belongs { Belongs seat.old graph.now }
    requires there { HasSome (state_of seat.old.view.front) cell }
    requires arrow { IsArrow seat.old.view.world.space arrow }
    requires pledge { seat.old.view.dues.pledge ≡ 0 }
    ensures table { seat.new.table ≡ seat.old.table }
    ensures view { Advances seat.old.view seat.new.view (look_acts cell arrow result) seat.old.view.dues }
    ensures exact { seen result ≡ target_in seat.new.view cell arrow }
{
    let _world = graph.world();
    let word = load_edge(graph, seat, cell, arrow);
    if word == 0 {
        Look::Blank
    } else if word == 1 {
        Look::Zero
    } else {
        Look::To {
            cell: (word - 2) as u32,
        }
    }
}

/// Draws an arrow from the vertex of this cell to what its operator gives, zero or a vertex, and answers whether this
/// call did. The event is `Drew`, or `Saw` of the same target where it was drawn before.
pub fn set(graph: &Graph, seat: &mut Seat, cell: u32, arrow: Arrow, to: Option<u32>) -> bool
    requires belongs { Belongs seat.old graph.now }
    requires arrow { IsArrow seat.old.view.world.space arrow }
    requires target { LeadsTo seat.old.view.world (state_of seat.old.view.front) cell arrow to }
    requires pledge { seat.old.view.dues.pledge ≡ 0 }
    ensures table { seat.new.table ≡ seat.old.table }
    ensures view { Advances seat.old.view seat.new.view (drawn_acts cell arrow to result) seat.old.view.dues }
    ensures drawn { HasArrow (state_of seat.new.view.front) cell arrow to }
{
    claim_edge(graph, seat, cell, arrow, to) == 0
}
