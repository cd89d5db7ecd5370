//! The steps on arrows. The word of an arrow is written once: whoever draws it first writes the target, and everybody
//! who comes later finds the same.
ghost use Rattle.std.specs.Prelude.{◌≡◌, ◌≢◌, ◌<◌, ◌+◌, ◌==◌, ℕ, Option, Some};
ghost use Rattle.tensor_words.specs.Operators.{IsArrow};
ghost use Rattle.graph_history.specs.History.{state_of, HasSome};
ghost use Rattle.graph_history.specs.ArrowRows.{edge_word};
ghost use Rattle.graph_rule.specs.Layout.{LeadsTo, arrow_index};
ghost use Rattle.graph_rule.specs.Told.{Advances, target_in, glanced_acts, drawn_acts};
ghost use Rattle.graph_rule.specs.Values.{Belongs};

use crate::graph::Graph;
use crate::plays::{AskedArrow, DrawArrow, Glance};
use crate::seat::Seat;
use crystal_cartan::Arrow;
use signature_rule::arrow_place;
use std::marker::Brand;

/// The word of an arrow: 0 where it is not drawn, 1 where it leads to zero, else the target's cell and 2. The event is
/// `Blank` where it is not drawn, else `Saw`.
pub fn load_edge(graph: &Graph, seat: &mut Seat, cell: u32, arrow: Arrow) -> u64
    requires belongs { Belongs seat.old graph.now }
    requires there { HasSome (state_of seat.old.view.front) cell }
    requires arrow { IsArrow seat.old.view.world.space arrow }
    ensures table { seat.new.table ≡ seat.old.table }
    ensures view { Advances seat.old.view seat.new.view (glanced_acts cell arrow (target_in seat.new.view cell arrow)) seat.old.view.dues }
    ensures word { result ≡ edge_word (target_in seat.new.view cell arrow) }
    ensures target { result < graph.now.world.cells + 2 }
{
    seat.reveal();
    load_edge_as::<Brand>(graph, seat, cell, arrow)
}

fn load_edge_as<J: AskedArrow>(graph: &Graph, seat: &mut Seat, cell: u32, arrow: Arrow) -> u64
    requires asked { (J.cell ≡ cell) × (J.arrow ≡ arrow) }
    requires belongs { Belongs seat.old graph.now }
    requires there { HasSome (state_of seat.old.view.front) cell }
    requires arrow { IsArrow seat.old.view.world.space arrow }
    ensures table { seat.new.table ≡ seat.old.table }
    ensures view { Advances seat.old.view seat.new.view (glanced_acts cell arrow (target_in seat.new.view cell arrow)) seat.old.view.dues }
    ensures word { result ≡ edge_word (target_in seat.new.view cell arrow) }
{
    seat.reveal();
    let index = word_index(graph, cell, arrow);
    graph.board.shared.load::<Glance<J>>(&mut seat.token, index)
}

/// Draws an arrow to what its operator gives, if it is not drawn, and answers the word that was there before. The event
/// is `Drew` where the word was 0, else `Saw` of the same target.
pub fn claim_edge(graph: &Graph, seat: &mut Seat, cell: u32, arrow: Arrow, to: Option<u32>) -> u64
    requires belongs { Belongs seat.old graph.now }
    requires arrow { IsArrow seat.old.view.world.space arrow }
    requires target { LeadsTo seat.old.view.world (state_of seat.old.view.front) cell arrow to }
    ensures table { seat.new.table ≡ seat.old.table }
    ensures view { Advances seat.old.view seat.new.view (drawn_acts cell arrow to (result == 0)) seat.old.view.dues }
    ensures word { result ≢ 0 → result ≡ edge_word (Some to) }
{
    claim_edge_as::<Brand>(graph, seat, cell, arrow, to)
}

fn claim_edge_as<J: AskedArrow>(
    graph: &Graph,
    seat: &mut Seat,
    cell: u32,
    arrow: Arrow,
    to: Option<u32>,
) -> u64
    requires asked { (J.cell ≡ cell) × (J.arrow ≡ arrow) × (J.target ≡ to) }
    requires belongs { Belongs seat.old graph.now }
    requires arrow { IsArrow seat.old.view.world.space arrow }
    requires target { LeadsTo seat.old.view.world (state_of seat.old.view.front) cell arrow to }
    ensures table { seat.new.table ≡ seat.old.table }
    ensures view { Advances seat.old.view seat.new.view (drawn_acts cell arrow to (result == 0)) seat.old.view.dues }
    ensures word { result ≢ 0 → result ≡ edge_word (Some to) }
{
    seat.reveal();
    let index = word_index(graph, cell, arrow);
    let word = target_word(to);
    graph
        .board
        .shared
        .compare_exchange::<DrawArrow<J>>(&mut seat.token, index, 0, word)
}

/// Where the word of an arrow stands.
fn word_index(graph: &Graph, cell: u32, arrow: Arrow) -> usize
    requires cell { cell < graph.now.world.cells }
    requires arrow { IsArrow graph.now.world.space arrow }
    ensures { result ≡ arrow_index graph.now.world cell arrow }
{
    let cells = graph.world().cells() as usize;
    let rank = graph.world().space().cartan().rank();
    let place = arrow_place(rank, arrow);
    1 + cells + (cell as usize * (2 * usize::from(rank)) + place)
}

/// The word of an arrow with this target.
fn target_word(to: Option<u32>) -> u64
    ensures { result ≡ edge_word (Some to) }
{
    match to {
        None => 1,
        Some(cell) => u64::from(cell) + 2,
    }
}
