//! The steps on cells. Each is one atomic step, and what it tells is exact: which event it adds, if any, and the word
//! that the history gives to the cell.
ghost use Rattle.std.specs.Prelude.{◌≡◌, ◌≢◌, ◌<◌, ◌+◌, ◌==◌, [], ℕ};
ghost use Rattle.tensor_words.specs.Spaces.{size};
ghost use Rattle.graph_history.specs.History.{state_of, IsOrigin};
ghost use Rattle.graph_rule.specs.Layout.{IsSearched};
ghost use Rattle.graph_rule.specs.Told.{Advances, cell_word, confirmed_acts, sought_acts, sought_empty_acts, claimed_acts, claimed_dues};
ghost use Rattle.graph_rule.specs.Values.{Belongs};

use crate::graph::Graph;
use crate::plays::{Asked, Claim, Confirm, LoadCell, Seek, SeekRoom};
use crate::seat::Seat;
use graph_history::Origin;
use std::marker::Brand;

/// The word of a cell: 0 where it is empty, else its code and 1. The step adds no event.
pub fn load_cell(graph: &Graph, seat: &mut Seat, cell: u32) -> u64
    requires belongs { Belongs seat.old graph.now }
    requires cell { cell < graph.now.world.cells }
    ensures table { seat.new.table ≡ seat.old.table }
    ensures view { Advances seat.old.view seat.new.view [] seat.old.view.dues }
    ensures word { result ≡ cell_word seat.new.view cell }
{
    load_cell_as::<Brand>(graph, seat, cell)
}

fn load_cell_as<J: Asked>(graph: &Graph, seat: &mut Seat, cell: u32) -> u64
    requires asked { J.cell ≡ cell }
    requires belongs { Belongs seat.old graph.now }
    requires cell { cell < graph.now.world.cells }
    ensures table { seat.new.table ≡ seat.old.table }
    ensures view { Advances seat.old.view seat.new.view [] seat.old.view.dues }
    ensures word { result ≡ cell_word seat.new.view cell }
{
    graph
        .board
        .shared
        .load::<LoadCell<J>>(&mut seat.token, 1 + cell as usize)
}

/// Whether the vertex of this cell has this code. The event is `Met` where it has; else there is none. Unlike a search it
/// looks at this one cell alone, so it asks for no path.
pub fn confirm(graph: &Graph, seat: &mut Seat, cell: u32, code: u64) -> bool
    requires belongs { Belongs seat.old graph.now }
    requires cell { cell < graph.now.world.cells }
    requires word { code < size seat.old.view.world.space }
    ensures table { seat.new.table ≡ seat.old.table }
    ensures view { Advances seat.old.view seat.new.view (confirmed_acts cell code result) seat.old.view.dues }
    ensures exact { result ≡ (cell_word seat.new.view cell == code + 1) }
{
    confirm_as::<Brand>(graph, seat, cell, code)
}

fn confirm_as<J: Asked>(graph: &Graph, seat: &mut Seat, cell: u32, code: u64) -> bool
    requires asked { (J.cell ≡ cell) × (J.code ≡ code) }
    requires belongs { Belongs seat.old graph.now }
    requires cell { cell < graph.now.world.cells }
    requires word { code < size seat.old.view.world.space }
    ensures table { seat.new.table ≡ seat.old.table }
    ensures view { Advances seat.old.view seat.new.view (confirmed_acts cell code result) seat.old.view.dues }
    ensures exact { result ≡ (cell_word seat.new.view cell == code + 1) }
{
    let word = graph
        .board
        .shared
        .load::<Confirm<J>>(&mut seat.token, 1 + cell as usize);
    word == code + 1
}

/// The word of a cell in search of a code, which is searched up to this cell. The event is `Met` where the code is found
/// there, `Missed` where the cell is empty or is the last of the path and has another code; else there is none.
pub fn seek(graph: &Graph, seat: &mut Seat, cell: u32, code: u64) -> u64
    requires belongs { Belongs seat.old graph.now }
    requires cell { cell < graph.now.world.cells }
    requires word { code < size seat.old.view.world.space }
    requires searched { IsSearched seat.old.view.world (state_of seat.old.view.front) cell code }
    ensures table { seat.new.table ≡ seat.old.table }
    ensures view { Advances seat.old.view seat.new.view (sought_acts seat.old.view.world cell code result) seat.old.view.dues }
    ensures word { result ≡ cell_word seat.new.view cell }
{
    seek_as::<Brand>(graph, seat, cell, code)
}

fn seek_as<J: Asked>(graph: &Graph, seat: &mut Seat, cell: u32, code: u64) -> u64
    requires asked { (J.cell ≡ cell) × (J.code ≡ code) }
    requires belongs { Belongs seat.old graph.now }
    requires cell { cell < graph.now.world.cells }
    requires word { code < size seat.old.view.world.space }
    requires searched { IsSearched seat.old.view.world (state_of seat.old.view.front) cell code }
    ensures table { seat.new.table ≡ seat.old.table }
    ensures view { Advances seat.old.view seat.new.view (sought_acts seat.old.view.world cell code result) seat.old.view.dues }
    ensures word { result ≡ cell_word seat.new.view cell }
{
    graph
        .board
        .shared
        .load::<Seek<J>>(&mut seat.token, 1 + cell as usize)
}

/// The word of a cell in search of a place for a code. The event is `Met` where the code is found there, `Spent` where
/// the cell is the last of the path and has another code; else there is none.
pub fn seek_room(graph: &Graph, seat: &mut Seat, cell: u32, code: u64, origin: Origin) -> u64
    requires belongs { Belongs seat.old graph.now }
    requires cell { cell < graph.now.world.cells }
    requires word { code < size seat.old.view.world.space }
    requires searched { IsSearched seat.old.view.world (state_of seat.old.view.front) cell code }
    requires origin { IsOrigin seat.old.view.world (state_of seat.old.view.front) code origin }
    ensures table { seat.new.table ≡ seat.old.table }
    ensures view { Advances seat.old.view seat.new.view (sought_empty_acts seat.old.view.world cell code result) seat.old.view.dues }
    ensures word { result ≡ cell_word seat.new.view cell }
{
    seek_room_as::<Brand>(graph, seat, cell, code, origin)
}

fn seek_room_as<J: Asked>(
    graph: &Graph,
    seat: &mut Seat,
    cell: u32,
    code: u64,
    _origin: Origin,
) -> u64
    requires asked { (J.cell ≡ cell) × (J.code ≡ code) × (J.origin ≡ _origin) }
    requires belongs { Belongs seat.old graph.now }
    requires cell { cell < graph.now.world.cells }
    requires word { code < size seat.old.view.world.space }
    requires searched { IsSearched seat.old.view.world (state_of seat.old.view.front) cell code }
    requires origin { IsOrigin seat.old.view.world (state_of seat.old.view.front) code _origin }
    ensures table { seat.new.table ≡ seat.old.table }
    ensures view { Advances seat.old.view seat.new.view (sought_empty_acts seat.old.view.world cell code result) seat.old.view.dues }
    ensures word { result ≡ cell_word seat.new.view cell }
{
    graph
        .board
        .shared
        .load::<SeekRoom<J>>(&mut seat.token, 1 + cell as usize)
}

/// Puts a code into a cell if the cell is empty, for the debt that is pledged, and answers the word that was there
/// before. The event is `Added` where the cell was empty, which is owed and unpaid from then on, `Met` where the code was
/// there already; else there is none.
pub fn claim(graph: &Graph, seat: &mut Seat, cell: u32, code: u64, origin: Origin) -> u64
    requires belongs { Belongs seat.old graph.now }
    requires cell { cell < graph.now.world.cells }
    requires word { code < size seat.old.view.world.space }
    requires searched { IsSearched seat.old.view.world (state_of seat.old.view.front) cell code }
    requires origin { IsOrigin seat.old.view.world (state_of seat.old.view.front) code origin }
    requires pledge { seat.old.view.dues.pledge ≡ 1 }
    ensures table { seat.new.table ≡ seat.old.table }
    ensures view { Advances seat.old.view seat.new.view (claimed_acts cell code origin result) (claimed_dues cell result seat.old.view.dues) }
    ensures word { result ≢ 0 → result ≡ cell_word seat.new.view cell }
{
    claim_as::<Brand>(graph, seat, cell, code, origin)
}

fn claim_as<J: Asked>(graph: &Graph, seat: &mut Seat, cell: u32, code: u64, _origin: Origin) -> u64
    requires asked { (J.cell ≡ cell) × (J.code ≡ code) × (J.origin ≡ _origin) }
    requires belongs { Belongs seat.old graph.now }
    requires cell { cell < graph.now.world.cells }
    requires word { code < size seat.old.view.world.space }
    requires searched { IsSearched seat.old.view.world (state_of seat.old.view.front) cell code }
    requires origin { IsOrigin seat.old.view.world (state_of seat.old.view.front) code _origin }
    requires pledge { seat.old.view.dues.pledge ≡ 1 }
    ensures table { seat.new.table ≡ seat.old.table }
    ensures view { Advances seat.old.view seat.new.view (claimed_acts cell code _origin result) (claimed_dues cell result seat.old.view.dues) }
    ensures word { result ≢ 0 → result ≡ cell_word seat.new.view cell }
{
    graph
        .board
        .shared
        .compare_exchange::<Claim<J>>(&mut seat.token, 1 + cell as usize, 0, code + 1)
}
