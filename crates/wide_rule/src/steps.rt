//! The steps on cells. Each is one atomic step, and what it tells is exact: which event it adds, if any, and the word that
//! it found, by the front for a second word, and by what the seat has seen for a first one. What the seat has seen after a
//! step on a first word says which word that was.
ghost use Rattle.std.specs.Prelude.{◌≡◌, ◌≢◌, ◌<◌, ◌+◌, [], ℕ, None};
ghost use Rattle.graph_history.specs.History.{state_of, IsOrigin};
ghost use Rattle.wide_words.specs.WideSpaces.{IsWide, number};
ghost use Rattle.wide_words.specs.WideHistory.{flat};
ghost use Rattle.wide_rule.specs.Layout.{cell_count, HasSeen, IsSearched};
ghost use Rattle.wide_rule.specs.Told.{Advances, seek_first_acts, seek_second_acts, seek_room_first_acts, seek_room_second_acts, claim_second_acts, saw, tried, finished, IsAsSeen, second_seen};
ghost use Rattle.wide_rule.specs.Values.{Belongs};

use crate::graph::WideGraph;
use crate::plays::{
    Asked, ClaimFirst, ClaimSecond, SeekFirst, SeekRoomFirst, SeekRoomSecond, SeekSecond,
};
use crate::seat::WideSeat;
use graph_history::Origin;
use std::marker::Brand;
use wide_words::WideCode;

/// The first word of a cell in search of a pair, which is searched up to this cell: 0 where the cell is empty, else a high
/// code and 1. The event is `Missed` where it is 0, and where it is another half and the cell is the last of the path; else
/// there is none.
pub fn seek_first(graph: &WideGraph, seat: &mut WideSeat, cell: u32, code: WideCode) -> u64
    requires belongs { Belongs seat.old graph.now }
    requires cell { cell < cell_count graph.now.world }
    requires code { IsWide seat.old.view.world.space code }
    requires searched { IsSearched seat.old.view.world (state_of seat.old.view.front) seat.old.view.dues.seen code cell }
    ensures table { seat.new.table ≡ seat.old.table }
    ensures view { Advances seat.old.view seat.new.view (seek_first_acts seat.old.view.world cell code result) (saw cell result seat.old.view.dues) }
    ensures word { IsAsSeen seat.old.view cell result }
{
    seek_first_as::<Brand>(graph, seat, cell, code)
}

fn seek_first_as<J: Asked>(graph: &WideGraph, seat: &mut WideSeat, cell: u32, code: WideCode) -> u64
    requires asked { (J.cell ≡ cell) × (J.code ≡ code) }
    requires belongs { Belongs seat.old graph.now }
    requires cell { cell < cell_count graph.now.world }
    requires code { IsWide seat.old.view.world.space code }
    requires searched { IsSearched seat.old.view.world (state_of seat.old.view.front) seat.old.view.dues.seen code cell }
    ensures table { seat.new.table ≡ seat.old.table }
    ensures view { Advances seat.old.view seat.new.view (seek_first_acts seat.old.view.world cell code result) (saw cell result seat.old.view.dues) }
    ensures word { IsAsSeen seat.old.view cell result }
{
    graph
        .board
        .shared
        .load::<SeekFirst<J>>(&mut seat.token, 1 + 2 * cell as usize)
}

/// The second word of a cell in search of a pair, whose first half stands at the cell: 0 where the cell has no vertex, else
/// a low code and 1. The event is `Met` where the pair is found, `Missed` where the word is 0, and where it is another half
/// and the cell is the last of the path; else there is none.
pub fn seek_second(graph: &WideGraph, seat: &mut WideSeat, cell: u32, code: WideCode) -> u64
    requires belongs { Belongs seat.old graph.now }
    requires cell { cell < cell_count graph.now.world }
    requires code { IsWide seat.old.view.world.space code }
    requires searched { IsSearched seat.old.view.world (state_of seat.old.view.front) seat.old.view.dues.seen code cell }
    requires half { HasSeen seat.old.view.dues.seen cell (code.high + 1) }
    ensures table { seat.new.table ≡ seat.old.table }
    ensures view { Advances seat.old.view seat.new.view (seek_second_acts seat.old.view.world cell code result) seat.old.view.dues }
    ensures word { result ≡ second_seen seat.new.view cell }
{
    seek_second_as::<Brand>(graph, seat, cell, code)
}

fn seek_second_as<J: Asked>(
    graph: &WideGraph,
    seat: &mut WideSeat,
    cell: u32,
    code: WideCode,
) -> u64
    requires asked { (J.cell ≡ cell) × (J.code ≡ code) }
    requires belongs { Belongs seat.old graph.now }
    requires cell { cell < cell_count graph.now.world }
    requires code { IsWide seat.old.view.world.space code }
    requires searched { IsSearched seat.old.view.world (state_of seat.old.view.front) seat.old.view.dues.seen code cell }
    requires half { HasSeen seat.old.view.dues.seen cell (code.high + 1) }
    ensures table { seat.new.table ≡ seat.old.table }
    ensures view { Advances seat.old.view seat.new.view (seek_second_acts seat.old.view.world cell code result) seat.old.view.dues }
    ensures word { result ≡ second_seen seat.new.view cell }
{
    graph
        .board
        .shared
        .load::<SeekSecond<J>>(&mut seat.token, 2 + 2 * cell as usize)
}

/// The first word of a cell in search of a place for a pair. The event is `Spent` where it is another half and the cell is
/// the last of the path; else there is none.
pub fn seek_room_first(
    graph: &WideGraph,
    seat: &mut WideSeat,
    cell: u32,
    code: WideCode,
    origin: Origin,
) -> u64
    requires belongs { Belongs seat.old graph.now }
    requires cell { cell < cell_count graph.now.world }
    requires code { IsWide seat.old.view.world.space code }
    requires searched { IsSearched seat.old.view.world (state_of seat.old.view.front) seat.old.view.dues.seen code cell }
    requires origin { IsOrigin (flat seat.old.view.world) (state_of seat.old.view.front) (number seat.old.view.world.space code) origin }
    ensures table { seat.new.table ≡ seat.old.table }
    ensures view { Advances seat.old.view seat.new.view (seek_room_first_acts seat.old.view.world cell code result) (saw cell result seat.old.view.dues) }
    ensures word { IsAsSeen seat.old.view cell result }
{
    seek_room_first_as::<Brand>(graph, seat, cell, code, origin)
}

fn seek_room_first_as<J: Asked>(
    graph: &WideGraph,
    seat: &mut WideSeat,
    cell: u32,
    code: WideCode,
    _origin: Origin,
) -> u64
    requires asked { (J.cell ≡ cell) × (J.code ≡ code) × (J.origin ≡ _origin) }
    requires belongs { Belongs seat.old graph.now }
    requires cell { cell < cell_count graph.now.world }
    requires code { IsWide seat.old.view.world.space code }
    requires searched { IsSearched seat.old.view.world (state_of seat.old.view.front) seat.old.view.dues.seen code cell }
    requires origin { IsOrigin (flat seat.old.view.world) (state_of seat.old.view.front) (number seat.old.view.world.space code) _origin }
    ensures table { seat.new.table ≡ seat.old.table }
    ensures view { Advances seat.old.view seat.new.view (seek_room_first_acts seat.old.view.world cell code result) (saw cell result seat.old.view.dues) }
    ensures word { IsAsSeen seat.old.view cell result }
{
    graph
        .board
        .shared
        .load::<SeekRoomFirst<J>>(&mut seat.token, 1 + 2 * cell as usize)
}

/// The second word of a cell in search of a place for a pair, whose first half stands at the cell. The event is `Met` where
/// the pair is found, `Spent` where the word is another half and the cell is the last of the path; else there is none.
pub fn seek_room_second(
    graph: &WideGraph,
    seat: &mut WideSeat,
    cell: u32,
    code: WideCode,
    origin: Origin,
) -> u64
    requires belongs { Belongs seat.old graph.now }
    requires cell { cell < cell_count graph.now.world }
    requires code { IsWide seat.old.view.world.space code }
    requires searched { IsSearched seat.old.view.world (state_of seat.old.view.front) seat.old.view.dues.seen code cell }
    requires half { HasSeen seat.old.view.dues.seen cell (code.high + 1) }
    requires origin { IsOrigin (flat seat.old.view.world) (state_of seat.old.view.front) (number seat.old.view.world.space code) origin }
    ensures table { seat.new.table ≡ seat.old.table }
    ensures view { Advances seat.old.view seat.new.view (seek_room_second_acts seat.old.view.world cell code result) seat.old.view.dues }
    ensures word { result ≡ second_seen seat.new.view cell }
{
    seek_room_second_as::<Brand>(graph, seat, cell, code, origin)
}

fn seek_room_second_as<J: Asked>(
    graph: &WideGraph,
    seat: &mut WideSeat,
    cell: u32,
    code: WideCode,
    _origin: Origin,
) -> u64
    requires asked { (J.cell ≡ cell) × (J.code ≡ code) × (J.origin ≡ _origin) }
    requires belongs { Belongs seat.old graph.now }
    requires cell { cell < cell_count graph.now.world }
    requires code { IsWide seat.old.view.world.space code }
    requires searched { IsSearched seat.old.view.world (state_of seat.old.view.front) seat.old.view.dues.seen code cell }
    requires half { HasSeen seat.old.view.dues.seen cell (code.high + 1) }
    requires origin { IsOrigin (flat seat.old.view.world) (state_of seat.old.view.front) (number seat.old.view.world.space code) _origin }
    ensures table { seat.new.table ≡ seat.old.table }
    ensures view { Advances seat.old.view seat.new.view (seek_room_second_acts seat.old.view.world cell code result) seat.old.view.dues }
    ensures word { result ≡ second_seen seat.new.view cell }
{
    graph
        .board
        .shared
        .load::<SeekRoomSecond<J>>(&mut seat.token, 2 + 2 * cell as usize)
}

/// Claims a cell for the first half of a pair if the cell is empty, and answers the first word that was there before. There
/// is no event. Where the word was 0, the cell is pending at this seat, which must have had no other one pending.
pub fn claim_first(
    graph: &WideGraph,
    seat: &mut WideSeat,
    cell: u32,
    code: WideCode,
    origin: Origin,
) -> u64
    requires belongs { Belongs seat.old graph.now }
    requires cell { cell < cell_count graph.now.world }
    requires code { IsWide seat.old.view.world.space code }
    requires searched { IsSearched seat.old.view.world (state_of seat.old.view.front) seat.old.view.dues.seen code cell }
    requires origin { IsOrigin (flat seat.old.view.world) (state_of seat.old.view.front) (number seat.old.view.world.space code) origin }
    requires idle { seat.old.view.dues.pending ≡ None }
    ensures table { seat.new.table ≡ seat.old.table }
    ensures view { Advances seat.old.view seat.new.view [] (tried cell code result seat.old.view.dues) }
    ensures word { IsAsSeen seat.old.view cell result }
{
    claim_first_as::<Brand>(graph, seat, cell, code, origin)
}

fn claim_first_as<J: Asked>(
    graph: &WideGraph,
    seat: &mut WideSeat,
    cell: u32,
    code: WideCode,
    _origin: Origin,
) -> u64
    requires asked { (J.cell ≡ cell) × (J.code ≡ code) × (J.origin ≡ _origin) }
    requires belongs { Belongs seat.old graph.now }
    requires cell { cell < cell_count graph.now.world }
    requires code { IsWide seat.old.view.world.space code }
    requires searched { IsSearched seat.old.view.world (state_of seat.old.view.front) seat.old.view.dues.seen code cell }
    requires origin { IsOrigin (flat seat.old.view.world) (state_of seat.old.view.front) (number seat.old.view.world.space code) _origin }
    requires idle { seat.old.view.dues.pending ≡ None }
    ensures table { seat.new.table ≡ seat.old.table }
    ensures view { Advances seat.old.view seat.new.view [] (tried cell code result seat.old.view.dues) }
    ensures word { IsAsSeen seat.old.view cell result }
{
    seat.reveal();
    graph
        .board
        .shared
        .compare_exchange::<ClaimFirst<J>>(&mut seat.token, 1 + 2 * cell as usize, 0, code.high + 1)
}

/// Puts the second half of a pair into a cell that has its first half, if it has no second word, and answers the second word
/// that was there before. The event is `Added` where it was 0, and the cell is owed from then on, `Met` where the pair was
/// there already; else there is none. The cell is not pending any more, whatever was there.
pub fn claim_second(
    graph: &WideGraph,
    seat: &mut WideSeat,
    cell: u32,
    code: WideCode,
    origin: Origin,
) -> u64
    requires belongs { Belongs seat.old graph.now }
    requires cell { cell < cell_count graph.now.world }
    requires code { IsWide seat.old.view.world.space code }
    requires searched { IsSearched seat.old.view.world (state_of seat.old.view.front) seat.old.view.dues.seen code cell }
    requires half { HasSeen seat.old.view.dues.seen cell (code.high + 1) }
    requires origin { IsOrigin (flat seat.old.view.world) (state_of seat.old.view.front) (number seat.old.view.world.space code) origin }
    ensures table { seat.new.table ≡ seat.old.table }
    ensures view { Advances seat.old.view seat.new.view (claim_second_acts seat.old.view.world cell code origin result) (finished cell result seat.old.view.dues) }
    ensures word { result ≢ 0 → result ≡ second_seen seat.new.view cell }
{
    claim_second_as::<Brand>(graph, seat, cell, code, origin)
}

fn claim_second_as<J: Asked>(
    graph: &WideGraph,
    seat: &mut WideSeat,
    cell: u32,
    code: WideCode,
    _origin: Origin,
) -> u64
    requires asked { (J.cell ≡ cell) × (J.code ≡ code) × (J.origin ≡ _origin) }
    requires belongs { Belongs seat.old graph.now }
    requires cell { cell < cell_count graph.now.world }
    requires code { IsWide seat.old.view.world.space code }
    requires searched { IsSearched seat.old.view.world (state_of seat.old.view.front) seat.old.view.dues.seen code cell }
    requires half { HasSeen seat.old.view.dues.seen cell (code.high + 1) }
    requires origin { IsOrigin (flat seat.old.view.world) (state_of seat.old.view.front) (number seat.old.view.world.space code) _origin }
    ensures table { seat.new.table ≡ seat.old.table }
    ensures view { Advances seat.old.view seat.new.view (claim_second_acts seat.old.view.world cell code _origin result) (finished cell result seat.old.view.dues) }
    ensures word { result ≢ 0 → result ≡ second_seen seat.new.view cell }
{
    seat.reveal();
    graph
        .board
        .shared
        .compare_exchange::<ClaimSecond<J>>(&mut seat.token, 2 + 2 * cell as usize, 0, code.low + 1)
}
