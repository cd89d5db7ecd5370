//! Putting pairs in.
ghost use Rattle.std.specs.Prelude.{◌≡◌, ◌+◌, None};
ghost use Rattle.graph_history.specs.History.{state_of, IsOrigin};
ghost use Rattle.wide_words.specs.WideSpaces.{IsWide, number};
ghost use Rattle.wide_words.specs.WideHistory.{flat};
ghost use Rattle.wide_rule.specs.Layout.{HasSeen};
ghost use Rattle.wide_rule.specs.Told.{unless};
ghost use Rattle.wide_rule.specs.Values.{Belongs};
ghost use Rattle.wide_graph.specs.Entries.{Enters, IsAddedIn};
ghost use Rattle.wide_graph.specs.Search.{Probing, Tries};

use crate::path::{cells, following, home};
use graph_history::{Added, Origin};
use wide_rule::{
    WideGraph, WideSeat, claim_first, claim_second, seek_room_first, seek_room_second,
};
use wide_words::WideCode;

/// What became of a pair at one cell of its path.
#[derive(Clone, Copy)]
pub(crate) enum Tried {
    /// It is new there.
    Added,
    /// It was there already.
    Met,
    /// The cell is the last and has another pair, or another first half.
    Spent,
    /// The cell has another pair, or another first half, and the path goes on.
    Passed,
}

/// Puts in this pair: a root, or what an operator gives at a vertex. `Full` comes exactly where, in the front that is left,
/// the pair is no vertex and there are at least as many vertices as the capacity. The one event is `Added`, `Met` or
/// `Spent`, and a new cell is owed.
pub fn add(graph: &WideGraph, seat: &mut WideSeat, code: WideCode, origin: Origin) -> Added
    requires belongs { Belongs seat.old graph.now }
    requires code { IsWide seat.old.view.world.space code }
    requires origin { IsOrigin (flat seat.old.view.world) (state_of seat.old.view.front) (number seat.old.view.world.space code) origin }
    requires idle { seat.old.view.dues.pending ≡ None }
    ensures table { seat.new.table ≡ seat.old.table }
    ensures entry { Enters seat.old.view seat.new.view (number seat.old.view.world.space code) origin result }
    ensures exact { IsAddedIn graph.now.world (state_of seat.new.view.front) (number graph.now.world.space code) result }
{
    let cells = cells(graph);
    let mut cell = home(code, cells);
    for step in 0..cells {
        match try_cell(graph, seat, cell, code, origin, step + 1 == cells) {
            Tried::Added => return Added::New { cell },
            Tried::Met => return Added::Old { cell },
            Tried::Spent => return Added::Full,
            Tried::Passed => cell = following(cell, cells),
        }
    }
    unreachable!()
}

/// Tries a cell of the path: takes it where it is empty, finishes it where it has the first half alone.
fn try_cell(
    graph: &WideGraph,
    seat: &mut WideSeat,
    cell: u32,
    code: WideCode,
    origin: Origin,
    last: bool,
) -> Tried
    requires probing { Probing graph.now seat.old code cell last }
    requires origin { IsOrigin (flat seat.old.view.world) (state_of seat.old.view.front) (number seat.old.view.world.space code) origin }
    requires idle { seat.old.view.dues.pending ≡ None }
    ensures table { seat.new.table ≡ seat.old.table }
    ensures told { Tries seat.old.view seat.new.view cell code origin last result }
{
    let word = seek_room_first(graph, seat, cell, code, origin);
    if word == 0 {
        return take_cell(graph, seat, cell, code, origin, last);
    }
    if word == code.high + 1 {
        return try_half(graph, seat, cell, code, origin, last);
    }
    if last { Tried::Spent } else { Tried::Passed }
}

/// Claims a cell that was empty, and finishes it. Somebody may have been faster.
fn take_cell(
    graph: &WideGraph,
    seat: &mut WideSeat,
    cell: u32,
    code: WideCode,
    origin: Origin,
    last: bool,
) -> Tried
    requires probing { Probing graph.now seat.old code cell last }
    requires origin { IsOrigin (flat seat.old.view.world) (state_of seat.old.view.front) (number seat.old.view.world.space code) origin }
    requires idle { seat.old.view.dues.pending ≡ None }
    ensures table { seat.new.table ≡ seat.old.table }
    ensures told { Tries seat.old.view seat.new.view cell code origin last result }
{
    let word = claim_first(graph, seat, cell, code, origin);
    if word == 0 {
        return finish_half(graph, seat, cell, code, origin, last);
    }
    if word == code.high + 1 {
        return try_half(graph, seat, cell, code, origin, last);
    }
    if last {
        let _word = seek_room_first(graph, seat, cell, code, origin);
        return Tried::Spent;
    }
    Tried::Passed
}

/// Tries a cell that has the first half.
fn try_half(
    graph: &WideGraph,
    seat: &mut WideSeat,
    cell: u32,
    code: WideCode,
    origin: Origin,
    last: bool,
) -> Tried
    requires probing { Probing graph.now seat.old code cell last }
    requires origin { IsOrigin (flat seat.old.view.world) (state_of seat.old.view.front) (number seat.old.view.world.space code) origin }
    requires half { HasSeen seat.old.view.dues.seen cell (code.high + 1) }
    requires idle { seat.old.view.dues.pending ≡ None }
    ensures table { seat.new.table ≡ seat.old.table }
    ensures told { Tries seat.old.view seat.new.view cell code origin last result }
{
    let word = seek_room_second(graph, seat, cell, code, origin);
    if word == 0 {
        return finish_half(graph, seat, cell, code, origin, last);
    }
    if word == code.low + 1 {
        return Tried::Met;
    }
    if last { Tried::Spent } else { Tried::Passed }
}

/// Puts the second half into a cell that has the first one, whoever claimed it. Somebody may have been faster.
fn finish_half(
    graph: &WideGraph,
    seat: &mut WideSeat,
    cell: u32,
    code: WideCode,
    origin: Origin,
    last: bool,
) -> Tried
    requires probing { Probing graph.now seat.old code cell last }
    requires origin { IsOrigin (flat seat.old.view.world) (state_of seat.old.view.front) (number seat.old.view.world.space code) origin }
    requires half { HasSeen seat.old.view.dues.seen cell (code.high + 1) }
    requires idle { unless cell seat.old.view.dues.pending ≡ None }
    ensures table { seat.new.table ≡ seat.old.table }
    ensures told { Tries seat.old.view seat.new.view cell code origin last result }
{
    let word = claim_second(graph, seat, cell, code, origin);
    if word == 0 {
        return Tried::Added;
    }
    if word == code.low + 1 {
        return Tried::Met;
    }
    if last {
        let _word = seek_room_second(graph, seat, cell, code, origin);
        return Tried::Spent;
    }
    Tried::Passed
}
