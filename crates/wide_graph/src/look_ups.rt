//! Looking for pairs.
ghost use Rattle.std.specs.Prelude.{◌≡◌, ◌+◌, None, MatchOption};
ghost use Rattle.graph_history.specs.History.{state_of, HasVertex, IsNew};
ghost use Rattle.wide_words.specs.WideSpaces.{IsWide, number};
ghost use Rattle.wide_rule.specs.Layout.{HasSeen};
ghost use Rattle.wide_rule.specs.Values.{Belongs};
ghost use Rattle.wide_graph.specs.Entries.{Finds};
ghost use Rattle.wide_graph.specs.Search.{Probing, Seeks};

use crate::path::{cells, following, home};
use wide_rule::{WideGraph, WideSeat, seek_first, seek_second};
use wide_words::WideCode;

/// What is seen of a pair at one cell of its path.
#[derive(Clone, Copy)]
pub(crate) enum Sought {
    /// It is there.
    Found,
    /// It is nowhere.
    Absent,
    /// The cell has another pair, or another first half, and the path goes on.
    Passed,
}

/// The cell of this pair, `None` exactly where it is no vertex in the front that is left. The one event is `Met` or
/// `Missed`.
pub fn find(graph: &WideGraph, seat: &mut WideSeat, code: WideCode) -> Option<u32>
    requires belongs { Belongs seat.old graph.now }
    requires code { IsWide seat.old.view.world.space code }
    requires idle { seat.old.view.dues.pending ≡ None }
    ensures table { seat.new.table ≡ seat.old.table }
    ensures found { Finds seat.old.view seat.new.view (number seat.old.view.world.space code) result }
    ensures exact { MatchOption result (IsNew (state_of seat.new.view.front) (number graph.now.world.space code)) (λ c. HasVertex (state_of seat.new.view.front) c (number graph.now.world.space code)) }
{
    let cells = cells(graph);
    let mut cell = home(code, cells);
    for step in 0..cells {
        match seek_cell(graph, seat, cell, code, step + 1 == cells) {
            Sought::Found => return Some(cell),
            Sought::Absent => return None,
            Sought::Passed => cell = following(cell, cells),
        }
    }
    unreachable!()
}

/// Looks at a cell of the path.
fn seek_cell(
    graph: &WideGraph,
    seat: &mut WideSeat,
    cell: u32,
    code: WideCode,
    last: bool,
) -> Sought
    requires probing { Probing graph.now seat.old code cell last }
    requires idle { seat.old.view.dues.pending ≡ None }
    ensures table { seat.new.table ≡ seat.old.table }
    ensures told { Seeks seat.old.view seat.new.view cell code last result }
{
    let word = seek_first(graph, seat, cell, code);
    if word == 0 {
        return Sought::Absent;
    }
    if word == code.high + 1 {
        return seek_half(graph, seat, cell, code, last);
    }
    if last { Sought::Absent } else { Sought::Passed }
}

/// Looks at a cell that has the first half.
fn seek_half(
    graph: &WideGraph,
    seat: &mut WideSeat,
    cell: u32,
    code: WideCode,
    last: bool,
) -> Sought
    requires probing { Probing graph.now seat.old code cell last }
    requires half { HasSeen seat.old.view.dues.seen cell (code.high + 1) }
    requires idle { seat.old.view.dues.pending ≡ None }
    ensures table { seat.new.table ≡ seat.old.table }
    ensures told { Seeks seat.old.view seat.new.view cell code last result }
{
    let word = seek_second(graph, seat, cell, code);
    if word == 0 {
        return Sought::Absent;
    }
    if word == code.low + 1 {
        return Sought::Found;
    }
    if last { Sought::Absent } else { Sought::Passed }
}
