//! Looking for words, and reading cells.
ghost use Rattle.std.specs.Prelude.{◌≡◌, ◌<◌, [], MatchOption};
ghost use Rattle.tensor_words.specs.Spaces.{size};
ghost use Rattle.graph_history.specs.History.{state_of, vertex_at, HasVertex, IsNew};
ghost use Rattle.graph_history.specs.Desks.{find_acts};
ghost use Rattle.graph_rule.specs.Told.{Advances};
ghost use Rattle.graph_rule.specs.Values.{Belongs};

use crate::path::{following, home};
use graph_rule::{Graph, Seat, load_cell, seek};

/// The cell of the word with this code, `None` exactly where it is no vertex in the front that is left. The event is `Met`
/// or `Missed`.
pub fn find(graph: &Graph, seat: &mut Seat, code: u64) -> Option<u32>
    requires belongs { Belongs seat.old graph.now }
    requires word { code < size graph.now.world.space }
    requires pledge { seat.old.view.dues.pledge ≡ 0 }
    ensures table { seat.new.table ≡ seat.old.table }
    ensures view { Advances seat.old.view seat.new.view (find_acts code result) seat.old.view.dues }
    ensures exact { MatchOption result (IsNew (state_of seat.new.view.front) code) (λ c. HasVertex (state_of seat.new.view.front) c code) }
{
    let cells = graph.world().cells();
    let mut cell = home(code, cells);
    for step in 0..cells {
        let word = seek(graph, seat, cell, code);
        if word == 0 {
            return None;
        }
        if word == code + 1 {
            return Some(cell);
        }
        if step + 1 == cells {
            return None;
        }
        cell = following(cell, cells);
    }
    unreachable!()
}

/// The code of the vertex of this cell, `None` exactly where the front that is left has no vertex there. There is no
/// event.
pub fn word(graph: &Graph, seat: &mut Seat, cell: u32) -> Option<u64>
    requires belongs { Belongs seat.old graph.now }
    requires cell { cell < graph.now.world.cells }
    requires pledge { seat.old.view.dues.pledge ≡ 0 }
    ensures table { seat.new.table ≡ seat.old.table }
    ensures view { Advances seat.old.view seat.new.view [] seat.old.view.dues }
    ensures exact { result ≡ vertex_at (state_of seat.new.view.front).vertices cell }
{
    let word = load_cell(graph, seat, cell);
    if word == 0 { None } else { Some(word - 1) }
}
