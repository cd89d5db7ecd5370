//! Putting words in.
ghost use Rattle.std.specs.Prelude.{◌≡◌, ◌<◌, ◌≤◌, ◌+◌, ◌-◌, ◌%◌};
ghost use Rattle.tensor_words.specs.Spaces.{size};
ghost use Rattle.graph_history.specs.History.{state_of, IsOrigin};
ghost use Rattle.graph_rule.specs.Values.{Belongs};
ghost use Rattle.table_calls.specs.Entries.{Enters, IsAddedIn};
ghost use Rattle.table_calls.specs.Search.{Confirmed, IsAt, Looked, Probed, Claimed};

use crate::path::{first_stretch, following, home, in_round};
use graph_history::{Added, Origin};
use graph_rule::{Graph, Seat, claim, confirm, owe, release, seek_room};

/// What a look along the path of a code found.
#[derive(Clone, Copy)]
pub(crate) enum Probe {
    /// The code has this cell.
    Found { cell: u32 },
    /// This cell, at this step of the path, was empty.
    Empty { cell: u32, step: u32 },
    /// Every cell has another code.
    AllTaken,
}

/// Puts in the word with this code: a root, or what an operator gives at a vertex. `Full` comes exactly where every cell
/// is taken by another word. The events are those of an entry: a debt is owed before a cell is taken, and taken back
/// where somebody was faster; a new cell is owed and unpaid at this seat.
pub fn add(graph: &Graph, seat: &mut Seat, code: u64, origin: Origin) -> Added
    requires belongs { Belongs seat.old graph.now }
    requires origin { IsOrigin seat.old.view.world (state_of seat.old.view.front) code origin }
    requires pledge { seat.old.view.dues.pledge ≡ 0 }
    ensures table { seat.new.table ≡ seat.old.table }
    ensures entry { Enters seat.old.view seat.new.view code origin result }
    ensures exact { IsAddedIn seat.new.view.world (state_of seat.new.view.front) code result }
{
    seat.reveal();
    let _world = graph.world();
    match look_along(graph, seat, code, origin) {
        Probe::Found { cell } => Added::Old { cell },
        Probe::AllTaken => Added::Full,
        Probe::Empty { cell, step } => {
            owe(graph, seat);
            match enter(graph, seat, code, origin, cell, step) {
                Added::New { cell } => Added::New { cell },
                Added::Old { cell } => {
                    release(graph, seat);
                    Added::Old { cell }
                }
                Added::Full => {
                    release(graph, seat);
                    Added::Full
                }
            }
        }
    }
}

/// Puts in a word as `add` does, but looks first at one cell where the word may be. Any number does: it is only where the
/// look begins.
pub fn add_at(graph: &Graph, seat: &mut Seat, code: u64, origin: Origin, near: u32) -> Added
    requires belongs { Belongs seat.old graph.now }
    requires origin { IsOrigin seat.old.view.world (state_of seat.old.view.front) code origin }
    requires pledge { seat.old.view.dues.pledge ≡ 0 }
    ensures table { seat.new.table ≡ seat.old.table }
    ensures entry { Enters seat.old.view seat.new.view code origin result }
    ensures exact { IsAddedIn seat.new.view.world (state_of seat.new.view.front) code result }
{
    seat.reveal();
    if stands_at(graph, seat, near, code) {
        return Added::Old { cell: near };
    }
    add(graph, seat, code, origin)
}

/// Whether the code stands in this cell; no code does in a cell past the last.
fn stands_at(graph: &Graph, seat: &mut Seat, cell: u32, code: u64) -> bool
    requires belongs { Belongs seat.old graph.now }
    requires word { code < size graph.now.world.space }
    ensures table { seat.new.table ≡ seat.old.table }
    ensures told { Confirmed seat.old.view seat.new.view cell code result }
{
    if cell >= graph.world().cells() {
        return false;
    }
    confirm(graph, seat, cell, code)
}

/// Looks along the path, up to the code, an empty cell or the end. The path but for its last cell is two straight
/// stretches: from the home to the last of all cells, and from the first of them on.
fn look_along(graph: &Graph, seat: &mut Seat, code: u64, origin: Origin) -> Probe
    requires belongs { Belongs seat.old graph.now }
    requires word { code < size graph.now.world.space }
    requires origin { IsOrigin seat.old.view.world (state_of seat.old.view.front) code origin }
    ensures table { seat.new.table ≡ seat.old.table }
    ensures told { Probed seat.old.view seat.new.view code result }
{
    let cells = graph.world().cells();
    let start = home(code, cells);
    let turn = first_stretch(start, cells);
    if let Some(probe) = look_between(graph, seat, code, origin, start, 0, turn) {
        return probe;
    }
    look_on(
        graph,
        seat,
        code,
        origin,
        in_round(start + turn, cells),
        turn,
    )
}

/// Looks along the path from the end of its first stretch on, which is at this cell and step.
fn look_on(graph: &Graph, seat: &mut Seat, code: u64, origin: Origin, cell: u32, turn: u32) -> Probe
    requires belongs { Belongs seat.old graph.now }
    requires word { code < size graph.now.world.space }
    requires origin { IsOrigin seat.old.view.world (state_of seat.old.view.front) code origin }
    requires at { IsAt seat.old.view code turn cell }
    requires steps { turn < graph.now.world.cells }
    requires straight { cell + (graph.now.world.cells - 1 - turn) < graph.now.world.cells }
    ensures table { seat.new.table ≡ seat.old.table }
    ensures told { Probed seat.old.view seat.new.view code result }
{
    let last = graph.world().cells() - 1;
    if let Some(probe) = look_between(graph, seat, code, origin, cell, turn, last) {
        return probe;
    }
    look_at_last(graph, seat, code, origin, cell + (last - turn), last)
}

/// Looks along a straight stretch of the path, which has these steps and begins at this cell, up to the code or an empty
/// cell. `None` where all its cells have other codes.
fn look_between(
    graph: &Graph,
    seat: &mut Seat,
    code: u64,
    origin: Origin,
    cell: u32,
    from: u32,
    to: u32,
) -> Option<Probe>
    requires belongs { Belongs seat.old graph.now }
    requires word { code < size graph.now.world.space }
    requires origin { IsOrigin seat.old.view.world (state_of seat.old.view.front) code origin }
    requires at { IsAt seat.old.view code from cell }
    requires steps { (from ≤ to) × (to < graph.now.world.cells) }
    requires straight { cell + (to - from) ≤ graph.now.world.cells }
    ensures table { seat.new.table ≡ seat.old.table }
    ensures told { Looked seat.old seat.new code to ((cell + (to - from)) % graph.now.world.cells) result }
{
    let _world = graph.world();
    for step in from..to {
        let at = cell + (step - from);
        let word = seek_room(graph, seat, at, code, origin);
        if word == 0 {
            return Some(Probe::Empty { cell: at, step });
        }
        if word == code + 1 {
            return Some(Probe::Found { cell: at });
        }
    }
    None
}

/// Looks at the last cell of the path.
fn look_at_last(
    graph: &Graph,
    seat: &mut Seat,
    code: u64,
    origin: Origin,
    cell: u32,
    last: u32,
) -> Probe
    requires belongs { Belongs seat.old graph.now }
    requires word { code < size graph.now.world.space }
    requires origin { IsOrigin seat.old.view.world (state_of seat.old.view.front) code origin }
    requires at { IsAt seat.old.view code last cell }
    requires last { last + 1 ≡ graph.now.world.cells }
    ensures table { seat.new.table ≡ seat.old.table }
    ensures told { Probed seat.old.view seat.new.view code result }
{
    let word = seek_room(graph, seat, cell, code, origin);
    if word == 0 {
        Probe::Empty { cell, step: last }
    } else if word == code + 1 {
        Probe::Found { cell }
    } else {
        Probe::AllTaken
    }
}

/// Goes on along the path from a cell that was empty, and takes the first cell that still is.
fn enter(
    graph: &Graph,
    seat: &mut Seat,
    code: u64,
    origin: Origin,
    mut cell: u32,
    from: u32,
) -> Added
    requires belongs { Belongs seat.old graph.now }
    requires word { code < size graph.now.world.space }
    requires origin { IsOrigin seat.old.view.world (state_of seat.old.view.front) code origin }
    requires pledge { seat.old.view.dues.pledge ≡ 1 }
    requires at { IsAt seat.old.view code from cell }
    ensures table { seat.new.table ≡ seat.old.table }
    ensures told { Claimed seat.old.view seat.new.view code origin result }
{
    let cells = graph.world().cells();
    for step in from..cells {
        let word = claim(graph, seat, cell, code, origin);
        if word == 0 {
            return Added::New { cell };
        }
        if word == code + 1 {
            return Added::Old { cell };
        }
        if step + 1 == cells {
            let _word = seek_room(graph, seat, cell, code, origin);
            return Added::Full;
        }
        cell = following(cell, cells);
    }
    unreachable!()
}
