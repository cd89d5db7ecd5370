//! The arrows of one cell on the shared table, each drawn from both of its ends at once.
ghost use Rattle.std.specs.Prelude.{◌≡◌, ◌<◌, ◌≤◌, ◌*◌, Some};
ghost use Rattle.tensor_words.specs.Operators.{IsArrow, op};
ghost use Rattle.tensor_words.specs.Laws.{reversed_arrow};
ghost use Rattle.graph_history.specs.History.{state_of, HasVertex, HasSome};
ghost use Rattle.shared_desk.specs.SharedDesks.{standing_of};
ghost use Rattle.crystal_growers.specs.Expansion.{Expanded, ArrowDrawn};

use crate::expansion::Spent;
use crystal_cartan::Arrow;
use graph_history::{Added, Look, Origin};
use shared_desk::SharedDesk;
use signature_rule::arrow_at;

/// Draws all arrows of a cell, as `expand` does, and of each that leads to a word the arrow back. So that word's cell
/// need not look up this one again.
pub(crate) fn expand_both(desk: &mut SharedDesk, cell: u32) -> Result<(), Spent>
    requires there { HasSome (state_of desk.old.seat.view.front) cell }
    requires room { 2 * desk.old.seat.view.world.space.cartan.rank ≤ desk.old.room }
    ensures { Expanded (standing_of desk.old) (standing_of desk.new) cell result }
{
    let rank = desk.world().space().cartan().rank();
    let code = desk.code_at(cell);
    'arrows: for place in 0..2 * rank {
        match draw_both(desk, cell, code, arrow_at(rank, place)) {
            Ok(()) => (),
            Err(spent) => return Err(spent),
        }
    }
    Ok(())
}

/// The arrow of the same index the other way.
fn reversed(arrow: Arrow) -> Arrow
    ensures { result ≡ reversed_arrow arrow }
{
    Arrow {
        down: !arrow.down,
        index: arrow.index,
    }
}

/// Draws an arrow from the vertex of a cell, whose code is `code`, unless it is drawn.
fn draw_both(desk: &mut SharedDesk, cell: u32, code: u64, arrow: Arrow) -> Result<(), Spent>
    requires there { HasVertex (state_of desk.old.seat.view.front) cell code }
    requires arrow { IsArrow desk.old.seat.view.world.space arrow }
    requires room { 0 < desk.old.room }
    ensures { ArrowDrawn (standing_of desk.old) (standing_of desk.new) cell code arrow result }
{
    match desk.glance(cell, arrow) {
        Look::Blank => draw_blank(desk, cell, code, arrow),
        Look::Zero => Ok(()),
        Look::To { .. } => Ok(()),
    }
}

/// The same for an arrow that was not drawn a moment ago.
fn draw_blank(desk: &mut SharedDesk, cell: u32, code: u64, arrow: Arrow) -> Result<(), Spent>
    requires there { HasVertex (state_of desk.old.seat.view.front) cell code }
    requires arrow { IsArrow desk.old.seat.view.world.space arrow }
    requires room { 0 < desk.old.room }
    ensures { ArrowDrawn (standing_of desk.old) (standing_of desk.new) cell code arrow result }
{
    let _world = desk.world();
    match desk.next(code, arrow) {
        None => {
            desk.mark(cell, arrow, None);
            Ok(())
        }
        Some(next) => draw_to(desk, cell, code, arrow, next),
    }
}

/// Draws an arrow to the word with the code `next`, which its operator gives, and the arrow back.
fn draw_to(
    desk: &mut SharedDesk,
    cell: u32,
    _code: u64,
    arrow: Arrow,
    next: u64,
) -> Result<(), Spent>
    requires there { HasVertex (state_of desk.old.seat.view.front) cell _code }
    requires arrow { IsArrow desk.old.seat.view.world.space arrow }
    requires leads { op desk.old.seat.view.world.space arrow _code ≡ Some next }
    requires room { 0 < desk.old.room }
    ensures { ArrowDrawn (standing_of desk.old) (standing_of desk.new) cell _code arrow result }
{
    match desk.enter(next, Origin::By { cell, arrow }) {
        Added::New { cell: to } | Added::Old { cell: to } => {
            desk.mark(cell, arrow, Some(to));
            let _world = desk.world();
            desk.mark(to, reversed(arrow), Some(cell));
            Ok(())
        }
        Added::Full => Err(Spent { code: next }),
    }
}
