//! The arrows of one cell.
ghost use Rattle.std.specs.Prelude.{◌≡◌, ℕ, ◌<◌, ◌≤◌, ◌*◌, Some};
ghost use Rattle.tensor_words.specs.Spaces.{size, SpaceType};
ghost use Rattle.tensor_words.specs.Operators.{IsArrow, op};
ghost use Rattle.graph_history.specs.History.{state_of, HasVertex, HasSome};
ghost use Rattle.crystal_growers.specs.Expansion.{Expanded, ArrowDrawn};

pub(crate) mod both_ends;
pub(crate) mod cells;
pub(crate) mod drawing;

use crystal_cartan::Arrow;
use graph_history::{Desk, Draw};
use signature_rule::arrow_at;
use tensor_words::{Space, next_code};

/// The word with this code found no cell.
#[derive(Clone, Copy, Debug, PartialEq, Eq)]
pub struct Spent {
    pub code: u64,
}

/// Draws all arrows of a cell. What is put in comes by arrows of this cell. Where some target found no cell, the error
/// tells its code, and the arrows before it are drawn. Takes no memory.
pub fn expand<D: Desk>(desk: &mut D, cell: u32) -> Result<(), Spent>
    requires there { HasSome (state_of (D.standing desk.old).front) cell }
    requires room { 2 * (D.standing desk.old).world.space.cartan.rank ≤ (D.standing desk.old).room }
    ensures { Expanded (D.standing desk.old) (D.standing desk.new) cell result }
{
    let rank = desk.space().cartan().rank();
    let code = desk.word(cell);
    'arrows: for place in 0..2 * rank {
        match draw_one(desk, cell, code, arrow_at(rank, place)) {
            Ok(()) => (),
            Err(spent) => return Err(spent),
        }
    }
    Ok(())
}

/// Draws one arrow of a cell, whose code is `code`.
fn draw_one<D: Desk>(desk: &mut D, cell: u32, code: u64, arrow: Arrow) -> Result<(), Spent>
    requires there { HasVertex (state_of (D.standing desk.old).front) cell code }
    requires arrow { IsArrow (D.standing desk.old).world.space arrow }
    requires room { 0 < (D.standing desk.old).room }
    ensures { ArrowDrawn (D.standing desk.old) (D.standing desk.new) cell code arrow result }
{
    let _space = desk.space();
    if let Draw::Full = desk.draw(cell, arrow) {
        let code = target(desk.space(), code, arrow);
        return Err(Spent { code });
    }
    Ok(())
}

/// The code of what the operator of an arrow makes of a word, where this is not zero.
fn target(space: &Space, code: u64, arrow: Arrow) -> u64
    requires code { code < size space.now }
    requires arrow { IsArrow space.now arrow }
    requires leads { (x : ℕ) × (op space.now arrow code ≡ Some x) }
    ensures { op space.now arrow code ≡ Some result }
{
    match next_code(space, code, arrow) {
        Some(next) => next,
        None => unreachable!(),
    }
}
