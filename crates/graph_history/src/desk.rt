//! The interface that sessions and growers share.
ghost use Rattle.std.specs.Prelude.{◌≡◌, ℕ, ◌<◌, true, [], ◌∷◌, Some, Contains};
ghost use Rattle.tensor_words.specs.Spaces.{size};
ghost use Rattle.tensor_words.specs.Operators.{IsArrow};
ghost use Rattle.tensor_words.specs.Worlds.{IsWorld};
ghost use Rattle.graph_history.specs.declared.event.Act.TheVariants.{Settled, Tally};
ghost use Rattle.graph_history.specs.declared.event.Origin.TheVariants.{Root};
ghost use Rattle.graph_history.specs.History.{state_of, HasVertex, HasSome, IsWhole, IsLegal};
ghost use Rattle.graph_history.specs.Desks.{Standing, Goes, Does, Entering, Drawing, find_acts, look_acts};

use crate::answer::{Added, Draw, Look};
use crystal_cartan::Arrow;
use tensor_words::Space;

/// A place from which one caller works on a growing graph. It has a world, the caller's number, the front (the history
/// as far as the desk has seen it, always legal), the room for further adds and draws, a bond, which no call changes,
/// and the unpaid cells: those that it put in and has not paid for. No call takes memory.
pub trait Desk {
    type Bond;

    ghost standing: { Self → Standing Self.Bond };

    /// The space of the world.
    fn space(&self) -> &Space
        ensures space { result.now ≡ (standing self.now).world.space }
        ensures world { IsWorld (standing self.now).world }
        ensures legal { IsLegal (standing self.now).world (standing self.now).front };

    /// How many further adds and draws the desk has room for.
    fn room(&self) -> u64
        ensures { result ≡ (standing self.now).room };

    /// Puts in the root with this code.
    fn add(&mut self, code: u64) -> Added
        requires root { Contains (standing self.old).world.roots code }
        requires room { 0 < (standing self.old).room }
        ensures { Entering (standing self.old) (standing self.new) code Root result };

    /// The cell of the word with this code, `None` where it is no vertex.
    fn find(&mut self, code: u64) -> Option<u32>
        requires { code < size (standing self.old).world.space }
        ensures { Does (standing self.old) (standing self.new) 0 (find_acts code result) };

    /// Where an arrow from the vertex of this cell leads, if it is drawn.
    fn look(&mut self, cell: u32, arrow: Arrow) -> Look
        requires there { HasSome (state_of (standing self.old).front) cell }
        requires arrow { IsArrow (standing self.old).world.space arrow }
        ensures { Does (standing self.old) (standing self.new) 0 (look_acts cell arrow result) };

    /// Draws an arrow from the vertex of this cell, unless it is drawn. The word that its operator gives is put in
    /// first.
    fn draw(&mut self, cell: u32, arrow: Arrow) -> Draw
        requires there { HasSome (state_of (standing self.old).front) cell }
        requires arrow { IsArrow (standing self.old).world.space arrow }
        requires room { 0 < (standing self.old).room }
        ensures { Drawing (standing self.old) (standing self.new) cell arrow result };

    /// The code of the vertex of this cell.
    fn word(&mut self, cell: u32) -> u64
        requires { HasSome (state_of (standing self.old).front) cell }
        ensures goes { Goes (standing self.old) (standing self.new) 0 [] }
        ensures value { HasVertex (state_of (standing self.new).front) cell result };

    /// Pays for the vertex of an unpaid cell, all of whose arrows are drawn.
    fn pay(&mut self, cell: u32)
        requires unpaid { Contains (standing self.old).unpaid cell }
        requires whole { IsWhole (standing self.old).world (state_of (standing self.old).front) cell }
        ensures { Does (standing self.old) (standing self.new) 0 (Settled (Some cell) ∷ []) };

    /// The number of debts: 0 only where the graph is closed. A desk that is alone and has no unpaid cell is told 0.
    fn tally(&mut self) -> u64
        ensures does { Does (standing self.old) (standing self.new) 0 (Tally result ∷ []) }
        ensures settled { (standing self.old).alone ≡ true → (standing self.old).unpaid ≡ [] → result ≡ 0 };
}
