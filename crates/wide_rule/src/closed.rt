//! Closed wide graphs.
ghost use Rattle.std.specs.Prelude.{ℕ, ◌≡◌, All, None, sum_by};
ghost use Rattle.graph_history.specs.History.{state_of, IsWhole, IsClosed};
ghost use Rattle.wide_words.specs.WideHistory.{flat};
ghost use Rattle.wide_rule.specs.Rule.{whole, cells_of};
ghost use Rattle.wide_rule.specs.Values.{Belongs};

use crate::front::WideFront;
use crate::graph::WideGraph;
use crate::seat::WideSeat;
use std::marker::Model;
use std::snapshot::Snapshot;
use wide_words::WideWorld;

/// A witness that a wide graph is closed: it keeps a world and a front, and from each vertex of the front's state all
/// arrows of the type are drawn. So the vertices are the words that are reached from the roots among them.
#[derive(Drop)]
pub struct WideClosed {
    world: Snapshot<WideWorld>,
    front: WideFront,
}

impl Model for WideClosed {
    ghost use Rattle.graph_history.specs.History.{state_of, IsClosed};
    ghost use Rattle.wide_words.specs.WideHistory.{flat};
    ghost use Rattle.wide_rule.specs.Values.{WideClosedValue};

    ghost Value = { WideClosedValue };

    ghost view = { λ c. record { world = c.world.value; front = c.front } };

    ghost invariant = { λ c. IsClosed (flat c.world.value) (state_of c.front) };
}

impl WideClosed {
    /// The history that is closed.
    pub fn front(&self) -> &WideFront
        ensures front { result.now ≡ self.now.front }
        ensures closed { IsClosed (flat self.now.world) (state_of self.now.front) }
    {
        &self.front
    }
}

/// Settles the graph of a seat that has the whole stake, so that nobody else is there, and of whose owed cells each has
/// all its arrows. It takes no step. What the seat owes are the cells of the vertices: however cells are weighed, both
/// weigh the same.
pub fn settle(graph: &WideGraph, seat: &WideSeat) -> WideClosed
    requires belongs { Belongs seat.now graph.now }
    requires alone { seat.now.view.stake ≡ whole }
    requires idle { seat.now.view.dues.pending ≡ None }
    requires finished { All (IsWhole (flat seat.now.view.world) (state_of seat.now.view.front)) seat.now.view.dues.owed }
    ensures world { result.world ≡ graph.now.world }
    ensures front { result.front ≡ seat.now.view.front }
    ensures closed { IsClosed (flat result.world) (state_of result.front) }
    ensures counted { (weigh : ℕ → ℕ) → sum_by weigh seat.now.view.dues.owed ≡ sum_by weigh (cells_of (state_of result.front)) }
{
    seat.reveal();
    WideClosed {
        world: Snapshot::of(graph.world()),
        front: seat.front(),
    }
}
