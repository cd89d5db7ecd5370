//! Closed graphs.
ghost use Rattle.std.specs.Prelude.{◌≡◌, All};
ghost use Rattle.graph_history.specs.History.{state_of, IsWhole, IsClosed};
ghost use Rattle.graph_rule.specs.Rule.{whole};
ghost use Rattle.graph_rule.specs.Values.{Belongs};

use crate::graph::Graph;
use crate::seat::Seat;
use graph_history::Front;
use std::marker::Model;
use std::snapshot::Snapshot;
use tensor_words::World;

/// A witness that a graph is closed: it keeps a world and a front, and from each vertex of the front's state all arrows
/// of the type are drawn. So the vertices are the words that are reached from the roots among them.
#[derive(Drop)]
pub struct Closed {
    world: Snapshot<World>,
    front: Front,
}

impl Model for Closed {
    ghost use Rattle.graph_history.specs.History.{state_of, IsClosed};
    ghost use Rattle.graph_rule.specs.Values.{ClosedValue};

    ghost Value = { ClosedValue };

    ghost view = { λ c. record { world = c.world.value; front = c.front } };

    ghost invariant = { λ c. IsClosed c.world.value (state_of c.front) };
}

impl Closed {
    /// The history that is closed.
    pub fn front(&self) -> &Front
        ensures front { result.now ≡ self.now.front }
        ensures closed { IsClosed self.now.world (state_of self.now.front) }
    {
        &self.front
    }
}

/// Settles the graph of a seat that has the whole stake, so that nobody else is there, and that has no unpaid cell, or
/// only such whose vertex has all its arrows. It takes no step.
pub fn settle(graph: &Graph, seat: &Seat) -> Closed
    requires belongs { Belongs seat.now graph.now }
    requires alone { seat.now.view.stake ≡ whole }
    requires pledge { seat.now.view.dues.pledge ≡ 0 }
    requires finished { All (IsWhole seat.now.view.world (state_of seat.now.view.front)) seat.now.view.dues.unpaid }
    ensures world { result.world ≡ graph.now.world }
    ensures front { result.front ≡ seat.now.view.front }
    ensures closed { IsClosed result.world (state_of result.front) }
{
    seat.reveal();
    Closed {
        world: Snapshot::of(graph.world()),
        front: seat.front(),
    }
}
