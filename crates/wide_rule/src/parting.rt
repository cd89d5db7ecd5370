//! Seats that are split off, and seats that join.
ghost use Rattle.std.specs.Prelude.{◌≡◌, ◌<◌, ◌≤◌, [], None};
ghost use Rattle.shared_seats.specs.Seats.{IsPrefix};
ghost use Rattle.wide_rule.specs.Rule.{IsKnown};
ghost use Rattle.wide_rule.specs.Told.{Advances};
ghost use Rattle.wide_rule.specs.Parting.{cut_left, cut_right, both_dues, joined, HasCalls};
ghost use Rattle.wide_rule.specs.Values.{Belongs};

use crate::graph::WideGraph;
use crate::plays::{Both, Meet, Part, Portion};
use crate::seat::WideSeat;
use std::marker::Brand;

impl WideSeat {
    /// A new seat with so many of this seat's unused numbers and this part of its stake. The least of the numbers is its
    /// caller number, it begins with this seat's front, and it has begun nothing. Nobody has called under any of its
    /// numbers.
    pub fn split(&mut self, graph: &WideGraph, numbers: u64, stake: u32) -> WideSeat
        requires belongs { Belongs self.old graph.now }
        requires numbers { (1 ≤ numbers) × (numbers ≤ self.old.view.left) }
        requires stake { (1 ≤ stake) × (stake < self.old.view.stake) }
        requires idle { self.old.view.dues.pending ≡ None }
        ensures table { (self.new.table ≡ self.old.table) × (result.table ≡ self.old.table) }
        ensures parent { self.new.view ≡ cut_left numbers stake self.old.view }
        ensures child { result.view ≡ cut_right numbers stake self.old.view }
        ensures known { IsKnown self.new.view × IsKnown result.view }
    {
        self.split_as::<Brand>(graph, numbers, stake)
    }

    fn split_as<J: Portion>(&mut self, graph: &WideGraph, numbers: u64, stake: u32) -> WideSeat
        requires asked { (J.numbers ≡ numbers) × (J.stake ≡ stake) }
        requires belongs { Belongs self.old graph.now }
        requires numbers { (1 ≤ numbers) × (numbers ≤ self.old.view.left) }
        requires stake { (1 ≤ stake) × (stake < self.old.view.stake) }
        ensures table { (self.new.table ≡ self.old.table) × (result.table ≡ self.old.table) }
        ensures parent { self.new.view ≡ cut_left numbers stake self.old.view }
        ensures child { result.view ≡ cut_right numbers stake self.old.view }
        ensures known { IsKnown self.new.view × IsKnown result.view }
    {
        let token = graph.board.shared.split_seat::<Part<J>>(&mut self.token);
        let number = self.next;
        self.next += numbers;
        self.left -= numbers;
        self.stake -= stake;
        WideSeat {
            token,
            number,
            next: number + 1,
            left: numbers - 1,
            stake,
        }
    }

    /// Takes another seat in. The front then begins with both fronts and has all calls of both and of the numbers that
    /// they keep; the other's number is kept, and what both owe and have seen is here. The other's unused numbers are
    /// lost.
    pub fn join(&mut self, graph: &WideGraph, other: WideSeat)
        requires belongs { Belongs self.old graph.now }
        requires other_belongs { Belongs other graph.now }
        requires idle { self.old.view.dues.pending ≡ None }
        requires other_idle { other.view.dues.pending ≡ None }
        ensures table { self.new.table ≡ self.old.table }
        ensures view { Advances (joined self.old.view other.view) self.new.view [] (both_dues self.old.view.dues other.view.dues) }
        ensures front { IsPrefix self.old.view.front self.new.view.front × IsPrefix other.view.front self.new.view.front }
        ensures calls { HasCalls self.old.view self.new.view.front × HasCalls other.view self.new.view.front }
    {
        let WideSeat {
            token,
            number: _,
            next: _,
            left: _,
            stake,
        } = other;
        let shared = &graph.board.shared;
        shared.join_seat::<Both>(&mut self.token, token);
        let _found = shared.load::<Meet>(&mut self.token, 0);
        self.stake += stake;
    }

    /// Takes in the whole history of this moment. No clause can say so: what is told is that the front goes on, and begins
    /// with each front that was joined in.
    pub fn meet(&mut self, graph: &WideGraph)
        requires belongs { Belongs self.old graph.now }
        requires idle { self.old.view.dues.pending ≡ None }
        ensures table { self.new.table ≡ self.old.table }
        ensures view { Advances self.old.view self.new.view [] self.old.view.dues }
    {
        let _found = graph.board.shared.load::<Meet>(&mut self.token, 0);
    }
}
