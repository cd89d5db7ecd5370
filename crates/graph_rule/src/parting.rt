//! Seats that are split off, and seats that join.
ghost use Rattle.std.specs.Prelude.{◌≡◌, ◌<◌, ◌≤◌, [], All};
ghost use Rattle.graph_history.specs.History.{state_of, HasSome};
ghost use Rattle.graph_rule.specs.Rule.{IsPrefix, HasCalls, IsKnown};
ghost use Rattle.graph_rule.specs.Told.{Advances};
ghost use Rattle.graph_rule.specs.Parting.{cut_left, cut_right, hand_left, hand_right, joined};
ghost use Rattle.graph_rule.specs.Values.{Belongs};

use crate::graph::Graph;
use crate::plays::{Both, Meet, Part, Portion};
use crate::seat::Seat;
use std::marker::Brand;

impl Seat {
    /// A new seat with so many of this seat's unused numbers and this part of its stake. The least of the numbers is its
    /// caller number, and it begins with this seat's front and owes nothing. Nobody has called under any of its numbers.
    pub fn split(&mut self, graph: &Graph, numbers: u64, stake: u32) -> Seat
        requires belongs { Belongs self.old graph.now }
        requires numbers { (1 ≤ numbers) × (numbers ≤ self.old.view.left) }
        requires stake { (1 ≤ stake) × (stake < self.old.view.stake) }
        requires pledge { self.old.view.dues.pledge ≡ 0 }
        ensures table { (self.new.table ≡ self.old.table) × (result.table ≡ self.old.table) }
        ensures parent { self.new.view ≡ cut_left numbers stake self.old.view }
        ensures child { result.view ≡ cut_right numbers stake self.old.view }
        ensures known { IsKnown self.new.view × IsKnown result.view }
    {
        self.part(graph, numbers, stake, &[])
    }

    /// A new seat with one of this seat's unused numbers and this part of its stake. What this seat owes of these cells
    /// goes over to it, the unpaid ones as unpaid.
    pub fn hand(&mut self, graph: &Graph, stake: u32, cells: &[u32]) -> Seat
        requires belongs { Belongs self.old graph.now }
        requires numbers { 1 ≤ self.old.view.left }
        requires stake { (1 ≤ stake) × (stake < self.old.view.stake) }
        requires pledge { self.old.view.dues.pledge ≡ 0 }
        requires vertices { All (HasSome (state_of self.old.view.front)) cells.now }
        ensures table { (self.new.table ≡ self.old.table) × (result.table ≡ self.old.table) }
        ensures parent { self.new.view ≡ hand_left 1 stake cells.now self.old.view }
        ensures child { result.view ≡ hand_right 1 stake cells.now self.old.view }
        ensures known { IsKnown self.new.view × IsKnown result.view }
    {
        self.part(graph, 1, stake, cells)
    }

    fn part(&mut self, graph: &Graph, numbers: u64, stake: u32, cells: &[u32]) -> Seat
        requires belongs { Belongs self.old graph.now }
        requires numbers { (1 ≤ numbers) × (numbers ≤ self.old.view.left) }
        requires stake { (1 ≤ stake) × (stake < self.old.view.stake) }
        requires pledge { self.old.view.dues.pledge ≡ 0 }
        ensures table { (self.new.table ≡ self.old.table) × (result.table ≡ self.old.table) }
        ensures parent { self.new.view ≡ hand_left numbers stake cells.now self.old.view }
        ensures child { result.view ≡ hand_right numbers stake cells.now self.old.view }
        ensures known { IsKnown self.new.view × IsKnown result.view }
    {
        self.part_as::<Brand>(graph, numbers, stake, cells)
    }

    fn part_as<J: Portion>(
        &mut self,
        graph: &Graph,
        numbers: u64,
        stake: u32,
        _cells: &[u32],
    ) -> Seat
        requires asked { (J.numbers ≡ numbers) × (J.stake ≡ stake) × (J.cells ≡ _cells.now) }
        requires belongs { Belongs self.old graph.now }
        requires numbers { (1 ≤ numbers) × (numbers ≤ self.old.view.left) }
        requires stake { (1 ≤ stake) × (stake < self.old.view.stake) }
        requires pledge { self.old.view.dues.pledge ≡ 0 }
        ensures table { (self.new.table ≡ self.old.table) × (result.table ≡ self.old.table) }
        ensures parent { self.new.view ≡ hand_left numbers stake _cells.now self.old.view }
        ensures child { result.view ≡ hand_right numbers stake _cells.now self.old.view }
        ensures known { IsKnown self.new.view × IsKnown result.view }
    {
        let token = graph.board.shared.split_seat::<Part<J>>(&mut self.token);
        let number = self.next;
        let stake = u64::from(stake);
        self.next += numbers;
        self.left -= numbers;
        self.stake -= stake;
        Seat {
            token,
            number,
            next: number + 1,
            left: numbers - 1,
            stake,
        }
    }

    /// Takes another seat in. The front then begins with both fronts and has all calls of both and of the numbers that
    /// they keep; the other's number is kept, and what both owe is owed here. The other's unused numbers are lost.
    pub fn join(&mut self, graph: &Graph, other: Seat)
        requires belongs { Belongs self.old graph.now }
        requires other_belongs { Belongs other graph.now }
        requires pledge { self.old.view.dues.pledge ≡ 0 }
        requires other_pledge { other.view.dues.pledge ≡ 0 }
        ensures table { self.new.table ≡ self.old.table }
        ensures view { Advances (joined self.old.view other.view) self.new.view [] (joined self.old.view other.view).dues }
        ensures front { IsPrefix self.old.view.front self.new.view.front × IsPrefix other.view.front self.new.view.front }
        ensures calls { HasCalls self.old.view self.new.view.front × HasCalls other.view self.new.view.front }
    {
        let Seat {
            token,
            number: _,
            next: _,
            left: _,
            stake,
        } = other;
        let shared = &graph.board.shared;
        shared.join_seat::<Both>(&mut self.token, token);
        let _found = shared.load::<Meet>(&mut self.token, 0);
        self.stake += stake;
    }

    /// Takes in the whole history of this moment. No clause can say so: what is told is that the front goes on, and begins
    /// with each front that was joined in.
    pub fn meet(&mut self, graph: &Graph)
        requires belongs { Belongs self.old graph.now }
        requires pledge { self.old.view.dues.pledge ≡ 0 }
        ensures table { self.new.table ≡ self.old.table }
        ensures view { Advances self.old.view self.new.view [] self.old.view.dues }
    {
        let _found = graph.board.shared.load::<Meet>(&mut self.token, 0);
    }
}
