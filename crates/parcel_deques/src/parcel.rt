//! Parcels: cells with the seat that owes them.
ghost use Rattle.std.specs.Prelude.{◌≡◌, ℕ, ◌<◌, ◌≤◌, nat_eq, length, Contains};
ghost use Rattle.std.specs.List.{IsDistinct};
ghost use Rattle.graph_rule.specs.Parting.{hand_left};
ghost use Rattle.graph_rule.specs.Rule.{IsKnown};
ghost use Rattle.graph_rule.specs.Values.{GraphValue, Belongs};
ghost use Rattle.parcel_deques.specs.Parcels.{IsHanded, no_graph, tag_of, tagged};

use graph_rule::{Graph, Seat};
use list_facts::Listed;
use std::marker::{Brand, Model, PhantomData};

/// The graph that the parcels of a deque are for. Contracts alone speak of it: a call that has the graph passes `Brand`,
/// and its proof picks that graph.
pub trait Naming {
    ghost graph: { GraphValue };
}

impl Naming for Brand {
    ghost graph = { no_graph };
}

/// Who loaded a parcel, by number, and how many parcels were loaded there before.
#[derive(Clone, Copy)]
pub struct Tag {
    pub owner: u32,
    pub place: u64,
}

/// Cells in their order.
pub type Cells = Listed<u32>;

/// What contracts see of a parcel: its tag, its cells and the stake of its seat. No value of it is made.
pub struct Slip {
    pub tag: Tag,
    pub cells: Cells,
    pub stake: u32,
}

/// At most 64 cells, with a seat to which they were handed over and at which nothing was done yet. It begins with the tag
/// of bench 0 and place 0; loading gives it its own.
#[derive(Drop)]
pub struct Parcel<J: Naming> {
    tag: Tag,
    cells: Cells,
    seat: Seat,
    of: PhantomData<J>,
}

impl<J: Naming> Model for Parcel<J> {
    ghost use Rattle.parcel_deques.specs.Parcels.{IsHanded};
    ghost use Rattle.parcel_deques.specs.declared.parcel.Slip.{Slip};

    ghost Value = { Slip };

    ghost view = { λ p. record { tag = p.tag; cells = p.cells; stake = p.seat.view.stake } };

    ghost invariant = { λ p. IsHanded J.graph p.cells p.seat };
}

impl<J: Naming> Parcel<J> {
    /// Packs cells with the seat to which they were handed over. Takes no memory.
    pub fn new(seat: Seat, cells: Cells) -> Parcel<J>
        requires { IsHanded J.graph cells seat }
        ensures { result ≡ record { tag = tag_of 0 0; cells = cells; stake = seat.view.stake } }
    {
        Parcel {
            tag: Tag { owner: 0, place: 0 },
            cells,
            seat,
            of: PhantomData,
        }
    }

    /// Hands unpaid cells over to a new seat with this stake, and packs both. Takes no memory.
    pub fn hand(graph: &Graph, seat: &mut Seat, stake: u32, cells: Cells) -> Parcel<J>
        requires named { J.graph ≡ graph.now }
        requires belongs { Belongs seat.old graph.now }
        requires pledge { seat.old.view.dues.pledge ≡ 0 }
        requires numbers { 1 ≤ seat.old.view.left }
        requires stake { (1 ≤ stake) × (stake < seat.old.view.stake) }
        requires few { length cells ≤ 64 }
        requires once { IsDistinct nat_eq cells }
        requires unpaid { (c : ℕ) → Contains cells c → Contains seat.old.view.dues.unpaid c }
        ensures parcel { result ≡ record { tag = tag_of 0 0; cells = cells; stake = stake } }
        ensures table { seat.new.table ≡ seat.old.table }
        ensures seat { seat.new.view ≡ hand_left 1 stake cells seat.old.view }
        ensures known { IsKnown seat.new.view }
    {
        seat.reveal();
        let child = seat.hand(graph, stake, cells.as_slice());
        Parcel::new(child, cells)
    }

    /// Its seat and its cells. Takes no memory.
    pub fn into_parts(self) -> (Seat, Cells)
        ensures handed { IsHanded J.graph result.1 result.0 }
        ensures cells { result.1 ≡ self.cells }
        ensures stake { result.0.view.stake ≡ self.stake }
    {
        let Parcel {
            tag: _,
            cells,
            seat,
            of: _,
        } = self;
        (seat, cells)
    }

    /// Who loaded it, and at which place.
    pub fn tag(&self) -> Tag
        ensures { result ≡ self.now.tag }
    {
        self.tag
    }

    pub(crate) fn retag(&mut self, tag: Tag)
        ensures { self.new ≡ tagged tag self.old }
    {
        self.tag = tag;
    }
}
