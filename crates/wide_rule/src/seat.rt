//! Seats at the table of a wide graph.
ghost use Rattle.std.specs.Prelude.{◌≡◌, ◌-◌, ◌^◌, []};
ghost use Rattle.wide_rule.specs.Rule.{whole, IsKnown, IsComplete};

use crate::front::WideFront;
use crate::rule::WideView;
use atomic_table::Seat;
use std::marker::Model;

/// The right of one caller to take steps on a wide graph, and what the caller knows of it. It has a caller number, a range
/// of unused numbers to give to seats that are split off, and a part of the stake: the stakes of all seats of a graph are
/// together 32, so that who has the whole knows that nobody else is there. A seat that is dropped takes its stake with it.
#[derive(Drop)]
pub struct WideSeat {
    pub(crate) token: Seat<(), WideView>,
    pub(crate) number: u64,
    pub(crate) next: u64,
    pub(crate) left: u64,
    pub(crate) stake: u32,
}

impl Model for WideSeat {
    ghost use Rattle.std.specs.Prelude.{◌≡◌, []};
    ghost use Rattle.wide_rule.specs.Rule.{IsKnown, IsComplete};
    ghost use Rattle.wide_rule.specs.Values.{WideSeatValue};

    ghost Value = { WideSeatValue };

    ghost view = { λ s. record { table = s.token.table_id; view = s.token.me.0 } };

    ghost invariant = { λ s. (s.token.me.1 ≡ []) × (s.token.me.0.number ≡ s.number) × (s.token.me.0.next ≡ s.next) × (s.token.me.0.left ≡ s.left) × (s.token.me.0.stake ≡ s.stake) × IsKnown s.token.me.0 × IsComplete s.token.me.0 };
}

impl WideSeat {
    /// The caller number of its events.
    pub fn number(&self) -> u64
        ensures { result ≡ self.now.view.number }
    {
        self.number
    }

    /// How many numbers it can give to seats that are split off.
    pub fn numbers_left(&self) -> u64
        ensures { result ≡ self.now.view.left }
    {
        self.left
    }

    /// Its part of the stake, 1 to 32.
    pub fn stake(&self) -> u32
        ensures stake { result ≡ self.now.view.stake }
        ensures known { IsKnown self.now.view }
        ensures complete { IsComplete self.now.view }
    {
        self.stake
    }

    /// Gives a caller's proof what holds of every seat: it knows a legal history, and with the whole stake all of it. When a
    /// program runs this does nothing. A proof has the invariant of a value only from a call on it, so this is that call.
    pub fn reveal(&self)
        ensures known { IsKnown self.now.view }
        ensures complete { IsComplete self.now.view }
    {
        let _stake = self.stake;
    }

    /// The history as far as it has seen it.
    pub fn front(&self) -> WideFront
        ensures front { result ≡ self.now.view.front }
        ensures known { IsKnown self.now.view }
    {
        WideFront::of(&self.token)
    }

    /// The first seat of a table.
    pub(crate) fn first(token: Seat<(), WideView>) -> WideSeat
        requires own { token.me.1 ≡ [] }
        requires known { IsKnown token.me.0 }
        requires complete { IsComplete token.me.0 }
        requires parts { (token.me.0.number ≡ 0) × (token.me.0.next ≡ 1) × (token.me.0.left ≡ 2 ^ 32 - 1) × (token.me.0.stake ≡ whole) }
        ensures table { result.table ≡ token.table_id }
        ensures view { result.view ≡ token.me.0 }
    {
        WideSeat {
            token,
            number: 0,
            next: 1,
            left: (1 << 32) - 1,
            stake: 32,
        }
    }
}
