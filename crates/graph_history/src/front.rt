//! Histories as far as somebody has seen them.
ghost use Rattle.std.specs.Prelude.{◌≡◌, []};

use crate::view::View;
use atomic_table::Seat;
use std::marker::Model;
use std::snapshot::Snapshot;

/// A list of events. Contracts see the list, and a running program reads nothing from it.
#[derive(Drop)]
pub struct Front {
    seen: Option<Snapshot<Seat<(), View>>>,
}

impl Model for Front {
    ghost use Rattle.std.specs.Prelude.{List};
    ghost use Rattle.graph_history.specs.declared.event.Event.{Event};
    ghost use Rattle.graph_history.specs.Fronts.{front_of};

    ghost Value = { List Event };

    ghost view = { λ f. front_of f.seen };
}

impl Front {
    /// No event.
    pub fn empty() -> Front
        ensures { result ≡ [] }
    {
        Front { seen: None }
    }

    /// The events that a seat has seen.
    pub fn of(seat: &Seat<(), View>) -> Front
        ensures { result ≡ seat.now.me.0.front }
    {
        Front {
            seen: Some(Snapshot::of(seat)),
        }
    }
}
