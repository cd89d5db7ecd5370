//! Histories of a wide graph as far as a seat has seen them.
ghost use Rattle.std.specs.Prelude.{◌≡◌};

use crate::rule::WideView;
use atomic_table::Seat;
use std::marker::Model;
use std::snapshot::Snapshot;

/// A list of events, whose codes are the numbers of pairs. Contracts see the list, and a running program reads nothing
/// from it.
#[derive(Drop)]
pub struct WideFront {
    seen: Snapshot<Seat<(), WideView>>,
}

impl Model for WideFront {
    ghost use Rattle.std.specs.Prelude.{List};
    ghost use Rattle.graph_history.specs.declared.event.Event.{Event};
    ghost use Rattle.wide_rule.specs.Fronts.{front_of};

    ghost Value = { List Event };

    ghost view = { λ f. front_of f.seen };
}

impl WideFront {
    /// The events that a seat has seen.
    pub(crate) fn of(seat: &Seat<(), WideView>) -> WideFront
        ensures { result ≡ seat.now.me.0.front }
    {
        WideFront {
            seen: Snapshot::of(seat),
        }
    }
}
