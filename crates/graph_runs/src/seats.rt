//! The seats of the sessions.
ghost use Rattle.std.specs.Prelude.{◌≡◌, ◌<◌, ◌≤◌, IfOk};
ghost use Rattle.graph_rule.specs.Values.{Belongs};
ghost use Rattle.graph_runs.specs.Seating.{IsSeated};

use crystal_streams::NoMemory;
use graph_rule::{Graph, Seat};
use std::alloc::Global;

/// A session before its script: its seat, and the place of its script among those of the job.
#[derive(Drop)]
pub(crate) struct Session {
    pub(crate) seat: Seat,
    pub(crate) place: usize,
}

/// Gives so many sessions a seat each, with one number and one part of the stake. The numbers rise by one from the least
/// unused one.
pub(crate) fn seat_all(
    alloc: Global,
    graph: &Graph,
    seat: &mut Seat,
    count: usize,
) -> Result<Vec<Session>, NoMemory>
    requires belongs { Belongs seat.old graph.now }
    requires pledge { seat.old.view.dues.pledge ≡ 0 }
    requires stake { count < seat.old.view.stake }
    requires numbers { count ≤ seat.old.view.left }
    ensures { IfOk result (λ sessions. IsSeated graph.now seat.old seat.new count sessions.items) }
{
    let mut sessions = Vec::with_capacity(alloc, count)?;
    'places: for place in 0..count {
        let own = seat.split(graph, 1, 1);
        sessions.push_reserved(Session { seat: own, place });
    }
    Ok(sessions)
}
