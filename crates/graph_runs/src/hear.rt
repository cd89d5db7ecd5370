//! The seats of the sessions come back.
ghost use Rattle.std.specs.Prelude.{◌≡◌, IfOk, length};
ghost use Rattle.graph_rule.specs.Values.{Belongs};
ghost use Rattle.graph_runs.specs.Hearing.{AreWaiting, AreHeard};

use crate::serve::Served;
use crystal_streams::NoMemory;
use graph_rule::{Graph, Seat};
use job_text::Scripts;
use session_desk::Replies;
use std::alloc::Global;

/// What all sessions brought back: their replies in order, and the cells that they put in.
#[derive(Drop)]
pub(crate) struct Brought {
    pub(crate) told: Vec<Replies>,
    pub(crate) cells: Vec<u32>,
}

/// Takes in the seats of the sessions, and gives their replies in order.
pub(crate) fn hear(
    alloc: Global,
    graph: &Graph,
    seat: &mut Seat,
    scripts: &Scripts,
    back: Vec<Result<Served, NoMemory>>,
) -> Result<Brought, NoMemory>
    requires belongs { Belongs seat.old graph.now }
    requires pledge { seat.old.view.dues.pledge ≡ 0 }
    requires many { length back.items ≡ length scripts.now }
    requires waiting { AreWaiting graph.now scripts.now back.items }
    ensures { IfOk result (λ heard. AreHeard graph.now scripts.now seat.old seat.new heard.told.items heard.cells.items) }
{
    let mut back = back;
    let mut told = Vec::with_capacity(alloc, scripts.len())?;
    let mut cells = Vec::new(alloc);
    'sessions: while let Some(one) = back.pop() {
        let served = one?;
        let Served {
            seat: other,
            cells: more,
            replies,
        } = served;
        cells.extend_from_slice(more.as_slice())?;
        seat.join(graph, other);
        told.push(replies)?;
    }
    told.reverse();
    Ok(Brought { told, cells })
}
