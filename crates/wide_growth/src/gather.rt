//! How growers come back.
ghost use Rattle.std.specs.Prelude.{◌≡◌, ◌+◌, ◌≤◌, ◌<◌, length, IfOk, IfErr};
ghost use Rattle.wide_growth.specs.Drawing.{IsReady, IsStop};
ghost use Rattle.wide_growth.specs.Rounds.{AreBack, IsGathered, most_open};

use crate::drawing::{OpenVertex, Stop};
use crate::work::Share;
use std::alloc::Global;
use wide_rule::{WideGraph, WideSeat};

/// What came of a round: the vertices that were put in, and how many lowering arrows of the open ones lead to a word.
#[derive(Drop)]
pub(crate) struct Gathered {
    pub(crate) added: Vec<OpenVertex>,
    pub(crate) arrows: u64,
}

/// Takes in the seats of all growers. `_waiting` are the vertices that were dealt.
pub(crate) fn gather(
    alloc: Global,
    graph: &WideGraph,
    seat: &mut WideSeat,
    _waiting: &[OpenVertex],
    shares: Vec<Result<Share, Stop>>,
) -> Result<Gathered, Stop>
    requires ready { IsReady graph.now seat.old }
    requires few { length _waiting.now ≤ most_open }
    requires back { AreBack graph.now seat.old.view.front _waiting.now shares.items }
    ensures gathered { IfOk result (λ r. IsGathered graph.now seat.old seat.new _waiting.now (length shares.items) r.added.items r.arrows) }
    ensures stop { IfErr result (IsStop graph.now.world) }
{
    let _world = graph.world();
    seat.reveal();
    let mut shares = shares;
    let mut added = Vec::new(alloc);
    let mut arrows = 0;
    'shares: while !shares.is_empty() {
        match shares.remove(0) {
            Ok(share) => {
                let Ok(()) = added.extend_from_slice(share.added.as_slice()) else {
                    return Err(Stop::NoMemory);
                };
                seat.join(graph, share.seat);
                arrows += share.arrows;
            }
            Err(stop) => return Err(stop),
        }
    }
    Ok(Gathered { added, arrows })
}
