//! How open vertices are dealt to growers.
ghost use Rattle.std.specs.Prelude.{◌≡◌, ◌<◌, ◌≤◌, true, IfOk};
ghost use Rattle.wide_growth.specs.Rounds.{CanDraw, IsDealt};

use crate::drawing::OpenVertex;
use crate::work::Job;
use crystal_streams::NoMemory;
use std::alloc::Global;
use wide_rule::{WideGraph, WideSeat};

/// Makes a job for each grower: a seat of its own, and a part of the open vertices, in order. All parts but the last ones
/// are of one size.
pub(crate) fn deal(
    alloc: Global,
    graph: &WideGraph,
    seat: &mut WideSeat,
    waiting: &[OpenVertex],
    growers: u32,
    turn: u64,
) -> Result<Vec<Job>, NoMemory>
    requires can { CanDraw graph.now seat.old waiting.now }
    requires growers { (1 ≤ growers) × (growers ≤ 16) }
    requires stake { growers < seat.old.view.stake }
    requires numbers { growers ≤ seat.old.view.left }
    ensures { IfOk result (λ jobs. IsDealt graph.now seat.old seat.new waiting.now growers jobs.items) }
{
    seat.reveal();
    let size = waiting.len().div_ceil(growers as usize);
    let mut jobs = Vec::with_capacity(alloc, growers as usize)?;
    let mut rest = waiting;
    'workers: for worker in 0..growers {
        let (part, later) = rest.split_at(part_size(worker + 1 == growers, size, rest.len()));
        let waiting = Vec::from_slice(alloc, part)?;
        let seat = seat.split(graph, 1, 1);
        jobs.push_reserved(Job {
            alloc,
            worker,
            turn,
            seat,
            waiting,
        });
        rest = later;
    }
    Ok(jobs)
}

/// How many of the vertices that are left the next grower gets: the last one gets them all.
fn part_size(last: bool, size: usize, left: usize) -> usize
    ensures within { result ≤ left }
    ensures all { last ≡ true → result ≡ left }
{
    if last { left } else { usize::min(size, left) }
}
