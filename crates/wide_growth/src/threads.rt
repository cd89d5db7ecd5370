//! Growers side by side.
ghost use Rattle.std.specs.Prelude.{◌≡◌, ℕ, ◌<◌, length, slice_index_or, All, IfOk, Result};
ghost use Rattle.wide_growth.specs.declared.drawing.Stop.{Stop as StopType};
ghost use Rattle.wide_growth.specs.declared.work.Job.{Job as JobType};
ghost use Rattle.wide_growth.specs.declared.work.Share.{Share as ShareType};
ghost use Rattle.wide_growth.specs.Rounds.{CanDraw, IsDone};

use crate::drawing::Stop;
use crate::work::{Job, Share, work};
use std::alloc::AllocError;
use std::thread;
use std::thread::Threads;
use wide_rule::WideGraph;
use wide_words::WideSteps;
use worker_gate::Gate;

/// Does each job on a thread of its own.
pub(crate) fn work_all<T: Threads + Sync, G: Gate>(
    rt: &T,
    graph: &WideGraph,
    steps: &WideSteps,
    gate: &G,
    jobs: Vec<Job>,
) -> Result<Vec<Result<Share, Stop>>, AllocError>
    requires can { All (λ j. CanDraw graph.now j.seat j.waiting.items) jobs.items }
    requires steps { steps.now ≡ graph.now.world.space }
    ensures count { IfOk result (λ done. length done.items ≡ length jobs.items) }
    ensures each { IfOk result (λ done. (k : ℕ) (j : JobType) (r : Result ShareType StopType) → k < length jobs.items → IsDone (slice_index_or jobs.items k j) (slice_index_or done.items k r)) }
{
    thread::map_vec(
        rt,
        jobs,
        &|job: Job| -> Result<Share, Stop>
            requires { CanDraw graph.now job.seat job.waiting.items × (steps.now ≡ graph.now.world.space) }
            ensures { IsDone job result }
        { work(graph, steps, gate, job) },
    )
}
