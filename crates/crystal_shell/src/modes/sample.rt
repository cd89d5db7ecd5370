//! The mode `sample`: the crystal of a sample job, of which the sizes are written.
ghost use Rattle.std.specs.Prelude.{◌≡◌, ◌≤◌, IfOk};
ghost use Rattle.answer_text.specs.Answers.{IsPrintableAnswer, answer_bytes};
ghost use Rattle.crystal_shell.specs.Modes.Sample.{CallsForSample, run_status};

use crate::outcomes::{Answered, Status};
use answer_text::Answer;
use canonical_graph::Finished;
use crystal_streams::NoMemory;
use graph_runs::{Ran, run_beside};
use job_text::Job;
use sample_jobs::{SAMPLE_COMMANDS, SAMPLE_SESSIONS, sample_job};
use std::alloc::Global;
use std::thread::Threads;
use worker_gate::Gate;

/// The answer to the number of a sample, with so many growers.
pub(crate) fn sample<T: Threads + Sync, G: Gate>(
    rt: &T,
    alloc: Global,
    growers: u32,
    number: u32,
    gate: &G,
) -> Result<Answered, NoMemory>
    requires { (1 ≤ growers) × (growers ≤ 16) }
    ensures samples { IfOk result (λ a. CallsForSample number a.status a.front a.held (answer_bytes a.answer)) }
    ensures printable { IfOk result (λ a. IsPrintableAnswer a.answer) }
{
    let job = sample_job(alloc, number)?;
    let Job {
        world,
        starts,
        scripts,
        asks: _asks,
    } = job;
    let cartan = world.space().cartan();
    let Ran {
        told: _told,
        finished,
        front,
        held,
    } = run_beside(rt, alloc, world, &starts, &scripts, growers, gate)?;
    Ok(Answered {
        status: status_of(&finished),
        front,
        held: Some(held),
        answer: Answer::Sample {
            number,
            cartan,
            sessions: SAMPLE_SESSIONS,
            commands: SAMPLE_SESSIONS * SAMPLE_COMMANDS,
            graph: finished,
        },
    })
}

/// The status of a run that ended in this graph, or in none.
fn status_of(finished: &Option<Finished>) -> Status
    ensures { result ≡ run_status finished.now }
{
    match finished {
        Some(_) => Status::Done,
        None => Status::Full,
    }
}
