//! The mode `wide`: the words of two words of a job's space, one after the other, grown from its first start twice.
ghost use Rattle.std.specs.Prelude.{◌≡◌, ◌≤◌, ◌<◌, ◌^◌, [], None, IfOk};
ghost use Rattle.job_text.specs.Jobs.{IsJob};
ghost use Rattle.answer_text.specs.Answers.{IsPrintableAnswer, answer_bytes};
ghost use Rattle.crystal_shell.specs.Inputs.{IsLawful};
ghost use Rattle.crystal_shell.specs.Modes.Wide.{CallsForWide};

use crate::inputs::Input;
use crate::outcomes::{Answered, Status};
use crate::refusals::refused_job;
use answer_text::{Answer, Counts};
use crystal_streams::NoMemory;
use job_text::Job;
use std::alloc::Global;
use std::thread::Threads;
use wide_growth::{WideGrown, wide_grow};
use wide_words::{WideCode, WideSpace};
use worker_gate::Gate;

/// The answer to an input, with so many growers. Each of them passes the gate before its turns.
pub(crate) fn widen<T: Threads + Sync, G: Gate>(
    rt: &T,
    alloc: Global,
    input: Input,
    growers: u32,
    gate: &G,
) -> Result<Answered, NoMemory>
    requires lawful { IsLawful input }
    requires growers { (1 ≤ growers) × (growers ≤ 16) }
    ensures widens { IfOk result (λ a. CallsForWide input a.status (answer_bytes a.answer)) }
    ensures printable { IfOk result (λ a. IsPrintableAnswer a.answer) }
    ensures unkept { IfOk result (λ a. (a.front ≡ []) × (a.held ≡ None)) }
{
    match input {
        Input::Refused { line, fault } => Ok(refused_job(line, fault)),
        Input::Taken { job } => widen_job(rt, alloc, &job, growers, gate),
    }
}

/// The answer to a job.
fn widen_job<T: Threads + Sync, G: Gate>(
    rt: &T,
    alloc: Global,
    job: &Job,
    growers: u32,
    gate: &G,
) -> Result<Answered, NoMemory>
    requires job { IsJob job.now }
    requires growers { (1 ≤ growers) × (growers ≤ 16) }
    ensures widens { IfOk result (λ a. CallsForWide (Input.Taken job.now) a.status (answer_bytes a.answer)) }
    ensures printable { IfOk result (λ a. IsPrintableAnswer a.answer) }
    ensures unkept { IfOk result (λ a. (a.front ≡ []) × (a.held ≡ None)) }
{
    let half = *job.world.space();
    let cartan = half.cartan();
    let Ok(space) = WideSpace::new(half, half) else {
        unreachable!();
    };
    let start = *job.starts.at(0);
    let roots = [WideCode {
        high: start,
        low: start,
    }];
    match wide_grow(rt, alloc, &space, job.world.cells(), &roots, growers, gate)? {
        WideGrown::Closed { vertices, arrows } => {
            let counts = counts_of(vertices, arrows);
            Ok(Answered::without_history(
                Status::Done,
                Answer::Wide {
                    cartan,
                    counts: Some(counts),
                },
            ))
        }
        WideGrown::Full => Ok(Answered::without_history(
            Status::Full,
            Answer::Wide {
                cartan,
                counts: None,
            },
        )),
    }
}

/// The counts that are written.
fn counts_of(vertices: u32, arrows: u64) -> Counts
    ensures counts { result ≡ record { vertices = vertices; arrows = arrows } }
    ensures few { vertices < 2 ^ 32 }
{
    Counts { vertices, arrows }
}
