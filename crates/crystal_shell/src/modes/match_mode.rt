//! The mode `match`: the components of a job's first two starts compared.
ghost use Rattle.std.specs.Prelude.{◌≡◌, [], Some, None, IfOk};
ghost use Rattle.job_text.specs.Jobs.{IsJob};
ghost use Rattle.answer_text.specs.Answers.{IsPrintableAnswer, answer_bytes};
ghost use Rattle.crystal_shell.specs.Inputs.{IsLawful};
ghost use Rattle.crystal_shell.specs.Modes.Match.{CallsForMatch, relabel_of};

use crate::inputs::Input;
use crate::outcomes::{Answered, Status};
use crate::refusals::refused_job;
use answer_text::Answer;
use command_words::Relabelling;
use crystal_cartan::Cartan;
use crystal_match::{MatchFault, Relabel, Verdict, compare};
use crystal_streams::NoMemory;
use job_text::{Job, JobWhy};
use std::alloc::Global;

/// The answer to an input.
pub(crate) fn matched(
    alloc: Global,
    input: Input,
    relabelling: Relabelling,
) -> Result<Answered, NoMemory>
    requires { IsLawful input }
    ensures compares { IfOk result (λ a. CallsForMatch relabelling input a.status (answer_bytes a.answer)) }
    ensures printable { IfOk result (λ a. IsPrintableAnswer a.answer) }
    ensures unkept { IfOk result (λ a. (a.front ≡ []) × (a.held ≡ None)) }
{
    match input {
        Input::Refused { line, fault } => Ok(refused_job(line, fault)),
        Input::Taken { job } => match_job(alloc, &job, relabelling),
    }
}

/// The answer to a job.
fn match_job(alloc: Global, job: &Job, relabelling: Relabelling) -> Result<Answered, NoMemory>
    requires { IsJob job.now }
    ensures compares { IfOk result (λ a. CallsForMatch relabelling (Input.Taken job.now) a.status (answer_bytes a.answer)) }
    ensures printable { IfOk result (λ a. IsPrintableAnswer a.answer) }
    ensures unkept { IfOk result (λ a. (a.front ≡ []) × (a.held ≡ None)) }
{
    if job.starts.len() < 2 {
        return Ok(refused_job(0, JobWhy::FewStarts.number()));
    }
    let space = job.world.space();
    let cartan = space.cartan();
    let relabel = relabel_of(cartan, relabelling);
    let (first, second) = (*job.starts.at(0), *job.starts.at(1));
    match compare(alloc, space, first, second, &relabel, job.world.cells()) {
        Ok(verdict) => Ok(compared(cartan, verdict)),
        Err(MatchFault::TooMany) => Ok(Answered::without_history(
            Status::Full,
            Answer::Comparison {
                cartan,
                verdict: None,
            },
        )),
        Err(MatchFault::NoMemory) => Err(NoMemory),
    }
}

/// The answer with this verdict.
fn compared(cartan: Cartan, verdict: Verdict) -> Answered
    ensures status { result.status ≡ Status.Done }
    ensures unkept { (result.front ≡ []) × (result.held ≡ None) }
    ensures answer { result.answer ≡ Answer.Comparison cartan (Some verdict) }
{
    let verdict = Some(verdict);
    Answered::without_history(Status::Done, Answer::Comparison { cartan, verdict })
}

/// How the arrows are relabelled.
fn relabel_of(cartan: Cartan, relabelling: Relabelling) -> Relabel
    ensures { result ≡ relabel_of cartan relabelling }
{
    match relabelling {
        Relabelling::Same => Relabel::same(cartan),
        Relabelling::Star => Relabel::star(cartan),
    }
}
