//! The mode `grow`: the crystal of a job, what its sessions were told, statistics and asks.
ghost use Rattle.std.specs.Prelude.{◌≡◌, ◌≤◌, List, IfOk, map, length, All, Contains};
ghost use Rattle.command_words.specs.Judge.{AreChosen};
ghost use Rattle.job_text.specs.Jobs.{IsAsk, IsJob};
ghost use Rattle.answer_text.specs.Answers.{IsPrintableAnswer, IsPrintableWhole, answer_bytes};
ghost use Rattle.ask_answers.specs.Answers.{AreAnswers};
ghost use Rattle.crystal_characters.specs.Items.{items_of};
ghost use Rattle.crystal_shell.specs.Statistics.{AreFresh, AreReports, Reporter};
ghost use Rattle.crystal_shell.specs.Inputs.{IsLawful};
ghost use Rattle.crystal_shell.specs.Modes.Grow.{CallsForGraph};

use crate::inputs::Input;
use crate::outcomes::{Answered, Status};
use crate::refusals::refused_job;
use crate::statistics::reports;
use answer_text::{Answer, Whole};
use ask_answers::answers;
use canonical_graph::Finished;
use command_words::Places;
use crystal_characters::Statistic;
use crystal_streams::NoMemory;
use graph_runs::{Ran, run_beside};
use job_text::{Asks, Job};
use std::alloc::Global;
use std::thread::Threads;
use worker_gate::Gate;

/// The answer to an input, with so many growers, where the statistics at these places are chosen.
pub(crate) fn grow<T: Threads + Sync, G: Gate>(
    rt: &T,
    alloc: Global,
    input: Input,
    growers: u32,
    stats: &mut Vec<Box<dyn Statistic>>,
    places: &Places,
    gate: &G,
) -> Result<Answered, NoMemory>
    requires lawful { IsLawful input }
    requires growers { (1 ≤ growers) × (growers ≤ 16) }
    requires chosen { AreChosen (length stats.old.items) places.now }
    requires fresh { AreFresh (λ b. named b) (λ b. fed b) stats.old.items }
    ensures grows { let reporters : List Reporter = map (λ b. record { name = named b; reports = reported b }) stats.old.items in
        IfOk result (λ a. CallsForGraph reporters places.now input a.status a.front a.held (answer_bytes a.answer)) }
    ensures printable { IfOk result (λ a. IsPrintableAnswer a.answer) }
{
    match input {
        Input::Refused { line, fault } => Ok(refused_job(line, fault)),
        Input::Taken { job } => grow_job(rt, alloc, job, growers, stats, places, gate),
    }
}

/// The answer to a job.
fn grow_job<T: Threads + Sync, G: Gate>(
    rt: &T,
    alloc: Global,
    job: Job,
    growers: u32,
    stats: &mut Vec<Box<dyn Statistic>>,
    places: &Places,
    gate: &G,
) -> Result<Answered, NoMemory>
    requires job { IsJob job }
    requires growers { (1 ≤ growers) × (growers ≤ 16) }
    requires chosen { AreChosen (length stats.old.items) places.now }
    requires fresh { AreFresh (λ b. named b) (λ b. fed b) stats.old.items }
    ensures grows { let reporters : List Reporter = map (λ b. record { name = named b; reports = reported b }) stats.old.items in
        IfOk result (λ a. CallsForGraph reporters places.now (Input.Taken job) a.status a.front a.held (answer_bytes a.answer)) }
    ensures printable { IfOk result (λ a. IsPrintableAnswer a.answer) }
{
    let Job {
        world,
        starts,
        scripts,
        asks,
    } = job;
    let space = *world.space();
    let Ran {
        told,
        finished,
        front,
        held,
    } = run_beside(rt, alloc, world, &starts, &scripts, growers, gate)?;
    match finished {
        Some(graph) => {
            let whole = whole(alloc, graph, *starts.at(0), &asks, stats, places)?;
            Ok(Answered {
                status: Status::Done,
                front,
                held: Some(held),
                answer: Answer::Crystal {
                    space,
                    told,
                    graph: Some(whole),
                },
            })
        }
        None => Ok(Answered {
            status: Status::Full,
            front,
            held: Some(held),
            answer: Answer::Crystal {
                space,
                told,
                graph: None,
            },
        }),
    }
}

/// A finished graph with the reports of the statistics at these places and the answers to the asks.
fn whole(
    alloc: Global,
    graph: Finished,
    start: u64,
    asks: &Asks,
    stats: &mut Vec<Box<dyn Statistic>>,
    places: &Places,
) -> Result<Whole, NoMemory>
    requires start { Contains graph.codes start }
    requires asks { All (IsAsk graph.space) asks.now }
    requires chosen { AreChosen (length stats.old.items) places.now }
    requires fresh { AreFresh (λ b. named b) (λ b. fed b) stats.old.items }
    ensures graph { IfOk result (λ whole. whole.finished ≡ graph) }
    ensures reports { let reporters : List Reporter = map (λ b. record { name = named b; reports = reported b }) stats.old.items in
        IfOk result (λ whole. AreReports reporters places.now (items_of graph) whole.reports.items) }
    ensures answers { IfOk result (λ whole. AreAnswers graph start asks.now whole.asks.items) }
    ensures printable { IfOk result IsPrintableWhole }
{
    let reports = reports(alloc, stats, places, &graph)?;
    let asks = answers(alloc, &graph, start, asks)?;
    Ok(Whole {
        finished: graph,
        reports,
        asks,
    })
}
