//! From command words and bytes to bytes: the call `run`.
ghost use Rattle.std.specs.Prelude.{◌≡◌, ◌≤◌, ◌⊎◌, ℕ, List, [], None, Ok, IfOk, IsOk, IsErrOf, length, map, string_bytes, take};
ghost use Rattle.std.specs.Io.KnownBytes.{Appends};
ghost use Rattle.crystal_streams.specs.Faults.{Rose};
ghost use Rattle.crystal_shell.specs.Statistics.{AreFresh, Reporter, names_of};
ghost use Rattle.answer_text.specs.Answers.{IsPrintableAnswer, answer_bytes};
ghost use Rattle.command_words.specs.Judge.{FitsNames, judge_words};
ghost use Rattle.crystal_shell.specs.Statuses.{status_number, no_answer_number};
ghost use Rattle.crystal_shell.specs.Runs.{Called, HasRead, IsRun, IsWritten};

use crate::inputs::read_input;
use crate::modes::census::count;
use crate::modes::grow::grow;
use crate::modes::match_mode::matched;
use crate::modes::sample::sample;
use crate::modes::wide::widen;
use crate::outcomes::{Answered, NoAnswer, Outcome};
use crate::refusals::refused_words;
use crate::statistics::read_settings;
use answer_text::{Page, print_answer};
use command_words::Settings;
use crystal_characters::Statistic;
use crystal_streams::{Sink, Source, WriteFault};
use graph_history::Front;
use std::alloc::Global;
use std::thread::Threads;
use worker_gate::Gate;

/// The status where a write failed.
const WRITE_FAULT: u8 = 5;

/// Reads command words and a job, and writes the answer. All memory is taken before the first write.
///
/// `words` are the command words without the program's name. Under `grow` and `sample` the sessions of the job run beside each other
/// and beside the growth, on threads of their own, over one graph; its history is in the outcome, and so is the graph with
/// the one seat that is left. Each grower and each session passes the gate before its turns. Of the statistics those whose
/// names the words have are fed every vertex once, in ascending rank, and reported; each has been fed nothing before, and
/// has a name of at most 64 bytes. All of them are dropped.
pub fn run<T: Threads + Sync, R: Source, W: Sink, G: Gate>(
    rt: &T,
    alloc: Global,
    words: &[String],
    source: &mut R,
    sink: &mut W,
    stats: Vec<Box<dyn Statistic>>,
    gate: &G,
) -> Outcome
    requires { AreFresh (λ b. named b) (λ b. fed b) stats.items }
    ensures { let reporters : List Reporter = map (λ b. record { name = named b; reports = reported b }) stats.items in
        IsRun (λ s. R.left s) (λ s. R.faults s) (λ s. W.taken s) (λ s. W.faults s) reporters (map string_bytes words.now)
        source.old source.new sink.old sink.new result }
{
    let Ok(page) = Page::new(alloc) else {
        return without_answer(NoAnswer::NoMemory);
    };
    let mut stats = stats;
    match answer(rt, alloc, words, source, &mut stats, gate) {
        Ok(answered) => write_answer(sink, page, answered),
        Err(why) => without_answer(why),
    }
}

/// The outcome where there is no answer.
fn without_answer(why: NoAnswer) -> Outcome
    ensures status { result.status ≡ no_answer_number why }
    ensures front { result.front ≡ [] }
    ensures held { result.held ≡ None }
{
    Outcome {
        status: why.number(),
        front: Front::empty(),
        held: None,
    }
}

/// Writes an answer by way of an empty page. No memory is taken.
fn write_answer<W: Sink>(sink: &mut W, page: Page, answered: Answered) -> Outcome
    requires empty { page ≡ [] }
    requires printable { IsPrintableAnswer answered.answer }
    ensures front { result.front ≡ answered.front }
    ensures held { result.held ≡ answered.held }
    ensures written { IsWritten (W.taken sink.old) (W.taken sink.new) (W.faults sink.old) (W.faults sink.new)
        answered.status (answer_bytes answered.answer) result.status }
    ensures later { W.faults sink.old ≤ W.faults sink.new }
{
    let Answered {
        status,
        front,
        held,
        answer,
    } = answered;
    match print_answer(sink, page, &answer) {
        Ok(()) => Outcome {
            status: status.number(),
            front,
            held,
        },
        Err(WriteFault) => Outcome {
            status: WRITE_FAULT,
            front,
            held,
        },
    }
}

/// The answer that the command words and the source call for.
fn answer<T: Threads + Sync, R: Source, G: Gate>(
    rt: &T,
    alloc: Global,
    words: &[String],
    source: &mut R,
    stats: &mut Vec<Box<dyn Statistic>>,
    gate: &G,
) -> Result<Answered, NoAnswer>
    requires { AreFresh (λ b. named b) (λ b. fed b) stats.old.items }
    ensures called { let reporters : List Reporter = map (λ b. record { name = named b; reports = reported b }) stats.old.items in
        IfOk result (λ a. Called reporters (judge_words (map string_bytes words.now) (names_of reporters)) (R.left source.old)
        a.status a.front a.held (answer_bytes a.answer)) }
    ensures printable { IfOk result (λ a. IsPrintableAnswer a.answer) }
    ensures read { let reporters : List Reporter = map (λ b. record { name = named b; reports = reported b }) stats.old.items in
        HasRead (λ s. R.left s) (λ s. R.faults s) (judge_words (map string_bytes words.now) (names_of reporters)) source.old source.new
        (IsOk result) (IsErrOf result NoAnswer.ReadFault) }
{
    match read_settings(alloc, words, stats.as_slice()) {
        Ok(settings) => answer_settings(rt, alloc, settings, source, stats, gate),
        Err(fault) => match fault.number() {
            Some(number) => Ok(refused_words(number)),
            None => Err(NoAnswer::NoMemory),
        },
    }
}

/// The answer that settings and the source call for: a line a mode.
fn answer_settings<T: Threads + Sync, R: Source, G: Gate>(
    rt: &T,
    alloc: Global,
    settings: Settings,
    source: &mut R,
    stats: &mut Vec<Box<dyn Statistic>>,
    gate: &G,
) -> Result<Answered, NoAnswer>
    requires fits { FitsNames (length stats.old.items) settings }
    requires fresh { AreFresh (λ b. named b) (λ b. fed b) stats.old.items }
    ensures called { let reporters : List Reporter = map (λ b. record { name = named b; reports = reported b }) stats.old.items in
        IfOk result (λ a. Called reporters (Ok settings) (R.left source.old) a.status a.front a.held (answer_bytes a.answer)) }
    ensures printable { IfOk result (λ a. IsPrintableAnswer a.answer) }
    ensures read { HasRead (λ s. R.left s) (λ s. R.faults s) (Ok settings) source.old source.new (IsOk result) (IsErrOf result NoAnswer.ReadFault) }
{
    match settings {
        Settings::Grow { growers, chosen } => {
            let input = read_input(alloc, source)?;
            Ok(grow(rt, alloc, input, growers, stats, &chosen, gate)?)
        }
        Settings::Sample { growers, number } => Ok(sample(rt, alloc, growers, number, gate)?),
        Settings::Census { shape } => Ok(count(alloc, shape)?),
        Settings::Match { relabelling } => {
            let input = read_input(alloc, source)?;
            Ok(matched(alloc, input, relabelling)?)
        }
        Settings::Wide { growers } => {
            let input = read_input(alloc, source)?;
            Ok(widen(rt, alloc, input, growers, gate)?)
        }
    }
}
