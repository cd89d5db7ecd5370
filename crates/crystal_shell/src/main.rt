//! The workbench for crystal graphs as a program: command words and a job in, the answer out.
//!
//! **Promises.** `run` (`running`, the module to read first, with specs/Runs.antt) writes the text that the command
//! words and the input call for, under the status that they call for; where a stream fails or memory is short its
//! status says so. `main` hands it the words, the standard streams and the three statistics.
//!
//! Its modules follow a run: `statistics` reads the command words, by the names of the statistics, `inputs` the job; `modes`
//! has a module for each mode, `statistics` what is fed and reported, `refusals` the answers to refused words and jobs,
//! `outcomes` what a run ends with. `laws` says what words and input determine of an answer.
//!
//! **Stands on** command_words and job_text for what is read, graph_runs for the run of a job, tableau_census,
//! crystal_match and wide_growth for the other modes, crystal_characters and ask_answers for statistics and asks, and answer_text, which
//! alone prints.
#![tactic(auto)]

mod inputs;
mod laws;
mod modes;
mod outcomes;
mod refusals;
mod running;
mod statistics;
#[cfg(test)]
mod tests;

use crystal_characters::{CharacterTally, EndTally, Statistic, StringTally};
use crystal_streams::{InputAdapter, OutputAdapter, Sink, Source};
use std::alloc::{AllocError, Global};
use std::io::ErrorKind;
use std::process::ExitCode;
use std::thread::Threads;
use std::{env, io};
use worker_gate::OpenGate;

/// The status where there is no memory.
const NO_MEMORY: u8 = 6;

/// Runs the program on standard input and standard output, and ends with the status of the run.
fn main(rt: HostRuntime) -> ExitCode {
    let Ok(words) = command_words(&rt) else {
        return ExitCode::from(NO_MEMORY);
    };
    let mut source = InputAdapter::new(rt.stdin());
    let mut sink = OutputAdapter::new(rt.stdout());
    match status(&rt, rt.alloc(), words.as_slice(), &mut source, &mut sink) {
        Ok(status) => ExitCode::from(status),
        Err(AllocError) => ExitCode::from(NO_MEMORY),
    }
}

/// The status of a run with the statistics `character`, `strings` and `ends`.
fn status<T: Threads + Sync, R: Source, W: Sink>(
    rt: &T,
    alloc: Global,
    words: &[String],
    source: &mut R,
    sink: &mut W,
) -> Result<u8, AllocError> {
    let mut stats: Vec<Box<dyn Statistic>> = Vec::new(alloc);
    stats.push(Box::new(alloc, CharacterTally::new(alloc))?)?;
    stats.push(Box::new(alloc, StringTally::new(alloc))?)?;
    stats.push(Box::new(alloc, EndTally::new(alloc))?)?;
    let outcome = running::run(rt, alloc, words, source, sink, stats, &OpenGate);
    Ok(outcome.status)
}

/// The command words without the program's name; none where one of them is no text.
fn command_words(rt: &HostRuntime) -> Result<Vec<String>, AllocError> {
    match env::args(rt) {
        Ok(args) => args.skip(1).collect(rt.alloc()),
        Err(fault) if fault.kind() == ErrorKind::OutOfMemory => Err(AllocError),
        Err(_) => Ok(Vec::new(rt.alloc())),
    }
}
