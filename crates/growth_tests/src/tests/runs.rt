//! Runs of jobs in A_1 over words of two letters: `1 1` reaches three words, `2 1` is alone.
ghost use Rattle.std.specs.Prelude.{◌≤◌};

use super::barriers::Barrier;
use crystal_streams::NoMemory;
use graph_runs::{Ran, run_beside};
use job_text::{Job, MOST_JOB_BYTES, read_job};
use session_desk::{Replies, Reply};
use std::alloc::Global;
use std::thread::Threads;
use worker_gate::{Gate, OpenGate};

/// What came of a job; `None` where it is refused.
fn run_text<R: Threads + Sync, G: Gate>(
    rt: &R,
    alloc: Global,
    text: &str,
    growers: u32,
    gate: &G,
) -> Result<Option<Ran>, NoMemory>
    requires { (1 ≤ growers) × (growers ≤ 16) }
{
    if text.len() > MOST_JOB_BYTES {
        return Ok(None);
    }
    match read_job(alloc, text.as_bytes()) {
        Ok(
            Job {
                world,
                starts,
                scripts,
                asks: _,
            },
        ) => Ok(Some(run_beside(rt, alloc, world, &starts, &scripts, growers, gate)?)),
        Err(_) => Ok(None),
    }
}

/// How many sessions had just this reply.
fn times(told: &[Replies], reply: Reply) -> usize {
    told.iter()
        .filter(|replies| replies.as_slice() == [reply].as_slice())
        .count()
}

#[test]
fn a_session_adds_what_the_growth_does_not(rt: HostRuntime) -> Result<(), NoMemory> {
    let text = "crystal-job 1\ntype A 1\nspace v v\nstart 1 1\ncells 4\nsession\nadd 2 1\n";
    for growers in 1..17 {
        let ran = run_text(&rt, rt.alloc(), text, growers, &OpenGate)?;
        let ran = ran.expect(&rt, "the job is accepted");
        assert_eq!(rt; ran.told.len(), 1);
        assert_eq!(rt; times(ran.told.as_slice(), Reply::New), 1);
        let finished = ran.finished.expect(&rt, "there are cells for all words");
        assert_eq!(rt; finished.len(), 4);
        assert_eq!(rt; finished.arrows(), 2);
    }
    Ok(())
}

#[test]
fn no_cell_for_one_word(rt: HostRuntime) -> Result<(), NoMemory> {
    let text = "crystal-job 1\ntype A 1\nspace v v\nstart 1 1\ncells 3\nsession\nadd 2 1\n";
    for growers in 1..17 {
        let ran = run_text(&rt, rt.alloc(), text, growers, &OpenGate)?;
        let ran = ran.expect(&rt, "the job is accepted");
        assert!(rt; ran.finished.is_none());
        let told = ran.told.as_slice();
        assert!(rt; times(told, Reply::New) == 1 || times(told, Reply::Full) == 1);
    }
    Ok(())
}

#[test]
fn sixteen_sessions_add_one_word(rt: HostRuntime) -> Result<(), NoMemory> {
    let text = "crystal-job 1\ntype A 1\nspace v v\nstart 1 1\ncells 4\n\
        session\nadd 2 1\nsession\nadd 2 1\nsession\nadd 2 1\nsession\nadd 2 1\n\
        session\nadd 2 1\nsession\nadd 2 1\nsession\nadd 2 1\nsession\nadd 2 1\n\
        session\nadd 2 1\nsession\nadd 2 1\nsession\nadd 2 1\nsession\nadd 2 1\n\
        session\nadd 2 1\nsession\nadd 2 1\nsession\nadd 2 1\nsession\nadd 2 1\n";
    let ran = run_text(&rt, rt.alloc(), text, 4, &OpenGate)?;
    let ran = ran.expect(&rt, "the job is accepted");
    assert_eq!(rt; times(ran.told.as_slice(), Reply::New), 1);
    assert_eq!(rt; times(ran.told.as_slice(), Reply::Old), 15);
    Ok(())
}

#[test]
fn a_session_runs_beside_a_grower(rt: HostRuntime) -> Result<(), NoMemory> {
    // The grower, and the session 1, which comes behind 16 growers.
    let both = (1 << 0) | (1 << 17);
    let gate = Barrier::of(both);
    let text = "crystal-job 1\ntype A 1\nspace v v\nstart 1 1\nsession\nadd 1 1\n";
    let ran = run_text(&rt, rt.alloc(), text, 1, &gate)?;
    let ran = ran.expect(&rt, "the job is accepted");
    assert_eq!(rt; times(ran.told.as_slice(), Reply::Old), 1);
    assert_eq!(rt; gate.counts(), (0, both));
    Ok(())
}
