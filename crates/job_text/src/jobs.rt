//! Jobs, and the reader of their text.
ghost use Rattle.std.specs.Prelude.{◌≡◌, ◌≤◌, IfOk, length};
ghost use Rattle.text_pieces.specs.Pieces.{words};
ghost use Rattle.job_text.specs.Jobs.{IsJob, most_job_bytes};
ghost use Rattle.job_text.specs.Outcomes.{Gives, GivesAtLine};
ghost use Rattle.job_text.specs.Judge as spec;

use crate::commands::{Asks, Scripts};
use crate::drafts::{Known, Stage};
use crate::faults::{JobFault, JobWhy, Stop};
use crate::lines::line_made;
use std::alloc::Global;
use tensor_words::{Codes, World};
use text_pieces::cut;

/// The most bytes of a job's text.
pub const MOST_JOB_BYTES: usize = 1_048_576;

/// The number of cells of a job that gives none.
pub(crate) const DEFAULT_CELLS: u32 = 65_536;

/// A job that was read.
#[derive(Debug, Drop)]
pub struct Job {
    /// The space, the number of cells, and the roots: the starts and what the `add` commands put in.
    pub world: World,
    /// The codes of the starts, in the order of the text. The first is the one that a shape gives, where there is one.
    pub starts: Codes,
    /// The scripts of the sessions.
    pub scripts: Scripts,
    /// The asks at the end.
    pub asks: Asks,
}

/// Reads a job of at most `MOST_JOB_BYTES` bytes, or tells the first line with a fault and its first fault. A job that
/// lacks its type, its space or a start has the fault `Missing` at the line after the last.
#[tactic(auto, unfolding(crate::specs::Judge::judge))]
pub fn read_job(alloc: Global, bytes: &[u8]) -> Result<Job, JobFault>
    requires { length bytes.now ≤ most_job_bytes }
    ensures told { GivesAtLine result (spec.judge bytes.now) }
    ensures job { IfOk result IsJob }
{
    let mut stage = Stage::Unread;
    let mut rest = bytes;
    let mut line = 1;
    'lines: loop {
        let (text, behind) = cut(rest, b'\n');
        let Some(next) = behind else {
            return tail_at(alloc, line, text, stage);
        };
        match line_at(alloc, line, text, stage) {
            Ok(after) => stage = after,
            Err(fault) => return Err(fault),
        }
        rest = next;
        line += 1;
    }
}

/// What a line with this number makes of a stage.
fn line_at(alloc: Global, line: u32, text: &[u8], stage: Stage) -> Result<Stage, JobFault>
    ensures { GivesAtLine result (spec.at_line line (spec.line_made text.now stage)) }
{
    match line_made(alloc, text, stage) {
        Ok(after) => Ok(after),
        Err(stop) => Err(stop.at_line(line)),
    }
}

/// What stands behind the last end of a line, with this number, makes of a stage.
fn tail_at(alloc: Global, line: u32, text: &[u8], stage: Stage) -> Result<Job, JobFault>
    ensures told { GivesAtLine result (spec.at_line line (spec.tail_judged text.now stage)) }
    ensures job { IfOk result IsJob }
{
    if !text.is_empty() {
        return Err(JobFault::At {
            line,
            why: JobWhy::BadByte,
        });
    }
    match at_end(alloc, stage) {
        Ok(job) => Ok(job),
        Err(stop) => Err(stop.at_line(line)),
    }
}

/// What a stage gives behind the last line.
#[tactic(auto, unfolding(crate::specs::Judge::at_end))]
fn at_end(alloc: Global, stage: Stage) -> Result<Job, Stop>
    ensures given { Gives result (spec.at_end stage) }
    ensures job { IfOk result IsJob }
{
    match stage {
        Stage::Unread => Err(Stop::Why(JobWhy::BadHeader)),
        Stage::Headed(progress) => finished(alloc, progress.known),
    }
}

/// What is known behind the last line gives.
fn finished(alloc: Global, known: Known) -> Result<Job, Stop>
    ensures given { Gives result (spec.finished known) }
    ensures job { IfOk result IsJob }
{
    match known {
        Known::Begun(draft) => {
            if !draft.has_start() {
                return Err(Stop::Why(JobWhy::Missing));
            }
            Ok(draft.job(alloc)?)
        }
        _ => Err(Stop::Why(JobWhy::Missing)),
    }
}
