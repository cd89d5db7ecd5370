//! What is read of a source.
ghost use Rattle.std.specs.Prelude.{◌≡◌, ◌≤◌, ◌+◌, ℕ, List, IfOk, OnOk, IsErrOf, length, Err};
ghost use Rattle.crystal_streams.specs.Faults.{Rose};
ghost use Rattle.crystal_streams.specs.Reads.{TakesAtMost};
ghost use Rattle.job_text.specs.Jobs.{most_job_bytes};
ghost use Rattle.job_text.specs.Judge.{judge};
ghost use Rattle.job_text.specs.Outcomes.{GivesAtLine};
ghost use Rattle.crystal_shell.specs.Inputs.{IsInput, IsLawful, ReadsJob, by_number, judged_input};

use crate::outcomes::NoAnswer;
use crystal_streams::{NoMemory, ReadEnd, Source, read_all};
use job_text::{Job, JobFault, JobWhy, MOST_JOB_BYTES, read_job};
use std::alloc::Global;

/// What an input says.
#[derive(Drop)]
pub(crate) enum Input {
    /// The job is refused, at this line and with the number of the fault. The line is 0 where the fault is none of a line.
    Refused { line: u32, fault: u8 },
    /// The job is taken.
    Taken { job: Job },
}

/// What the input of the source says.
pub(crate) fn read_input<R: Source>(alloc: Global, source: &mut R) -> Result<Input, NoAnswer>
    ensures judged { IfOk result (λ found. (input : List ℕ) × IsInput (R.left source.old) input × (found ≡ judged_input input)) }
    ensures lawful { IfOk result IsLawful }
    ensures taken { OnOk result (ReadsJob (R.left source.old) (R.left source.new)) }
    ensures most { TakesAtMost (most_job_bytes + 1) (R.left source.old) (R.left source.new) }
    ensures later { R.faults source.old ≤ R.faults source.new }
    ensures read_fault { IsErrOf result NoAnswer.ReadFault → Rose (R.faults source.old) (R.faults source.new) }
{
    match read_all(alloc, source, MOST_JOB_BYTES) {
        Ok(bytes) => Ok(read_text(alloc, bytes.as_slice())?),
        Err(ReadEnd::TooLong) => Ok(Input::Refused {
            line: 0,
            fault: JobWhy::TooLong.number(),
        }),
        Err(ReadEnd::ReadFault) => Err(NoAnswer::ReadFault),
        Err(ReadEnd::NoMemory) => Err(NoAnswer::NoMemory),
    }
}

/// What a text says.
fn read_text(alloc: Global, bytes: &[u8]) -> Result<Input, NoMemory>
    requires { length bytes.now ≤ most_job_bytes }
    ensures judged { IfOk result (λ found. found ≡ judged_input bytes.now) }
    ensures lawful { IfOk result IsLawful }
{
    match read_job(alloc, bytes) {
        Ok(job) => Ok(Input::Taken { job }),
        Err(fault) => refused_text(fault),
    }
}

/// What a text with this fault says.
fn refused_text(fault: JobFault) -> Result<Input, NoMemory>
    ensures judged { IfOk result (λ found. (input : List ℕ) → GivesAtLine (Err fault) (judge input) → found ≡ by_number (judge input)) }
    ensures lawful { IfOk result IsLawful }
{
    match fault {
        JobFault::At { line, why } => Ok(Input::Refused {
            line,
            fault: why.number(),
        }),
        JobFault::NoMemory => Err(NoMemory),
    }
}
