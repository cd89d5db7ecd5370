//! Why a job is refused.
ghost use Rattle.std.specs.Prelude.{◌≡◌};
ghost use Rattle.job_text.specs.Faults.{why_number};
ghost use Rattle.job_text.specs.Outcomes.{fault_at};

use std::alloc::AllocError;
use thiserror::Error;

/// Why a line of a job is refused, or the whole job (`Missing`, `TooLong`, `FewStarts`).
#[derive(Clone, Copy, Debug, PartialEq, Eq)]
pub enum JobWhy {
    /// A byte outside 32..126, or a last line with no end.
    BadByte,
    /// The first line is not the header.
    BadHeader,
    /// No key word, or the wrong number of words behind it.
    UnknownLine,
    /// A key word that is not allowed in this part.
    Misplaced,
    /// A word that is not one to nine digits, where a number must stand.
    BadNumber,
    /// No such kind, or a rank out of range.
    RankRange,
    /// No such shape.
    BadShape,
    /// No such space.
    BadSpace,
    /// No word of the space.
    BadWord,
    /// No index of the type.
    BadIndex,
    /// A number of cells out of range.
    CellsRange,
    /// No type, no shape or space, or no start.
    Missing,
    /// One more than is taken of starts, sessions, commands, asks or indices.
    TooMany,
    /// More bytes than a job may have. Said of the whole text, which is not judged.
    TooLong,
    /// A single start, where two are compared. Said of a job that has no other fault.
    FewStarts,
}

impl JobWhy {
    /// The number that the program prints: 1 to 13 for what the judgement of a text finds, 14 and 16 for what is said of a whole
    /// text or job.
    pub fn number(&self) -> u8
        ensures { result ≡ why_number self.now }
    {
        match self {
            JobWhy::BadByte => 1,
            JobWhy::BadHeader => 2,
            JobWhy::UnknownLine => 3,
            JobWhy::Misplaced => 4,
            JobWhy::BadNumber => 5,
            JobWhy::RankRange => 6,
            JobWhy::BadShape => 7,
            JobWhy::BadSpace => 8,
            JobWhy::BadWord => 9,
            JobWhy::BadIndex => 10,
            JobWhy::CellsRange => 11,
            JobWhy::Missing => 12,
            JobWhy::TooMany => 13,
            JobWhy::TooLong => 14,
            JobWhy::FewStarts => 16,
        }
    }
}

/// Why no job was read.
#[derive(Clone, Copy, Debug, PartialEq, Eq, Error)]
pub enum JobFault {
    /// The first line with a fault, counted from 1, and its first fault.
    #[error("line {line}: {why:?}")]
    At { line: u32, why: JobWhy },
    #[error("out of memory")]
    NoMemory,
}

/// Why the reading of a line stops.
#[derive(Clone, Copy, Debug, PartialEq, Eq)]
pub(crate) enum Stop {
    /// The line's first fault.
    Why(JobWhy),
    NoMemory,
}

impl From<AllocError> for Stop {
    ghost use Rattle.std.specs.Prelude.{◌≡◌};
    ghost use Rattle.job_text.specs.declared.faults.Stop.TheVariants.{NoMemory};

    ghost from_gives = { λ _ stop. stop ≡ NoMemory };

    fn from(_refused: AllocError) -> Stop {
        Stop::NoMemory
    }
}

impl Stop {
    /// The fault of a job whose line, counted from 1, stops so.
    pub fn at_line(self, line: u32) -> JobFault
        ensures { result ≡ fault_at line self }
    {
        match self {
            Stop::Why(why) => JobFault::At { line, why },
            Stop::NoMemory => JobFault::NoMemory,
        }
    }
}
