//! The answer as data, before it is printed.

use ask_answers::AskAnswer;
use canonical_graph::Finished;
use crystal_cartan::Cartan;
use crystal_match::Verdict;
use session_desk::Replies;
use tableau_reading::Shape;
use tensor_words::{Codes, Space};

/// What a statistic reports. The lines of the report have their ends.
#[derive(Debug, Drop)]
pub struct Report {
    /// The name of the statistic, at most 64 bytes.
    pub name: String,
    pub bytes: Vec<u8>,
}

/// A finished graph, and what is told of it.
#[derive(Debug, Drop)]
pub struct Whole {
    pub finished: Finished,
    /// The reports of the chosen statistics, in the order in which they were chosen.
    pub reports: Vec<Report>,
    /// The answers to the asks, in the order of the job.
    pub asks: Vec<AskAnswer>,
}

/// How many wide words are reached, and how many f arrows at them are not zero.
#[derive(Clone, Copy, Debug, PartialEq, Eq)]
pub struct Counts {
    pub vertices: u32,
    pub arrows: u64,
}

/// An answer of the program.
#[derive(Debug, Drop)]
pub enum Answer {
    /// The command words are refused, with the number of the fault.
    WordsRefused {
        fault: u8,
    },
    /// The job is refused, at this line and with the number of the fault. The line is 0 where the fault is none of a line.
    JobRefused {
        line: u32,
        fault: u8,
    },
    /// The crystal of a job in this space, and what its sessions were told; no graph where there are more vertices than
    /// cells.
    Crystal {
        space: Space,
        told: Vec<Replies>,
        graph: Option<Whole>,
    },
    /// The sample job of this number: its type, how many sessions and commands it has, and its graph, of which the sizes are
    /// printed; no graph where there are more vertices than cells.
    Sample {
        number: u32,
        cartan: Cartan,
        sessions: u32,
        commands: u32,
        graph: Option<Finished>,
    },
    /// The tableaux of a shape, by the codes of their readings; no codes where there are too many.
    Tableaux {
        shape: Shape,
        codes: Option<Codes>,
    },
    /// What the comparison of two components of this type came to; no verdict where there are too many pairs.
    Comparison {
        cartan: Cartan,
        verdict: Option<Verdict>,
    },
    /// What a growth of wide words of this type came to; no counts where there are more words than cells.
    Wide {
        cartan: Cartan,
        counts: Option<Counts>,
    },
}
