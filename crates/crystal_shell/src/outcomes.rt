//! What a run comes to.
ghost use Rattle.std.specs.Prelude.{◌≡◌, [], None};
ghost use Rattle.crystal_shell.specs.Statuses.{status_number, no_answer_number};

use answer_text::Answer;
use crystal_streams::NoMemory;
use graph_history::Front;
use graph_runs::Held;

/// How a run ended.
#[derive(Drop)]
pub struct Outcome {
    /// 0 done, 1 words refused, 2 job refused, 3 there are more words, tableaux or pairs than may be, 4 a read failed,
    /// 5 a write failed, 6 want of memory.
    pub status: u8,
    /// The history of the run under `grow` and `sample`; empty in the other modes, where the words or the job are refused, and under 4
    /// and 6.
    pub front: Front,
    /// The graph of the run, with its one seat; there exactly where there is such a history.
    pub held: Option<Held>,
}

/// What an answer that is written whole tells.
#[derive(Clone, Copy, Debug, PartialEq, Eq)]
pub(crate) enum Status {
    Done,
    WordsRefused,
    JobRefused,
    Full,
}

impl Status {
    /// The number with which the program ends.
    pub(crate) fn number(&self) -> u8
        ensures { result ≡ status_number self.now }
    {
        match self {
            Status::Done => 0,
            Status::WordsRefused => 1,
            Status::JobRefused => 2,
            Status::Full => 3,
        }
    }
}

/// An answer with its status, before it is written.
#[derive(Drop)]
pub(crate) struct Answered {
    pub(crate) status: Status,
    pub(crate) front: Front,
    pub(crate) held: Option<Held>,
    pub(crate) answer: Answer,
}

impl Answered {
    /// The answer without a history.
    pub(crate) fn without_history(status: Status, answer: Answer) -> Answered
        ensures status { result.status ≡ status }
        ensures front { result.front ≡ [] }
        ensures held { result.held ≡ None }
        ensures answer { result.answer ≡ answer }
    {
        Answered {
            status,
            front: Front::empty(),
            held: None,
            answer,
        }
    }
}

/// Why there is no answer.
#[derive(Clone, Copy, Debug, PartialEq, Eq)]
pub(crate) enum NoAnswer {
    /// A read failed.
    ReadFault,
    /// There is no memory.
    NoMemory,
}

impl NoAnswer {
    /// The number with which the program ends.
    pub(crate) fn number(&self) -> u8
        ensures { result ≡ no_answer_number self.now }
    {
        match self {
            NoAnswer::ReadFault => 4,
            NoAnswer::NoMemory => 6,
        }
    }
}

impl From<NoMemory> for NoAnswer {
    ghost use Rattle.std.specs.Prelude.{◌≡◌};
    ghost use Rattle.crystal_shell.specs.declared.outcomes.NoAnswer.TheVariants.{NoMemory as WantsMemory};

    ghost from_gives = { λ _ why. why ≡ WantsMemory };

    fn from(_error: NoMemory) -> NoAnswer {
        NoAnswer::NoMemory
    }
}
