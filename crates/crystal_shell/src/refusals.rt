//! The answers to refused command words and refused jobs.
ghost use Rattle.std.specs.Prelude.{◌≡◌, [], None};

use crate::outcomes::{Answered, Status};
use answer_text::Answer;

/// The answer to command words with this fault.
pub(crate) fn refused_words(fault: u8) -> Answered
    ensures status { result.status ≡ Status.WordsRefused }
    ensures unkept { (result.front ≡ []) × (result.held ≡ None) }
    ensures answer { result.answer ≡ Answer.WordsRefused fault }
{
    Answered::without_history(Status::WordsRefused, Answer::WordsRefused { fault })
}

/// The answer to a job with this fault at this line.
pub(crate) fn refused_job(line: u32, fault: u8) -> Answered
    ensures status { result.status ≡ Status.JobRefused }
    ensures unkept { (result.front ≡ []) × (result.held ≡ None) }
    ensures answer { result.answer ≡ Answer.JobRefused line fault }
{
    Answered::without_history(Status::JobRefused, Answer::JobRefused { line, fault })
}
