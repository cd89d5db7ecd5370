//! Why command words are refused.

ghost use Rattle.std.specs.Prelude.{◌≡◌};
ghost use Rattle.command_words.specs.Fault.{fault_number};

use thiserror::Error;

/// Why command words are refused. Of several causes the first in this order is told.
#[derive(Clone, Copy, Debug, PartialEq, Eq, Error)]
pub enum WordsFault {
    #[error("a word begins with a dash")]
    Dashed,
    #[error("fewer than two words")]
    Missing,
    #[error("the mode is none of `grow`, `sample`, `census`, `match` and `wide`")]
    UnknownMode,
    #[error("the number of growers is not one to ten digits of value 1 to 16")]
    BadGrowers,
    #[error("no statistic has this name")]
    UnknownStatistic,
    #[error("a statistic is named twice")]
    RepeatedStatistic,
    #[error("`sample` wants one number of at most ten digits below 2^32")]
    BadSample,
    #[error("`census` wants the rank and the rows of a shape of type A")]
    BadCensus,
    #[error("`match` wants one word, `same` or `star`")]
    BadMatch,
    #[error("`wide` wants no word but the number of growers")]
    WideExtra,
    #[error("out of memory")]
    NoMemory,
}

impl WordsFault {
    /// The number that the program prints for the fault: 1 to 7 or 9 to 11; want of memory has none.
    pub fn number(&self) -> Option<u8>
        ensures { result ≡ fault_number self.now }
    {
        match self {
            WordsFault::Dashed => Some(1),
            WordsFault::Missing => Some(2),
            WordsFault::UnknownMode => Some(3),
            WordsFault::BadGrowers => Some(4),
            WordsFault::UnknownStatistic => Some(5),
            WordsFault::RepeatedStatistic => Some(6),
            WordsFault::BadSample => Some(7),
            WordsFault::BadCensus => Some(9),
            WordsFault::BadMatch => Some(10),
            WordsFault::WideExtra => Some(11),
            WordsFault::NoMemory => None,
        }
    }
}
