//! Raising a word to the top of its component.
ghost use Rattle.std.specs.Prelude.{◌≡◌, ℕ, ◌≤◌, IfSome, MatchOption};
ghost use Rattle.tensor_words.specs.Spaces.{IsSpace};
ghost use Rattle.tensor_words.specs.Codes.{IsWord};
ghost use Rattle.tensor_words.specs.Operators.{IsTop};
ghost use Rattle.signature_rule.specs.Lifts.{IsLeastRaise, IsLift};

use crate::operators::raise;
use tensor_words::{Space, Word};

/// The word raised by the least index whose eps is not zero, again and again until there is none, and the number of
/// raises.
pub fn lift(space: &Space, word: &Word) -> (Word, u32)
    requires { IsWord space.now word.now }
    ensures lift { IsLift space.now word.now result.0 result.1 }
    ensures word { IsWord space.now result.0 }
    ensures few { result.1 ≤ 10240 }
{
    let mut top = *word;
    let mut raises = 0;
    'raises: while let Some(higher) = least_raise(space, &top) {
        top = higher;
        raises += 1;
    }
    (top, raises)
}

/// The word raised by the least index whose eps is not zero, `None` where there is none.
fn least_raise(space: &Space, word: &Word) -> Option<Word>
    requires { IsWord space.now word.now }
    ensures raise { MatchOption result (IsTop space.now word.now) (IsLeastRaise space.now word.now) }
    ensures space { IsSpace space.now }
    ensures word { IfSome result (IsWord space.now) }
{
    'indices: for place in 0..space.cartan().rank() {
        if let Some(higher) = raise(space, word, place + 1) {
            return Some(higher);
        }
    }
    None
}
