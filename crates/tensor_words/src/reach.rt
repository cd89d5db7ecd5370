//! Operators on the codes of words.
ghost use Rattle.std.specs.Prelude.{◌≡◌, ℕ, ◌<◌, IfSome};
ghost use Rattle.tensor_words.specs.Spaces.{size};
ghost use Rattle.tensor_words.specs.Codes.{IsWord};
ghost use Rattle.tensor_words.specs.Operators.{IsArrow, acted, op};

use crate::spaces::Space;
use crate::words::Word;
use crystal_cartan::Arrow;

/// The code of what the operator of an arrow makes of the word with this code, `None` for zero.
#[tactic(auto, unfolding(crate::specs::Operators::op))]
pub fn next_code(space: &Space, code: u64, arrow: Arrow) -> Option<u64>
    requires code { code < size space.now }
    requires arrow { IsArrow space.now arrow }
    ensures value { result ≡ op space.now arrow code }
    ensures below { IfSome result (λ y. y < size space.now) }
{
    let word = space.word_of(code)?;
    let next = word_after(space, &word, arrow)?;
    Some(space.code_of(&next))
}

/// What the operator of an arrow makes of a word, `None` for zero.
fn word_after(space: &Space, word: &Word, arrow: Arrow) -> Option<Word>
    requires word { IsWord space.now word.now }
    requires arrow { IsArrow space.now arrow }
    ensures value { result ≡ acted space.now arrow word.now }
    ensures word { IfSome result (IsWord space.now) }
{
    if arrow.down {
        space.by_rule_lower(word, arrow.index)
    } else {
        space.by_rule_raise(word, arrow.index)
    }
}
