//! The operators by the signature rule: one pass over the factors.
ghost use Rattle.std.specs.Prelude.{◌≡◌, ℕ, ◌≤◌, IfSome, MatchOption};
ghost use Rattle.crystal_cartan.specs.Types.{HasIndex};
ghost use Rattle.tensor_words.specs.Codes.{IsWord};
ghost use Rattle.tensor_words.specs.TensorRule.{action};
ghost use Rattle.tensor_words.specs.Operators.{IsArrow, acted};
ghost use Rattle.signature_rule.specs.Passes.{IsLowerPlace, IsRaisePlace};

use crate::brackets::{closing_left, first_opening, last_closing, opening_left};
use crystal_cartan::Arrow;
use tensor_words::{Order, Space, Word};

/// How often e_i can be applied to the word.
pub fn eps(space: &Space, word: &Word, i: u8) -> u32
    requires word { IsWord space.now word.now }
    requires index { HasIndex space.now.cartan i }
    ensures value { result ≡ (action space.now i).eps word.now }
    ensures few { result ≤ 80 }
{
    match space.order() {
        Order::Standard => opening_left(space, word, i),
        Order::Kashiwara => closing_left(space, word, i),
    }
}

/// How often f_i can be applied to the word.
pub fn phi(space: &Space, word: &Word, i: u8) -> u32
    requires word { IsWord space.now word.now }
    requires index { HasIndex space.now.cartan i }
    ensures value { result ≡ (action space.now i).phi word.now }
    ensures few { result ≤ 80 }
{
    match space.order() {
        Order::Standard => closing_left(space, word, i),
        Order::Kashiwara => opening_left(space, word, i),
    }
}

/// The lowering operator f_i on a word, `None` where it gives zero.
pub fn lower(space: &Space, word: &Word, i: u8) -> Option<Word>
    requires word { IsWord space.now word.now }
    requires index { HasIndex space.now.cartan i }
    ensures value { result ≡ (action space.now i).lower word.now }
    ensures word { IfSome result (IsWord space.now) }
{
    lowered_at(space, word, i, lower_place(space, word, i))
}

/// The raising operator e_i on a word, `None` where it gives zero.
pub fn raise(space: &Space, word: &Word, i: u8) -> Option<Word>
    requires word { IsWord space.now word.now }
    requires index { HasIndex space.now.cartan i }
    ensures value { result ≡ (action space.now i).raise word.now }
    ensures word { IfSome result (IsWord space.now) }
{
    raised_at(space, word, i, raise_place(space, word, i))
}

/// The operator of an arrow on a word, `None` where it gives zero.
pub fn act(space: &Space, word: &Word, arrow: Arrow) -> Option<Word>
    requires word { IsWord space.now word.now }
    requires arrow { IsArrow space.now arrow }
    ensures value { result ≡ acted space.now arrow word.now }
    ensures word { IfSome result (IsWord space.now) }
{
    if arrow.down {
        lower(space, word, arrow.index)
    } else {
        raise(space, word, arrow.index)
    }
}

/// The place where f_i acts, `None` where it gives zero.
pub(crate) fn lower_place(space: &Space, word: &Word, i: u8) -> Option<u8>
    requires word { IsWord space.now word.now }
    requires index { HasIndex space.now.cartan i }
    ensures { MatchOption result ((action space.now i).lower word.now ≡ None) (IsLowerPlace space.now i word.now) }
{
    match space.order() {
        Order::Standard => last_closing(space, word, i),
        Order::Kashiwara => first_opening(space, word, i),
    }
}

/// The place where e_i acts, `None` where it gives zero.
pub(crate) fn raise_place(space: &Space, word: &Word, i: u8) -> Option<u8>
    requires word { IsWord space.now word.now }
    requires index { HasIndex space.now.cartan i }
    ensures { MatchOption result ((action space.now i).raise word.now ≡ None) (IsRaisePlace space.now i word.now) }
{
    match space.order() {
        Order::Standard => first_opening(space, word, i),
        Order::Kashiwara => last_closing(space, word, i),
    }
}

/// The word lowered at the place where f_i acts on it.
pub(crate) fn lowered_at(space: &Space, word: &Word, i: u8, place: Option<u8>) -> Option<Word>
    requires word { IsWord space.now word.now }
    requires index { HasIndex space.now.cartan i }
    requires place { MatchOption place ((action space.now i).lower word.now ≡ None) (IsLowerPlace space.now i word.now) }
    ensures value { result ≡ (action space.now i).lower word.now }
    ensures word { IfSome result (IsWord space.now) }
{
    match place {
        Some(place) => {
            let digit = space.digit_lower(place, word.digit(place), i)?;
            Some(space.put(word, place, digit))
        }
        None => None,
    }
}

/// The word raised at the place where e_i acts on it.
pub(crate) fn raised_at(space: &Space, word: &Word, i: u8, place: Option<u8>) -> Option<Word>
    requires word { IsWord space.now word.now }
    requires index { HasIndex space.now.cartan i }
    requires place { MatchOption place ((action space.now i).raise word.now ≡ None) (IsRaisePlace space.now i word.now) }
    ensures value { result ≡ (action space.now i).raise word.now }
    ensures word { IfSome result (IsWord space.now) }
{
    match place {
        Some(place) => {
            let digit = space.digit_raise(place, word.digit(place), i)?;
            Some(space.put(word, place, digit))
        }
        None => None,
    }
}
