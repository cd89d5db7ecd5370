//! The signature of a word: what its factors write, and what is left over.
ghost use Rattle.std.specs.Prelude.{◌≡◌, ℕ, ◌≤◌, ◌<◌, length};
ghost use Rattle.crystal_cartan.specs.Types.{HasIndex};
ghost use Rattle.tensor_words.specs.Codes.{IsWord};
ghost use Rattle.tensor_words.specs.TensorRule.{action, as_standard};
ghost use Rattle.signature_rule.specs.Passes.{AreSigns, ClosesAt, OpensAt};

use tensor_words::{Order, Space, Word};

/// The signs that one factor writes: closing signs, and then opening signs. An opening sign directly left of a
/// closing sign is cancelled with it.
#[derive(Clone, Copy)]
pub(crate) struct Brackets {
    pub(crate) closing: u32,
    pub(crate) opening: u32,
}

/// The number of opening signs that are left over, by a pass from the first factor on.
pub(crate) fn opening_left(space: &Space, word: &Word, i: u8) -> u32
    requires word { IsWord space.now word.now }
    requires index { HasIndex space.now.cartan i }
    ensures value { result ≡ (as_standard space.now.order (action space.now i)).eps word.now }
    ensures few { result ≤ 80 }
{
    let mut open = 0u32;
    'factors: for place in 0..space.count() {
        let signs = signs_at(space, word, i, place);
        open = open.saturating_sub(signs.closing) + signs.opening;
    }
    open
}

/// The number of closing signs that are left over, by a pass from the last factor on.
pub(crate) fn closing_left(space: &Space, word: &Word, i: u8) -> u32
    requires word { IsWord space.now word.now }
    requires index { HasIndex space.now.cartan i }
    ensures value { result ≡ (as_standard space.now.order (action space.now i)).phi word.now }
    ensures few { result ≤ 80 }
{
    let mut left = 0u32;
    let mut place = space.count();
    'factors: while place > 0 {
        place -= 1;
        let signs = signs_at(space, word, i, place);
        left = left.saturating_sub(signs.opening) + signs.closing;
    }
    left
}

/// The place of the rightmost closing sign that is left over, where the operator of the closing signs acts; `None`
/// where there is none.
pub(crate) fn last_closing(space: &Space, word: &Word, i: u8) -> Option<u8>
    requires word { IsWord space.now word.now }
    requires index { HasIndex space.now.cartan i }
    ensures { ClosesAt space.now.order space.now i word.now result }
{
    let mut unclosed = 0u32;
    let mut last = None;
    'rightmost: for place in 0..space.count() {
        let signs = signs_at(space, word, i, place);
        if signs.closing > unclosed {
            last = Some(place);
        }
        unclosed = unclosed.saturating_sub(signs.closing) + signs.opening;
    }
    last
}

/// The place of the leftmost opening sign that is left over, where the operator of the opening signs acts; `None`
/// where there is none.
pub(crate) fn first_opening(space: &Space, word: &Word, i: u8) -> Option<u8>
    requires word { IsWord space.now word.now }
    requires index { HasIndex space.now.cartan i }
    ensures { OpensAt space.now.order space.now i word.now result }
{
    let mut unopened = 0u32;
    let mut first = None;
    let mut place = space.count();
    'leftmost: while place > 0 {
        place -= 1;
        let signs = signs_at(space, word, i, place);
        if signs.opening > unopened {
            first = Some(place);
        }
        unopened = unopened.saturating_sub(signs.opening) + signs.closing;
    }
    first
}

/// What the factor at this place, counted from 0, writes: in the standard order phi closing and eps opening signs,
/// in Kashiwara's eps closing and phi opening signs.
pub(crate) fn signs_at(space: &Space, word: &Word, i: u8, place: u8) -> Brackets
    requires word { IsWord space.now word.now }
    requires index { HasIndex space.now.cartan i }
    requires place { place < length space.now.factors }
    ensures signs { AreSigns space.now i word.now place result.opening result.closing }
    ensures few { (result.opening ≤ 2) × (result.closing ≤ 2) }
{
    let digit = space.digit_in(word, place);
    let phi = space.digit_phi(place, digit, i);
    let eps = space.digit_eps(place, digit, i);
    match space.order() {
        Order::Standard => Brackets {
            closing: phi,
            opening: eps,
        },
        Order::Kashiwara => Brackets {
            closing: eps,
            opening: phi,
        },
    }
}
