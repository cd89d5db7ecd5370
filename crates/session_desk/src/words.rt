//! What replies tell of words by their codes alone.
ghost use Rattle.std.specs.Prelude.{◌≡◌, ℕ, ◌<◌};
ghost use Rattle.crystal_cartan.specs.Types.{HasIndex};
ghost use Rattle.tensor_words.specs.Spaces.{size};
ghost use Rattle.session_desk.specs.Replies.{weight_at, eps_at, phi_at};
ghost use Rattle.session_desk.specs.Texts.{IsPrintable};

use crate::reply::Reply;
use signature_rule::{eps, phi};
use tensor_words::{Space, word_with};

/// The weight of a word.
#[tactic(auto, unfolding(crate::specs::Replies::weight_at))]
pub(crate) fn weight_reply(space: &Space, code: u64) -> Reply
    requires { code < size space.now }
    ensures reply { result ≡ Reply.Weight (weight_at space.now code) }
    ensures printable { IsPrintable space.now result }
{
    Reply::Weight(space.weight(&word_with(space, code)))
}

/// The length of the string of a word at an index, by raising.
#[tactic(auto, unfolding(crate::specs::Replies::eps_at))]
pub(crate) fn eps_reply(space: &Space, index: u8, code: u64) -> Reply
    requires index { HasIndex space.now.cartan index }
    requires code { code < size space.now }
    ensures reply { result ≡ Reply.Number (eps_at space.now index code) }
    ensures printable { IsPrintable space.now result }
{
    Reply::Number(eps(space, &word_with(space, code), index))
}

/// The length of the string of a word at an index, by lowering.
#[tactic(auto, unfolding(crate::specs::Replies::phi_at))]
pub(crate) fn phi_reply(space: &Space, index: u8, code: u64) -> Reply
    requires index { HasIndex space.now.cartan index }
    requires code { code < size space.now }
    ensures reply { result ≡ Reply.Number (phi_at space.now index code) }
    ensures printable { IsPrintable space.now result }
{
    Reply::Number(phi(space, &word_with(space, code), index))
}
