//! The laws of a crystal, at every word.
ghost use Rattle.crystal_cartan.specs.Types.{HasIndex};
ghost use Rattle.crystal_cartan.specs.Seminormal.{IsSeminormal};
ghost use Rattle.tensor_words.specs.Spaces.{word_weight};
ghost use Rattle.tensor_words.specs.Codes.{IsWord};
ghost use Rattle.tensor_words.specs.Laws.{WordsAreSeminormal};
ghost use Rattle.tensor_words.specs.TensorRule.{action};

use tensor_words::{Space, Word};

/// The words of any list of factors of a type make a seminormal crystal, in both orders and without the limits of a
/// space. The call does nothing: its contract is the theorem.
pub fn words_are_seminormal()
    ensures { WordsAreSeminormal }
{}

/// The laws of a seminormal crystal, at every index and word of a space (Bump and Schilling, Crystal Bases, 2017,
/// sections 2.2 and 2.3). e_i and f_i undo each other; f_i gives zero just where phi_i is 0, and e_i just where
/// eps_i is 0; each step of f_i takes one from phi_i and adds one to eps_i, and each step of e_i does the reverse;
/// phi_i - eps_i is the pairing of the weight with the simple coroot; f_i takes the simple root from the weight.
/// The call does nothing: its contract is the theorem.
pub fn word_laws(space: &Space, word: &Word, i: u8)
    requires word { IsWord space.now word.now }
    requires index { HasIndex space.now.cartan i }
    ensures { IsSeminormal space.now.cartan i (action space.now i) (word_weight space.now) word.now }
{
    let _cartan = space.cartan();
}
