//! The laws of a crystal, at every letter.
ghost use Rattle.crystal_cartan.specs.Types.{HasIndex};
ghost use Rattle.crystal_cartan.specs.Seminormal.{IsSeminormal};
ghost use Rattle.vector_crystals.specs.Letters.{IsLetter};
ghost use Rattle.vector_crystals.specs.VectorCrystals.{letter_action, letter_weight};

use crate::letters::Letter;
use crystal_cartan::Cartan;

/// The laws of a seminormal crystal, at every index and letter (Bump and Schilling, Crystal Bases, 2017, section
/// 2.2). e_i and f_i undo each other; f_i gives zero just where phi_i is 0, and e_i just where eps_i is 0; each
/// step of f_i takes one from phi_i and adds one to eps_i, and each step of e_i does the reverse; phi_i - eps_i
/// is the pairing of the weight with the simple coroot; f_i takes the simple root from the weight.
/// The call does nothing: its contract is the theorem.
pub fn letter_laws(cartan: Cartan, x: Letter, i: u8)
    requires index { HasIndex cartan i }
    requires letter { IsLetter cartan x.0 }
    ensures { IsSeminormal cartan i (letter_action cartan i) (letter_weight cartan) x.0 }
{
    let _rank = cartan.rank();
}
