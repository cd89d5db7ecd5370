//! The laws of a crystal, at every vector of signs.
ghost use Rattle.crystal_cartan.specs.Types.{HasIndex};
ghost use Rattle.crystal_cartan.specs.Seminormal.{IsSeminormal};
ghost use Rattle.spin_crystals.specs.Signs.{HasSpin, IsSigns, vector_of};
ghost use Rattle.spin_crystals.specs.SpinCrystals.{signs_action, signs_weight};

use crate::signs::Signs;
use crystal_cartan::Cartan;

/// The laws of a seminormal crystal, at every index and vector (Bump and Schilling, Crystal Bases, 2017, section
/// 2.2). e_i and f_i undo each other; f_i gives zero just where phi_i is 0, and e_i just where eps_i is 0; each
/// step of f_i takes one from phi_i and adds one to eps_i; phi_i - eps_i is the pairing of the weight with the
/// simple coroot; f_i takes the simple root from the weight. The call does nothing: its contract is the theorem.
pub fn spin_laws(cartan: Cartan, x: Signs, i: u8)
    requires kind { HasSpin cartan }
    requires element { IsSigns cartan x }
    requires index { HasIndex cartan i }
    ensures { IsSeminormal cartan i (signs_action cartan i) (signs_weight cartan) (vector_of x) }
{
    let _rank = cartan.rank();
}
