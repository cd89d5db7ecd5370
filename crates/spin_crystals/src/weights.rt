//! Weights of vectors of signs.
ghost use Rattle.std.specs.Prelude.{◌≡◌, ◌≤◌, All};
ghost use Rattle.crystal_cartan.specs.Weights.{IsWeight, IsWithin};
ghost use Rattle.spin_crystals.specs.Signs.{HasSpin, IsSigns, vector_of};
ghost use Rattle.spin_crystals.specs.SpinCrystals.{signs_weight, sign_coordinate};

use crate::signs::Signs;
use crystal_cartan::{Cartan, Weight};

/// The weight of `x`: half the sum of the signed unit vectors (Bump and Schilling, Crystal Bases, 2017, section 5.4).
pub fn weight(cartan: Cartan, x: Signs) -> Weight
    requires kind { HasSpin cartan }
    requires element { IsSigns cartan x }
    ensures value { result ≡ signs_weight cartan (vector_of x) }
    ensures size { IsWeight cartan result }
    ensures small { All (IsWithin 1) result }
{
    let mut weight = Weight::zero(cartan);
    'places: for place in 0..cartan.rank() {
        let j = place + 1;
        let doubled = doubled_sign(x, j);
        weight = weight.put(j, doubled);
    }
    weight
}

/// The j-th coordinate, from 1, of the weight of `x`, doubled.
fn doubled_sign(x: Signs, j: u8) -> i32
    requires low { 1 ≤ j }
    requires high { j ≤ x.size }
    requires few { x.size ≤ 8 }
    ensures { result ≡ sign_coordinate (vector_of x) j }
{
    if (x.bits >> (x.size - j)) & 1 == 1 {
        -1
    } else {
        1
    }
}
