//! The operators of the spin crystals.
ghost use Rattle.std.specs.Prelude.{◌≡◌, ℕ, ◌*◌, ◌≤◌, ◌<◌, ◌^◌, IsTrue, IfSome};
ghost use Rattle.std.specs.Option.{option_map};
ghost use Rattle.crystal_cartan.specs.Types.{IsCartan, HasIndex};
ghost use Rattle.spin_crystals.specs.Signs.{HasSpin, IsSigns, KeepsHalves, vector_of};
ghost use Rattle.spin_crystals.specs.SpinCrystals.{signs_action};
ghost use Rattle.spin_crystals.specs.Turns.{turn_at, bits_read, bits_turned};

use crate::signs::Signs;
use crystal_cartan::{Cartan, Kind};

/// What the arrows of one index do: the signs in `mask`, shifted up by `place`, are `from` before the arrow, and it turns each of them.
#[derive(Clone, Copy)]
struct Turn {
    place: u8,
    mask: u8,
    from: u8,
}

impl Turn {
    fn new(cartan: Cartan, i: u8) -> Turn
        requires { HasIndex cartan i }
        ensures value { result ≡ turn_at cartan i }
        ensures classical { IsCartan cartan }
        ensures place { result.place < 8 }
    {
        let rank = cartan.rank();
        if i < rank {
            return Turn {
                place: rank - i - 1,
                mask: 0b11,
                from: 0b01,
            };
        }
        match cartan.kind() {
            Kind::D => Turn {
                place: 0,
                mask: 0b11,
                from: 0b00,
            },
            _ => Turn {
                place: 0,
                mask: 0b1,
                from: 0b0,
            },
        }
    }

    /// The signs of `x` that the arrows read.
    fn signs_of(self, x: Signs) -> u8
        requires { self.place < 8 }
        ensures { result ≡ bits_read self x.bits }
    {
        (x.bits >> self.place) & self.mask
    }

    /// The vector with the signs in the mask turned.
    fn applied_to(self, x: Signs) -> Signs
        requires place { self.place < 8 }
        requires whole { self.mask * 2 ^ self.place < 2 ^ 8 }
        ensures bits { result.bits ≡ bits_turned self x.bits }
        ensures size { result.size ≡ x.size }
    {
        Signs {
            bits: x.bits ^ (self.mask << self.place),
            size: x.size,
        }
    }
}

/// The lowering operator f_i: the vector that the arrow of index `i` leads to, `None` where there is none (Bump and Schilling, Crystal Bases, 2017, section 5.4).
pub fn lower(cartan: Cartan, x: Signs, i: u8) -> Option<Signs>
    requires kind { HasSpin cartan }
    requires element { IsSigns cartan x }
    requires index { HasIndex cartan i }
    ensures value { option_map vector_of result ≡ (signs_action cartan i).lower (vector_of x) }
    ensures element { IfSome result (λ y. IsSigns cartan y) }
    ensures half { IfSome result (λ y. KeepsHalves cartan (vector_of x) (vector_of y)) }
{
    let turn = Turn::new(cartan, i);
    if turn.signs_of(x) != turn.from {
        return None;
    }
    Some(turn.applied_to(x))
}

/// The raising operator e_i: the vector that the arrow of index `i` to `x` comes from, `None` where there is none.
pub fn raise(cartan: Cartan, x: Signs, i: u8) -> Option<Signs>
    requires kind { HasSpin cartan }
    requires element { IsSigns cartan x }
    requires index { HasIndex cartan i }
    ensures value { option_map vector_of result ≡ (signs_action cartan i).raise (vector_of x) }
    ensures element { IfSome result (λ y. IsSigns cartan y) }
    ensures half { IfSome result (λ y. KeepsHalves cartan (vector_of x) (vector_of y)) }
{
    let turn = Turn::new(cartan, i);
    if turn.signs_of(x) != turn.from ^ turn.mask {
        return None;
    }
    Some(turn.applied_to(x))
}

/// How often e_i can be applied to `x`.
pub fn eps(cartan: Cartan, x: Signs, i: u8) -> u32
    requires kind { HasSpin cartan }
    requires element { IsSigns cartan x }
    requires index { HasIndex cartan i }
    ensures value { result ≡ (signs_action cartan i).eps (vector_of x) }
    ensures small { result ≤ 1 }
{
    let turn = Turn::new(cartan, i);
    (turn.signs_of(x) == turn.from ^ turn.mask) as u32
}

/// How often f_i can be applied to `x`.
pub fn phi(cartan: Cartan, x: Signs, i: u8) -> u32
    requires kind { HasSpin cartan }
    requires element { IsSigns cartan x }
    requires index { HasIndex cartan i }
    ensures value { result ≡ (signs_action cartan i).phi (vector_of x) }
    ensures small { result ≤ 1 }
{
    let turn = Turn::new(cartan, i);
    (turn.signs_of(x) == turn.from) as u32
}
