//! Digits of vectors of signs.
ghost use Rattle.std.specs.Prelude.{◌≡◌, ℕ, ◌≤◌, ◌<◌, ◌-◌, ◌^◌, ◌+◌, ◌*◌, ◌/◌, ◌%◌, ◌==◌, IsTrue, IfSome, MatchOption, ◌++◌, ◌∷◌, []};
ghost use Rattle.crystal_cartan.specs.Types.{IsCartan};
ghost use Rattle.spin_crystals.specs.Signs.{HasHalf, IsSigns, vector_of, is_of_half, half_size, signs_digit, signs_at, has_odd_minuses, signs_of_number};

use crate::signs::{Half, Signs};
use crystal_cartan::Cartan;

/// The number of vectors in the half.
pub fn base_size(cartan: Cartan, half: Half) -> u32
    ensures value { result ≡ half_size half cartan.rank }
    ensures few { result ≤ 256 }
{
    let signs = match half {
        Half::Whole => cartan.rank(),
        Half::Plus | Half::Minus => cartan.rank() - 1,
    };
    1 << signs
}

/// The digit of `x`, its place in the order of its half: all its bits, in a half of type D those without the last sign.
pub fn digit(cartan: Cartan, x: Signs, half: Half) -> u32
    requires half { HasHalf cartan half }
    requires element { IsSigns cartan x }
    requires parity { IsTrue (is_of_half half (vector_of x)) }
    ensures value { result ≡ signs_digit half (vector_of x) }
    ensures below { result < half_size half cartan.rank }
    ensures back { signs_at half cartan.rank result ≡ vector_of x }
{
    let _rank = cartan.rank();
    let bits = match half {
        Half::Whole => x.bits,
        Half::Plus | Half::Minus => x.bits >> 1,
    };
    bits as u32
}

/// The vector with the digit `d`, `None` where `d` is not below the number of vectors.
pub fn of_digit(cartan: Cartan, d: u32, half: Half) -> Option<Signs>
    requires half { HasHalf cartan half }
    ensures value { MatchOption result (half_size half cartan.rank ≤ d) (λ x. (d < half_size half cartan.rank) × (vector_of x ≡ signs_at half cartan.rank d)) }
    ensures element { IfSome result (λ x. IsSigns cartan x) }
    ensures parity { IfSome result (λ x. IsTrue (is_of_half half (vector_of x))) }
    ensures back { IfSome result (λ x. signs_digit half (vector_of x) ≡ d) }
{
    if d >= base_size(cartan, half) {
        return None;
    }
    Some(vector_at(cartan, d as u8, half))
}

/// The vector with the digit `d`.
fn vector_at(cartan: Cartan, d: u8, half: Half) -> Signs
    requires { d < half_size half cartan.rank }
    ensures vector { vector_of result ≡ signs_at half cartan.rank d }
    ensures element { IsSigns cartan result }
{
    let size = cartan.rank();
    let bits = match half {
        Half::Whole => d,
        Half::Plus => with_last(d, size, has_odd_ones(d)),
        Half::Minus => with_last(d, size, !has_odd_ones(d)),
    };
    Signs { bits, size }
}

/// The bits of the vector that has the signs of `d` and one more, minus where `last` is true.
fn with_last(d: u8, size: u8, last: bool) -> u8
    requires size { (1 ≤ size) × (size ≤ 8) }
    requires below { d < 2 ^ (size - 1) }
    ensures vector { signs_of_number size result ≡ signs_of_number (size - 1) d ++ last ∷ [] }
    ensures below { result < 2 ^ size }
{
    d << 1 | last as u8
}

fn has_odd_ones(bits: u8) -> bool
    ensures { (n : ℕ) → bits < 2 ^ n → has_odd_minuses (signs_of_number n bits) ≡ result }
{
    bits.count_ones() % 2 == 1
}

impl Signs {
    /// Whether the number of minus signs is odd.
    pub fn odd_minuses(&self) -> bool
        ensures { result ≡ has_odd_minuses (vector_of self.now) }
    {
        let Signs { bits, size } = *self;
        let signs = if size < 8 {
            bits & ((1 << size) - 1)
        } else {
            bits
        };
        has_odd_ones(signs)
    }
}
