//! Letters and their digits.
ghost use Rattle.std.specs.Prelude.{◌≡◌, ℕ, ◌≤◌, ◌<◌, IsTrue, ◌↔◌, IfSome, MatchOption, All};
ghost use Rattle.crystal_cartan.specs.Types.{CartanType, IsCartan, HasIndex};
ghost use Rattle.crystal_cartan.specs.Weights.{IsWeight, IsWithin};
ghost use Rattle.vector_crystals.specs.VectorCrystals.{letter_weight};
ghost use Rattle.vector_crystals.specs.Letters.{IsLetter, letter_count, letter_at, letter_digit};

use crystal_cartan::{Cartan, Kind, Weight};

/// A letter of a vector crystal: k as the number k, k with a bar as -k.
#[derive(Clone, Copy, Debug, PartialEq, Eq)]
pub struct Letter(pub i8);

/// Whether the type has this letter: 1 to r + 1 in A_r, -r to r in B_r, and the same without 0 in C_r and D_r.
pub fn is_letter(cartan: Cartan, value: i8) -> bool
    ensures { IsTrue result ↔ IsLetter cartan value }
{
    let unbarred = cartan.size();
    let height = value.unsigned_abs();
    match cartan.kind() {
        Kind::A => value > 0 && height <= unbarred,
        Kind::B => height <= unbarred,
        Kind::C | Kind::D => value != 0 && height <= unbarred,
    }
}

/// The number of letters.
pub fn base_size(cartan: Cartan) -> u32
    ensures count { result ≡ letter_count cartan }
    ensures few { result ≤ 17 }
    ensures classical { IsCartan cartan }
{
    let rank = u32::from(cartan.rank());
    match cartan.kind() {
        Kind::A => rank + 1,
        Kind::B => 2 * rank + 1,
        Kind::C | Kind::D => 2 * rank,
    }
}

/// The digit of a letter: its place in the order of the letters, from 0. That order is 1, 2, .., then 0 in B_r,
/// then the barred letters down to 1 with a bar.
pub fn digit(cartan: Cartan, x: Letter) -> u32
    requires { IsLetter cartan x.0 }
    ensures value { result ≡ letter_digit cartan x.0 }
    ensures below { result < letter_count cartan }
    ensures back { letter_at cartan result ≡ x.0 }
{
    let size = base_size(cartan);
    let height = u32::from(x.0.unsigned_abs());
    if x.0 > 0 {
        height - 1
    } else if x.0 < 0 {
        size - height
    } else {
        size / 2
    }
}

/// The letter with this digit, or `None` where the digit is not below the number of letters.
pub fn of_digit(cartan: Cartan, d: u32) -> Option<Letter>
    ensures value { MatchOption result (letter_count cartan ≤ d) (λ x. (d < letter_count cartan) × (x.0 ≡ letter_at cartan d)) }
    ensures letter { IfSome result (λ x. IsLetter cartan x.0) }
    ensures back { IfSome result (λ x. letter_digit cartan x.0 ≡ d) }
{
    if d < base_size(cartan) {
        Some(letter_below(cartan, d))
    } else {
        None
    }
}

/// The letter with a digit that the type has.
fn letter_below(cartan: Cartan, d: u32) -> Letter
    requires { d < letter_count cartan }
    ensures { result.0 ≡ letter_at cartan d }
{
    let size = base_size(cartan);
    let unbarred = u32::from(cartan.size());
    if d < unbarred {
        Letter((d + 1) as i8)
    } else if size - d <= unbarred {
        Letter(-((size - d) as i8))
    } else {
        Letter(0)
    }
}

/// The weight of a letter: the unit vector e_k for k, -e_k for k with a bar, 0 for 0 (Bump and Schilling, Crystal
/// Bases, 2017, section 2.2).
pub fn weight(cartan: Cartan, x: Letter) -> Weight
    requires { IsLetter cartan x.0 }
    ensures value { result ≡ letter_weight cartan x.0 }
    ensures size { IsWeight cartan result }
    ensures small { All (IsWithin 2) result }
{
    let place = x.0.unsigned_abs();
    let unbarred = cartan.size();
    prove!(place <= unbarred);
    let zero = Weight::zero(cartan);
    if x.0 > 0 {
        zero.put(place, 2)
    } else if x.0 < 0 {
        zero.put(place, -2)
    } else {
        zero
    }
}
