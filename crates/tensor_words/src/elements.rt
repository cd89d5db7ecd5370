//! Elements of the base crystals by their digits, with the operators on them and their weights.
#![tactic(auto, unfolding(crate::specs::Spaces::base_action, crate::specs::Spaces::base_size, vector_crystals::specs::VectorCrystals::digit_action, spin_crystals::specs::SpinCrystals::spin_digit_action))]

ghost use Rattle.std.specs.Prelude.{◌≡◌, ℕ, ◌≤◌, ◌<◌, IsTrue, IfSome, All, length};
ghost use Rattle.crystal_cartan.specs.Types.{HasIndex};
ghost use Rattle.crystal_cartan.specs.Weights.{IsWeight, IsWithin};
ghost use Rattle.vector_crystals.specs.Letters.{IsLetter, letter_count, letter_at, letter_digit};
ghost use Rattle.spin_crystals.specs.Signs.{HasHalf, HasSpin, IsSigns, half_size, is_of_half, signs_at, signs_digit, vector_of};
ghost use Rattle.tensor_words.specs.Spaces.{factor_at, size_at, base_action, base_weight};

use crate::spaces::{Space, half_of};
use crystal_cartan::{Cartan, Weight};
use spin_crystals::{Half, Signs};
use vector_crystals::Letter;

/// The letter with this digit.
pub fn letter_of_digit(cartan: Cartan, digit: u16) -> Letter
    requires { digit < letter_count cartan }
    ensures value { result.0 ≡ letter_at cartan digit }
    ensures letter { IsLetter cartan result.0 }
{
    match vector_crystals::of_digit(cartan, u32::from(digit)) {
        Some(x) => x,
        None => unreachable!(),
    }
}

/// The digit of a letter, as words have it.
pub fn letter_digit(cartan: Cartan, x: Letter) -> u16
    requires { IsLetter cartan x.0 }
    ensures value { result ≡ letter_digit cartan x.0 }
    ensures below { result < letter_count cartan }
{
    let _size = vector_crystals::base_size(cartan);
    vector_crystals::digit(cartan, x) as u16
}

/// The vector of signs with this digit.
pub fn signs_of_digit(cartan: Cartan, half: Half, digit: u16) -> Signs
    requires half { HasHalf cartan half }
    requires digit { digit < half_size half cartan.rank }
    ensures value { vector_of result ≡ signs_at half cartan.rank digit }
    ensures element { IsSigns cartan result }
    ensures parity { IsTrue (is_of_half half (vector_of result)) }
    ensures spin { HasSpin cartan }
{
    match spin_crystals::of_digit(cartan, u32::from(digit), half) {
        Some(x) => x,
        None => unreachable!(),
    }
}

/// The digit of a vector of signs, as words have it.
pub fn signs_digit(cartan: Cartan, half: Half, x: Signs) -> u16
    requires half { HasHalf cartan half }
    requires element { IsSigns cartan x }
    requires parity { IsTrue (is_of_half half (vector_of x)) }
    ensures value { result ≡ signs_digit half (vector_of x) }
    ensures below { result < half_size half cartan.rank }
{
    let _size = spin_crystals::base_size(cartan, half);
    spin_crystals::digit(cartan, x, half) as u16
}

impl Space {
    /// How often e_i can be applied to the element with this digit of the factor at this place, counted from 0.
    pub fn digit_eps(&self, place: u8, digit: u16, i: u8) -> u32
        requires place { place < length self.now.factors }
        requires digit { digit < size_at self.now place }
        requires index { HasIndex self.now.cartan i }
        ensures value { result ≡ (base_action self.now.cartan i (factor_at self.now place)).eps digit }
        ensures small { result ≤ 2 }
    {
        let cartan = self.cartan();
        match half_of(self.factor(place)) {
            None => vector_crystals::eps(cartan, letter_of_digit(cartan, digit), i),
            Some(half) => spin_crystals::eps(cartan, signs_of_digit(cartan, half, digit), i),
        }
    }

    /// How often f_i can be applied to the element with this digit of the factor at this place, counted from 0.
    pub fn digit_phi(&self, place: u8, digit: u16, i: u8) -> u32
        requires place { place < length self.now.factors }
        requires digit { digit < size_at self.now place }
        requires index { HasIndex self.now.cartan i }
        ensures value { result ≡ (base_action self.now.cartan i (factor_at self.now place)).phi digit }
        ensures small { result ≤ 2 }
    {
        let cartan = self.cartan();
        match half_of(self.factor(place)) {
            None => vector_crystals::phi(cartan, letter_of_digit(cartan, digit), i),
            Some(half) => spin_crystals::phi(cartan, signs_of_digit(cartan, half, digit), i),
        }
    }

    /// f_i on the element with this digit of the factor at this place, counted from 0: its digit, or `None` for zero.
    pub fn digit_lower(&self, place: u8, digit: u16, i: u8) -> Option<u16>
        requires place { place < length self.now.factors }
        requires digit { digit < size_at self.now place }
        requires index { HasIndex self.now.cartan i }
        ensures value { result ≡ (base_action self.now.cartan i (factor_at self.now place)).lower digit }
        ensures below { IfSome result (λ d. d < size_at self.now place) }
    {
        let cartan = self.cartan();
        match half_of(self.factor(place)) {
            None => {
                let y = vector_crystals::lower(cartan, letter_of_digit(cartan, digit), i)?;
                Some(letter_digit(cartan, y))
            }
            Some(half) => {
                let y = spin_crystals::lower(cartan, signs_of_digit(cartan, half, digit), i)?;
                Some(signs_digit(cartan, half, y))
            }
        }
    }

    /// e_i on the element with this digit of the factor at this place, counted from 0: its digit, or `None` for zero.
    pub fn digit_raise(&self, place: u8, digit: u16, i: u8) -> Option<u16>
        requires place { place < length self.now.factors }
        requires digit { digit < size_at self.now place }
        requires index { HasIndex self.now.cartan i }
        ensures value { result ≡ (base_action self.now.cartan i (factor_at self.now place)).raise digit }
        ensures below { IfSome result (λ d. d < size_at self.now place) }
    {
        let cartan = self.cartan();
        match half_of(self.factor(place)) {
            None => {
                let y = vector_crystals::raise(cartan, letter_of_digit(cartan, digit), i)?;
                Some(letter_digit(cartan, y))
            }
            Some(half) => {
                let y = spin_crystals::raise(cartan, signs_of_digit(cartan, half, digit), i)?;
                Some(signs_digit(cartan, half, y))
            }
        }
    }

    /// The weight of the element with this digit of the factor at this place, counted from 0.
    #[tactic(auto, unfolding(crate::specs::Spaces::base_weight, crate::specs::Spaces::base_size))]
    pub fn digit_weight(&self, place: u8, digit: u16) -> Weight
        requires place { place < length self.now.factors }
        requires digit { digit < size_at self.now place }
        ensures value { result ≡ base_weight self.now.cartan (factor_at self.now place) digit }
        ensures size { IsWeight self.now.cartan result }
        ensures within { All (IsWithin 2) result }
    {
        let cartan = self.cartan();
        match half_of(self.factor(place)) {
            None => vector_crystals::weight(cartan, letter_of_digit(cartan, digit)),
            Some(half) => spin_crystals::weight(cartan, signs_of_digit(cartan, half, digit)),
        }
    }
}
