//! Tensor products of base crystals.
ghost use Rattle.std.specs.Prelude.{◌≡◌, ℕ, ◌≤◌, ◌<◌, ◌^◌, ◌-◌, min, length, map, IsTrue, Option, None, IfOk};
ghost use Rattle.std.specs.List.{list_all};
ghost use Rattle.crystal_cartan.specs.Types.{IsCartan};
ghost use Rattle.crystal_cartan.specs.Padded.{padded};
ghost use Rattle.tensor_words.specs.Spaces.{IsSpace, space_of, has_factor, half_of, base_size, product, wrong_place, size, factor_at, size_at, ordered};

use crystal_cartan::{Cartan, Kind};
use spin_crystals::Half;
use std::marker::Model;

/// The most factors of a space.
const MOST_FACTORS: usize = 40;

/// The most words of a space.
pub const MOST_WORDS: u64 = 1 << 63;

/// One factor of a tensor product: the vector crystal, the spin crystal of type B, or one of the two of type D.
#[derive(Clone, Copy, Debug, PartialEq, Eq)]
pub enum Factor {
    Vector,
    Spin,
    SpinPlus,
    SpinMinus,
}

/// The order in which the tensor product rule takes the two factors of x ⊗ y. The literature has both: a word in one
/// of them behaves as the word read from right to left in the other.
#[derive(Clone, Copy, Debug, PartialEq, Eq)]
pub enum Order {
    /// As in Bump and Schilling, Crystal Bases (2017), section 2.3: f(x ⊗ y) = f(x) ⊗ y if phi(y) ≤ eps(x), else
    /// x ⊗ f(y).
    Standard,
    /// As in Kashiwara's papers (Hong and Kang, Introduction to Quantum Groups and Crystal Bases, 2002, section 4.4):
    /// f(x ⊗ y) = x ⊗ f(y) if phi(x) ≤ eps(y), else f(x) ⊗ y.
    Kashiwara,
}

/// Why a list of factors makes no space.
#[derive(Clone, Copy, Debug, PartialEq, Eq)]
pub enum SpaceFault {
    /// The list is empty.
    NoFactor,
    /// There are more than 40 factors.
    TooManyFactors,
    /// The type does not have the factor at this place, counted from 1.
    WrongFactor { place: u32 },
    /// There are more than 2^63 words.
    TooWide,
}

/// A tensor product of base crystals of one Cartan type, in one of the two tensor orders: 1 to 40 factors, with at
/// most 2^63 words.
#[derive(Clone, Copy, Debug, PartialEq, Eq)]
pub struct Space {
    cartan: Cartan,
    factors: [Factor; 40],
    count: u8,
    order: Order,
}

impl Model for Space {
    ghost use Rattle.std.specs.Prelude.{take};
    ghost use Rattle.crystal_cartan.specs.Types.{IsCartan};
    ghost use Rattle.crystal_cartan.specs.Padded.{IsPadded};
    ghost use Rattle.tensor_words.specs.declared.spaces.Factor.TheVariants.{Vector};
    ghost use Rattle.tensor_words.specs.Spaces.{SpaceType, IsSpace, tensor_space, ordered};
    ghost use Rattle.tensor_words.specs.SpaceFields.{space_fields, space_fields-view};

    ghost Value = { SpaceType };

    ghost view = { λ s. ordered s.order (tensor_space s.cartan (take s.count s.factors)) };

    ghost invariant = { λ s. IsSpace (ordered s.order (tensor_space s.cartan (take s.count s.factors))) × IsPadded Vector 40 s.count s.factors };

    ghost inverse = { space_fields };

    ghost inverse_ok = { space_fields-view };
}

impl Space {
    #[tactic(auto, unfolding(crate::specs::Spaces::space_of))]
    /// The tensor product of these factors, from left to right, in the standard order, or the first fault that applies.
    pub fn new(cartan: Cartan, factors: &[Factor]) -> Result<Space, SpaceFault>
        ensures exact { result ≡ space_of cartan factors.now }
        ensures space { IfOk result IsSpace }
    {
        let _rank = cartan.rank();
        if factors.is_empty() {
            return Err(SpaceFault::NoFactor);
        }
        if factors.len() > MOST_FACTORS {
            return Err(SpaceFault::TooManyFactors);
        }
        if let Some(place) = first_wrong_factor(cartan.kind(), factors) {
            return Err(SpaceFault::WrongFactor { place });
        }
        if capped_size(cartan, factors) > MOST_WORDS {
            return Err(SpaceFault::TooWide);
        }
        Ok(Space {
            cartan,
            factors: padded_factors(factors),
            count: factors.len() as u8,
            order: Order::Standard,
        })
    }

    /// The same tensor product in this order.
    pub fn ordered(self, order: Order) -> Space
        ensures { result ≡ ordered order self }
    {
        Space { order, ..self }
    }

    /// The tensor order.
    pub fn order(&self) -> Order
        ensures { result ≡ self.now.order }
    {
        self.order
    }

    /// The Cartan type of the factors.
    pub fn cartan(&self) -> Cartan
        ensures cartan { result ≡ self.now.cartan }
        ensures space { IsSpace self.now }
    {
        self.cartan
    }

    /// The number of factors, 1 to 40.
    pub fn count(&self) -> u8
        ensures count { result ≡ length self.now.factors }
        ensures space { IsSpace self.now }
    {
        self.count
    }

    /// The factor at this place, counted from 0.
    pub fn factor(&self, place: u8) -> Factor
        requires { place < length self.now.factors }
        ensures factor { result ≡ factor_at self.now place }
        ensures had { IsTrue (has_factor self.now.cartan.kind result) }
        ensures space { IsSpace self.now }
    {
        self.factors[place as usize]
    }

    /// The number of words.
    pub fn size(&self) -> u64
        ensures size { result ≡ size self.now }
        ensures space { IsSpace self.now }
    {
        capped_size(self.cartan, &self.factors[..self.count as usize])
    }

    /// The number of elements of the factor at this place, counted from 0; the digits there are below it.
    pub fn base_size(&self, place: u8) -> u32
        requires { place < length self.now.factors }
        ensures size { result ≡ size_at self.now place }
        ensures some { 1 ≤ result }
        ensures few { result ≤ 256 }
        ensures space { IsSpace self.now }
    {
        size_of_factor(self.cartan, self.factor(place))
    }
}

/// Whether the kind has this factor.
fn has_factor(kind: Kind, factor: Factor) -> bool
    ensures { result ≡ has_factor kind factor }
{
    match factor {
        Factor::Vector => true,
        Factor::Spin => kind == Kind::B,
        Factor::SpinPlus | Factor::SpinMinus => kind == Kind::D,
    }
}

/// The half of the spin crystal that a factor is, or `None` for the vector crystal.
pub(crate) fn half_of(factor: Factor) -> Option<Half>
    ensures { result ≡ half_of factor }
{
    match factor {
        Factor::Vector => None,
        Factor::Spin => Some(Half::Whole),
        Factor::SpinPlus => Some(Half::Plus),
        Factor::SpinMinus => Some(Half::Minus),
    }
}

/// The first place, counted from 1, with a factor that the kind does not have.
fn first_wrong_factor(kind: Kind, factors: &[Factor]) -> Option<u32>
    requires { length factors.now ≤ 40 }
    ensures place { result ≡ wrong_place kind 1 factors.now }
    ensures had { result ≡ None → IsTrue (list_all (has_factor kind) factors.now) }
{
    for (place, factor) in factors.iter().enumerate() {
        if !has_factor(kind, *factor) {
            return Some(place as u32 + 1);
        }
    }
    None
}

/// The number of elements of a factor.
#[tactic(auto, unfolding(crate::specs::Spaces::base_size))]
fn size_of_factor(cartan: Cartan, factor: Factor) -> u32
    requires classical { IsCartan cartan }
    requires had { IsTrue (has_factor cartan.kind factor) }
    ensures size { result ≡ base_size cartan factor }
    ensures some { 1 ≤ result }
    ensures few { result ≤ 256 }
{
    match half_of(factor) {
        None => vector_crystals::base_size(cartan),
        Some(half) => spin_crystals::base_size(cartan, half),
    }
}

/// The product of the factors' sizes, or `u64::MAX` where it is larger.
fn capped_size(cartan: Cartan, factors: &[Factor]) -> u64
    requires classical { IsCartan cartan }
    requires had { IsTrue (list_all (has_factor cartan.kind) factors.now) }
    ensures { result ≡ min (product (map (base_size cartan) factors.now)) (2 ^ 64 - 1) }
{
    let mut size = 1u64;
    for factor in factors {
        size = size.saturating_mul(size_of_factor(cartan, *factor) as u64);
    }
    size
}

/// The factors, filled up to 40.
fn padded_factors(factors: &[Factor]) -> [Factor; 40]
    requires { length factors.now ≤ 40 }
    ensures { result ≡ padded Factor.Vector 40 factors.now }
{
    let mut all = [Factor::Vector; 40];
    all[..factors.len()].copy_from_slice(factors);
    all
}
