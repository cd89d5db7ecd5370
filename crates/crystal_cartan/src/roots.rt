//! Simple roots, pairings with simple coroots and reflections.
ghost use Rattle.std.specs.Prelude.{◌≡◌, ℕ, ◌≤◌, length, ℤ, IsTrue, ◌↔◌};
ghost use Rattle.crystal_cartan.specs.Types.{HasIndex, coordinates};
ghost use Rattle.crystal_cartan.specs.Weights.{root, root_at, unit_at, twice_pairing, IsPairing, reflection, IsWeight, IsWithin, IsSmall, IsDominant};

use crate::types::{Cartan, Kind};
use crate::weights::Weight;

/// The j-th coordinate of the i-th unit vector, not doubled.
fn unit_at(i: u8, j: u8) -> i32
    ensures { result ≡ unit_at i j }
{
    if i == j { 1 } else { 0 }
}

impl Cartan {
    /// The simple root α_i. Its doubled coordinates are between -4 and 4.
    pub fn root(&self, i: u8) -> Weight
        requires { HasIndex self.now i }
        ensures root { result ≡ root self.now i }
        ensures size { length result ≡ coordinates self.now }
        ensures small { IsSmall result }
    {
        let mut root = Weight::zero(*self);
        'places: for place in 0..self.size() {
            let at = self.root_at(i, place + 1);
            root = root.put(place + 1, at + at);
        }
        root
    }

    /// The pairing of the weight with the simple coroot of index i, where it is a whole number.
    pub fn pairing(&self, weight: &Weight, i: u8) -> i32
        requires index { HasIndex self.now i }
        requires size { IsWeight self.now weight.now }
        requires small { IsSmall weight.now }
        requires whole { (p : ℤ) × IsPairing self.now weight.now i p }
        ensures { IsPairing self.now weight.now i result }
    {
        self.twice_pairing(weight, i) / 2
    }

    /// The simple reflection s_i of the weight: the weight less its pairing with the coroot times the root α_i.
    pub fn reflect(&self, weight: &Weight, i: u8) -> Weight
        requires index { HasIndex self.now i }
        requires size { IsWeight self.now weight.now }
        requires small { IsSmall weight.now }
        ensures reflected { result ≡ reflection self.now weight.now i }
        ensures size { length result ≡ coordinates self.now }
    {
        let twice = self.twice_pairing(weight, i);
        let mut reflected = *weight;
        'places: for place in 0..weight.coordinates() {
            let j = place + 1;
            let at = self.root_at(i, j);
            let change = twice * at;
            reflected = reflected.put(j, weight.doubled_at(j) - change);
        }
        reflected
    }

    /// Whether no pairing of the weight with a simple coroot is negative.
    pub fn is_dominant(&self, weight: &Weight) -> bool
        requires size { IsWeight self.now weight.now }
        requires small { IsSmall weight.now }
        ensures { IsTrue result ↔ IsDominant self.now weight.now }
    {
        'indices: for place in 0..self.rank() {
            if self.twice_pairing(weight, place + 1) < 0 {
                return false;
            }
        }
        true
    }

    /// The j-th coordinate of the simple root α_i, not doubled.
    fn root_at(&self, i: u8, j: u8) -> i32
        requires index { HasIndex self.now i }
        ensures value { result ≡ root_at self.now i j }
        ensures small { IsWithin 2 result }
    {
        let last = self.rank();
        if i < last {
            return unit_at(i, j) - unit_at(i + 1, j);
        }
        match self.kind() {
            Kind::A => unit_at(last, j) - unit_at(last + 1, j),
            Kind::B => unit_at(last, j),
            Kind::C => unit_at(last, j) + unit_at(last, j),
            Kind::D => unit_at(last - 1, j) + unit_at(last, j),
        }
    }

    /// Twice the pairing of the weight with the simple coroot of index i.
    #[tactic(auto, unfolding(crate::specs::Weights::twice_pairing))]
    fn twice_pairing(&self, weight: &Weight, i: u8) -> i32
        requires index { HasIndex self.now i }
        requires size { IsWeight self.now weight.now }
        requires small { IsSmall weight.now }
        ensures value { result ≡ twice_pairing self.now weight.now i }
        ensures small { IsWithin 2000 result }
    {
        let last = self.rank();
        if i < last {
            return weight.doubled_at(i) - weight.doubled_at(i + 1);
        }
        match self.kind() {
            Kind::A => weight.doubled_at(last) - weight.doubled_at(last + 1),
            Kind::B => weight.doubled_at(last) + weight.doubled_at(last),
            Kind::C => weight.doubled_at(last),
            Kind::D => weight.doubled_at(last - 1) + weight.doubled_at(last),
        }
    }
}
