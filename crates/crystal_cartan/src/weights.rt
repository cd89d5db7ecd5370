//! Weights with doubled coordinates.
ghost use Rattle.std.specs.Prelude.{◌≡◌, ℕ, ◌-◌, ◌≤◌, ◌<◌, pos, ◌+ℤ◌, length, slice_set, slice_index_or};
ghost use Rattle.crystal_cartan.specs.Weights.{zero_weight, coordinate, sum_of, difference_of, IsSmall};
ghost use Rattle.crystal_cartan.specs.Types.{coordinates};

use crate::types::Cartan;
use std::marker::Model;

/// A weight: up to nine coordinates, each doubled, so that the weights of spin elements are whole numbers.
#[derive(Clone, Copy, Debug, PartialEq, Eq)]
pub struct Weight {
    doubled: [i32; 9],
    size: u8,
}

impl Model for Weight {
    ghost use Rattle.crystal_cartan.specs.Fields.{weight_fields, weight_fields-take};
    ghost use Rattle.crystal_cartan.specs.Padded.{IsPadded};
    ghost use Rattle.std.specs.Prelude.{List, ℤ, pos, take};

    ghost Value = { List ℤ };

    ghost view = { λ w. take w.size w.doubled };

    ghost invariant = { λ w. IsPadded (pos 0) 9 w.size w.doubled };

    ghost inverse = { weight_fields };

    ghost inverse_ok = { weight_fields-take };
}

impl Weight {
    /// The weight with every coordinate 0.
    pub fn zero(cartan: Cartan) -> Weight
        ensures zero { result ≡ zero_weight cartan }
        ensures size { length result ≡ coordinates cartan }
        ensures small { IsSmall result }
    {
        Weight {
            doubled: [0; 9],
            size: cartan.size(),
        }
    }

    /// The j-th coordinate, from 1, doubled.
    pub fn doubled_at(&self, j: u8) -> i32
        requires { (1 ≤ j) × (j ≤ length self.now) }
        ensures { result ≡ coordinate self.now j }
    {
        self.doubled[(j - 1) as usize]
    }

    /// The weight with its j-th coordinate, from 1, changed to this doubled one.
    pub fn put(&self, j: u8, doubled: i32) -> Weight
        requires { (1 ≤ j) × (j ≤ length self.now) }
        ensures value { result ≡ slice_set self.now (j - 1) doubled }
        ensures size { length result ≡ length self.now }
    {
        let mut weight = *self;
        weight.doubled[(j - 1) as usize] = doubled;
        weight
    }

    /// The number of coordinates.
    pub fn coordinates(&self) -> u8
        ensures size { result ≡ length self.now }
        ensures few { result ≤ 9 }
    {
        self.size
    }

    /// The sum of two weights of one type, whose doubled coordinates are between -1,000 and 1,000.
    pub fn plus(&self, other: &Weight) -> Weight
        requires same { length other.now ≡ length self.now }
        requires small { IsSmall self.now }
        requires other_small { IsSmall other.now }
        ensures sum { result ≡ sum_of self.now other.now }
        ensures size { length result ≡ length self.now }
    {
        Weight {
            doubled: sums(&self.doubled, &other.doubled),
            size: self.size,
        }
    }

    /// The difference of two weights of one type, whose doubled coordinates are between -1,000 and 1,000.
    pub fn minus(&self, other: &Weight) -> Weight
        requires same { length other.now ≡ length self.now }
        requires small { IsSmall self.now }
        requires other_small { IsSmall other.now }
        ensures difference { result ≡ difference_of self.now other.now }
        ensures size { length result ≡ length self.now }
    {
        let mut difference = *self;
        'places: for place in 0..self.coordinates() {
            let j = place + 1;
            let left = self.doubled_at(j);
            let right = other.doubled_at(j);
            difference = difference.put(j, left - right);
        }
        difference
    }
}

/// The sums of two lists of coordinates, place by place, in a new array.
fn sums(left: &[i32; 9], right: &[i32; 9]) -> [i32; 9]
    requires left { IsSmall left.now }
    requires right { IsSmall right.now }
    ensures size { length result ≡ 9 }
    ensures sums { (k : ℕ) → k < 9 → slice_index_or result k (pos 0) ≡ slice_index_or left.now k (pos 0) +ℤ slice_index_or right.now k (pos 0) }
{
    let mut sums = [0; 9];
    'places: for place in 0..9 {
        sums[place] = left[place] + right[place];
    }
    sums
}
