//! How often each weight occurs.
ghost use Rattle.std.specs.Prelude.{◌≡◌, ◌<◌, ◌^◌, ◌-◌, ℕ, length, IfOk, OnOk, slice_index_or, All};
ghost use Rattle.std.specs.declared.cmp.Ordering.TheVariants.{Greater};
ghost use Rattle.crystal_characters.specs.declared.tallies.Multiplicity.{Multiplicity as Listed};
ghost use Rattle.crystal_characters.specs.Characters.{tally, counted, weight_order, IsFalling};

use crate::weights::compare;
use crystal_cartan::Weight;
use crystal_streams::NoMemory;
use std::alloc::Global;
use std::marker::Model;

/// A weight and how often it occurs.
#[derive(Debug, Drop)]
pub struct Multiplicity {
    pub weight: Weight,
    pub times: u64,
}

/// Weights in falling lexicographic order of their coordinates, each with the number of its occurrences.
#[derive(Debug, Drop)]
pub struct Character {
    list: Vec<Multiplicity>,
}

impl Model for Character {
    ghost use Rattle.std.specs.Prelude.{List};
    ghost use Rattle.crystal_characters.specs.declared.tallies.Multiplicity.{Multiplicity};

    ghost Value = { List Multiplicity };

    ghost view = { λ c. c.list.items };
}

impl Character {
    /// The number of weights.
    pub fn len(&self) -> usize
        ensures { result ≡ length self.now }
    {
        self.list.len()
    }

    /// The weight at this place, counted from 0.
    pub fn weight_at(&self, k: usize) -> Weight
        requires { k < length self.now }
        ensures { (d : Listed) → result ≡ (slice_index_or self.now k d).weight }
    {
        self.list[k].weight
    }

    /// How often the weight at this place, counted from 0, occurs.
    pub fn times_at(&self, k: usize) -> u64
        requires { k < length self.now }
        ensures { (d : Listed) → result ≡ (slice_index_or self.now k d).times }
    {
        self.list[k].times
    }
}

/// How often each of these weights occurs.
pub(crate) fn tally_of(alloc: Global, mut weights: Vec<Weight>) -> Result<Character, NoMemory>
    ensures { IfOk result (λ c. c ≡ tally weights.items) }
{
    weights.sort_unstable_by(|left, right| compare(right, left));
    let mut list = Vec::new(alloc);
    'weights: for weight in &weights {
        count(&mut list, weight)?;
    }
    Ok(Character { list })
}

/// Counts one more occurrence of a weight that is not above any weight of a falling list.
fn count(list: &mut Vec<Multiplicity>, weight: &Weight) -> Result<(), NoMemory>
    requires falling { IsFalling list.old.items }
    requires least { All (λ m. weight_order weight.now m.weight ≡ Greater → ⊥) list.old.items }
    requires few { All (λ m. m.times < 2 ^ 64 - 1) list.old.items }
    ensures { OnOk result (list.new.items ≡ counted list.old.items weight.now) }
{
    let len = list.len();
    if len > 0 && compare(weight, &list[len - 1].weight).is_eq() {
        list[len - 1].times += 1;
    } else {
        list.push(Multiplicity {
            weight: *weight,
            times: 1,
        })?;
    }
    Ok(())
}
