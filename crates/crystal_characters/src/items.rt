//! The items with which statistics are fed.
ghost use Rattle.std.specs.Prelude.{◌≡◌, ◌<◌, ◌≤◌, ℕ, length, slice_index};
ghost use Rattle.crystal_characters.specs.Items.{item_at, IsFit};

use canonical_graph::Finished;
use crystal_cartan::{Cartan, Weight};
use signature_rule::strings_of;

/// What a statistic is told of a vertex: its type, its rank in the finished graph, the code and the weight of its
/// word, and its eps and phi, those of the index i at place i - 1 and 0 past the rank of the type.
#[derive(Clone, Copy, Debug, PartialEq, Eq)]
pub struct Item {
    pub cartan: Cartan,
    pub rank: u32,
    pub code: u64,
    pub weight: Weight,
    pub eps: [u32; 8],
    pub phi: [u32; 8],
}

/// The item of a vertex, from one decoding of its code and one pass over its word.
#[tactic(auto, unfolding(crate::specs::Items::item_at))]
pub(crate) fn item_of(finished: &Finished, rank: u32) -> Item
    requires { rank < length finished.now.codes }
    ensures item { result ≡ item_at finished.now rank }
    ensures fit { IsFit result }
{
    let steps = finished.steps();
    let cartan = steps.cartan();
    let word = finished.word_at(rank);
    let strings = strings_of(steps, &word);
    Item {
        cartan,
        rank,
        code: finished.code_at(rank),
        weight: steps.weight(&word),
        eps: first_entries(&strings.eps, cartan.rank()),
        phi: first_entries(&strings.phi, cartan.rank()),
    }
}

/// So many of the entries, and 0 behind them.
fn first_entries(entries: &[u8; 8], count: u8) -> [u32; 8]
    requires { count ≤ 8 }
    ensures len { length result ≡ 8 }
    ensures first { (k : ℕ) → k < count → slice_index result k ≡ slice_index entries.now k }
    ensures rest { (k : ℕ) → count ≤ k → slice_index result k ≡ 0 }
{
    let mut list = [0; 8];
    'entries: for k in 0..count as usize {
        list[k] = u32::from(entries[k]);
    }
    list
}
