//! The vertices that are tops beside a weight.
ghost use Rattle.std.specs.Prelude.{◌≡◌, ℕ, ℤ, IfOk};
ghost use Rattle.crystal_cartan.specs.Types.{HasIndex};
ghost use Rattle.crystal_cartan.specs.Weights.{IsWeight, IsSmall, IsPairing, IsDominant};
ghost use Rattle.tensor_words.specs.Codes.{IsWord};
ghost use Rattle.crystal_subsets.specs.ProductTops.{is_top_beside, tops_beside};

use canonical_graph::Finished;
use crystal_cartan::Weight;
use crystal_streams::NoMemory;
use signature_rule::strings_of;
use std::alloc::Global;
use tensor_words::{Steps, Word};

/// The vertices x of which every eps_i is at most the pairing of a dominant weight with the simple coroot, in
/// ascending rank, each with the sum of the two weights. Where that weight is the weight of a top y, these are the x
/// for which x ⊗ y, or in Kashiwara's tensor order y ⊗ x, is a top, and the sums are the weights of these (Bump and
/// Schilling, Crystal Bases, 2017, section 2.3).
pub fn product_tops(
    alloc: Global,
    finished: &Finished,
    other_top: &Weight,
) -> Result<Vec<(u32, Weight)>, NoMemory>
    requires size { IsWeight finished.now.space.cartan other_top.now }
    requires small { IsSmall other_top.now }
    requires whole { (i : ℕ) → HasIndex finished.now.space.cartan i → (p : ℤ) × IsPairing finished.now.space.cartan other_top.now i p }
    requires dominant { IsDominant finished.now.space.cartan other_top.now }
    ensures { IfOk result (λ tops. tops.items ≡ tops_beside finished.now other_top.now) }
{
    let steps = finished.steps();
    let mut tops = Vec::new(alloc);
    'ranks: for rank in 0..finished.len() {
        let word = finished.word_at(rank);
        if is_top(steps, &word, other_top) {
            let weight = steps.weight(&word).plus(other_top);
            tops.push((rank, weight))?;
        }
    }
    Ok(tops)
}

/// Whether every eps_i of the word is at most the pairing of the weight with the simple coroot.
fn is_top(steps: &Steps, word: &Word, weight: &Weight) -> bool
    requires word { IsWord steps.now word.now }
    requires size { IsWeight steps.now.cartan weight.now }
    requires small { IsSmall weight.now }
    requires whole { (i : ℕ) → HasIndex steps.now.cartan i → (p : ℤ) × IsPairing steps.now.cartan weight.now i p }
    ensures { result ≡ is_top_beside steps.now weight.now word.now }
{
    let strings = strings_of(steps, word);
    let cartan = steps.cartan();
    'indices: for place in 0..cartan.rank() {
        if i32::from(strings.eps[place as usize]) > cartan.pairing(weight, place + 1) {
            return false;
        }
    }
    true
}
