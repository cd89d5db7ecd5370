//! The character of a finished graph.
ghost use Rattle.std.specs.Prelude.{◌≡◌, ℕ, IfOk};
ghost use Rattle.crystal_characters.specs.Characters.{IsCharacter, tally, weights_of};

use crate::tallies::{Character, tally_of};
use canonical_graph::Finished;
use crystal_cartan::Weight;
use crystal_streams::NoMemory;
use std::alloc::Global;

/// The character of a finished graph: the weights that occur with their multiplicities, in falling lexicographic
/// order of coordinates.
pub fn character(alloc: Global, finished: &Finished) -> Result<Character, NoMemory>
    ensures character { IfOk result (IsCharacter finished.now) }
    ensures tally { IfOk result (λ c. c ≡ tally (weights_of finished.now)) }
{
    tally_of(alloc, weights(alloc, finished)?)
}

/// The weights of the vertices, in ascending rank.
fn weights(alloc: Global, finished: &Finished) -> Result<Vec<Weight>, NoMemory>
    ensures { IfOk result (λ list. list.items ≡ weights_of finished.now) }
{
    let mut list = Vec::new(alloc);
    'ranks: for rank in 0..finished.len() {
        let word = finished.word_at(rank);
        list.push(finished.steps().weight(&word))?;
    }
    Ok(list)
}
