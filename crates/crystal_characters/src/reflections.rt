//! Crystal reflections.
ghost use Rattle.std.specs.Prelude.{◌≡◌, ℕ, ◌<◌, length, Some, IfSome};
ghost use Rattle.crystal_cartan.specs.Types.{HasIndex};
ghost use Rattle.crystal_cartan.specs.Weights.{reflection};
ghost use Rattle.tensor_words.specs.Operators.{IsArrow};
ghost use Rattle.crystal_characters.specs.Characters.{vertex_weight};
ghost use Rattle.crystal_characters.specs.Reflections.{reflection_rank, repeated_rank};

use canonical_graph::Finished;
use crystal_cartan::Arrow;
use signature_rule::word_laws;

/// The crystal reflection of a vertex at i: f_i applied as often as the pairing of its weight with the simple coroot
/// says, or e_i where the pairing is negative. It reflects the weight, and takes its image back to the vertex.
pub fn reflect(finished: &Finished, rank: u32, i: u8) -> u32
    requires rank { rank < length finished.now.codes }
    requires index { HasIndex finished.now.space.cartan i }
    ensures image { reflection_rank finished.now i rank ≡ Some result }
    ensures below { result < length finished.now.codes }
    ensures weight { vertex_weight finished.now result
        ≡ reflection finished.now.space.cartan (vertex_weight finished.now rank) i }
    ensures back { reflection_rank finished.now i result ≡ Some rank }
{
    let space = finished.space();
    let word = finished.word_at(rank);
    word_laws(space, &word, i);
    let weight = space.weight(&word);
    let pairing = space.cartan().pairing(&weight, i);
    let arrow = Arrow {
        down: pairing >= 0,
        index: i,
    };
    match repeat(finished, rank, arrow, pairing.unsigned_abs()) {
        Some(image) => image,
        None => unreachable!(),
    }
}

/// The vertex to which an operator leads when it is applied this often, `None` where some step gives zero.
fn repeat(finished: &Finished, rank: u32, arrow: Arrow, times: u32) -> Option<u32>
    requires rank { rank < length finished.now.codes }
    requires arrow { IsArrow finished.now.space arrow }
    ensures target { result ≡ repeated_rank finished.now arrow times rank }
    ensures below { IfSome result (λ target. target < length finished.now.codes) }
{
    let _count = finished.len();
    let mut at = rank;
    'steps: for _ in 0..times {
        let Some(next) = finished.arrow_at(at, arrow) else {
            return None;
        };
        at = next;
    }
    Some(at)
}
