//! The lowering half of a finished graph's arrows.
ghost use Rattle.std.specs.Prelude.{◌≡◌, ℕ, ◌+◌, ◌*◌, ◌^◌, ◌<◌, ◌≤◌, [], ◌∷◌, ◌++◌, if◌then◌else◌, is_some, true, length, slice_index, IfOk, OnOk, All};
ghost use Rattle.std.specs.Option.{option_and_then};
ghost use Rattle.std.specs.List.Sorted.{IsStrictlyIncreasing};
ghost use Rattle.canonical_graph.specs.Graphs.{IsFinished, finished_graph, rank_in, arrows_from};
ghost use Rattle.canonical_graph.specs.Tables.{AreLowered, entry_of, rank_row};

use crate::numbering::rank_among;
use crate::tables::NO_TARGET;
use signature_rule::{lowered_code, places_of};
use std::alloc::{AllocError, Global};
use tensor_words::Steps;

/// The ranks to which the lowering operators lead: a row for each vertex, with an entry for each index, the rank to which it
/// leads or 2^32 - 1 for zero.
#[derive(Debug, Drop)]
pub struct Lowered {
    pub ranks: Vec<u32>,
    /// The entries that lead somewhere.
    pub arrows: u64,
}

/// The lowering half of the finished graph with these codes.
pub(crate) fn lowered_of(alloc: Global, steps: &Steps, codes: &[u64]) -> Result<Lowered, AllocError>
    requires { IsFinished (finished_graph steps.now codes.now) }
    ensures { IfOk result (λ t. AreLowered (finished_graph steps.now codes.now) (length codes.now) t.ranks.items t.arrows) }
{
    let mut lowered = Lowered::with_room(alloc, codes.len(), steps.cartan().rank())?;
    'ranks: for rank in 0..codes.len() {
        lowered.push_row(steps, codes, rank)?;
    }
    Ok(lowered)
}

impl Lowered {
    /// Empty tables, with room for so many vertices and indices.
    pub fn with_room(alloc: Global, vertices: usize, indices: u8) -> Result<Lowered, AllocError>
        requires vertices { vertices < 2 ^ 32 }
        requires indices { indices ≤ 8 }
        ensures ranks { IfOk result (λ t. t.ranks.items ≡ []) }
        ensures arrows { IfOk result (λ t. t.arrows ≡ 0) }
    {
        Ok(Lowered {
            ranks: Vec::with_capacity(alloc, vertices * indices as usize)?,
            arrows: 0,
        })
    }

    /// Appends the row of the vertex of this rank.
    fn push_row(&mut self, steps: &Steps, codes: &[u64], rank: usize) -> Result<(), AllocError>
        requires finished { IsFinished (finished_graph steps.now codes.now) }
        requires rank { rank < length codes.now }
        requires room { self.old.arrows ≤ 2 ^ 40 }
        ensures ranks { OnOk result (self.new.ranks.items ≡ self.old.ranks.items ++ rank_row (finished_graph steps.now codes.now) rank true steps.now.cartan.rank) }
        ensures arrows { OnOk result (self.new.arrows ≡ self.old.arrows + arrows_from (finished_graph steps.now codes.now) rank) }
        ensures few { OnOk result (self.new.arrows ≤ self.old.arrows + 8) }
    {
        let code = codes[rank];
        let word = steps.word(code);
        let places = places_of(steps, &word);
        'indices: for place in 0..steps.cartan().rank() {
            let lowered = lowered_code(steps, code, &word, &places, place + 1);
            self.push(target_of(codes, lowered))?;
        }
        Ok(())
    }

    /// Appends the entry of one index, at which the operator leads to this rank.
    pub fn push(&mut self, target: Option<u32>) -> Result<(), AllocError>
        requires room { self.old.arrows ≤ 2 ^ 41 }
        ensures ranks { OnOk result (self.new.ranks.items ≡ self.old.ranks.items ++ entry_of target ∷ []) }
        ensures arrows { OnOk result (self.new.arrows ≡ self.old.arrows + (if is_some target then 1 else 0)) }
    {
        self.ranks.push(target.unwrap_or(NO_TARGET))?;
        self.arrows += u64::from(target.is_some());
        Ok(())
    }
}

/// The rank of the code that an operator gives, `None` for zero.
fn target_of(codes: &[u64], next: Option<u64>) -> Option<u32>
    requires ascending { IsStrictlyIncreasing codes.now }
    requires few { length codes.now < 2 ^ 32 }
    ensures { result ≡ option_and_then (rank_in codes.now) next }
{
    rank_among(codes, next?)
}
