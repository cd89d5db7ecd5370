//! The arrows of a finished graph, by ranks.
ghost use Rattle.std.specs.Prelude.{◌≡◌, ◌<◌, if◌then◌else◌, true, length, slice_index, IfOk};
ghost use Rattle.canonical_graph.specs.Graphs.{IsFinished, finished_graph};
ghost use Rattle.canonical_graph.specs.Tables.{KeepsTables, AreLowered};

use crate::lowering::Lowered;
use crate::turning::turned;
use std::alloc::{AllocError, Global};
use tensor_words::Steps;

/// The entry of an operator that gives zero.
pub(crate) const NO_TARGET: u32 = u32::MAX;

/// The ranks to which the operators lead, lowering and raising: a row for each vertex, with an entry for each index.
#[derive(Debug, Drop)]
pub(crate) struct Targets {
    pub(crate) lowered: Vec<u32>,
    pub(crate) raised: Vec<u32>,
    /// The lowering operators that do not give zero.
    pub(crate) arrows: u64,
}

impl Targets {
    /// The tables of the finished graph with these codes, from its lowering half: the raising operators are the lowering
    /// ones turned around.
    pub(crate) fn of(
        alloc: Global,
        steps: &Steps,
        codes: &[u64],
        lowered: Lowered,
    ) -> Result<Targets, AllocError>
        requires finished { IsFinished (finished_graph steps.now codes.now) }
        requires lowered { AreLowered (finished_graph steps.now codes.now) (length codes.now) lowered.ranks.items lowered.arrows }
        ensures { IfOk result (λ t. KeepsTables (finished_graph steps.now codes.now) t.lowered.items t.raised.items t.arrows) }
    {
        let Lowered { ranks, arrows } = lowered;
        let indices = steps.cartan().rank() as usize;
        let raised = turned(alloc, codes.len(), indices, ranks.as_slice())?;
        Ok(Targets {
            lowered: ranks,
            raised,
            arrows,
        })
    }

    /// The entry at this place of the table of one direction.
    pub(crate) fn entry(&self, down: bool, place: usize) -> u32
        requires lowered { place < length self.now.lowered.items }
        requires raised { place < length self.now.raised.items }
        ensures { result ≡ slice_index (if down then self.now.lowered.items else self.now.raised.items) place }
    {
        if down {
            self.lowered[place]
        } else {
            self.raised[place]
        }
    }
}
