//! Finished graphs.
ghost use Rattle.std.specs.Prelude.{◌≡◌, ℕ, ◌^◌, ◌<◌, All, length, IfOk, IfSome};
ghost use Rattle.std.specs.List.Sorted.{IsStrictlyIncreasing};
ghost use Rattle.tensor_words.specs.Spaces.{IsSpace, size};
ghost use Rattle.tensor_words.specs.Codes.{IsWord};
ghost use Rattle.tensor_words.specs.Operators.{IsArrow};
ghost use Rattle.canonical_graph.specs.Graphs.{IsFinished, IsClosedList, finished_graph, code_at, vertex_word, rank_in, target_rank, arrow_count};
ghost use Rattle.canonical_graph.specs.Tables.{KeepsTables, AreLowered};

use crate::lowering::{Lowered, lowered_of};
use crate::numbering::rank_among;
use crate::tables::{NO_TARGET, Targets};
use crystal_cartan::Arrow;
use crystal_streams::NoMemory;
use std::alloc::{AllocError, Global};
use std::marker::Model;
use tensor_words::{Codes, Space, Steps, Word};

/// A finished graph: words of a space that are closed under all operators, in ascending order of their codes.
#[derive(Debug, Drop)]
pub struct Finished {
    steps: Steps,
    codes: Vec<u64>,
    targets: Targets,
}

impl Model for Finished {
    ghost use Rattle.canonical_graph.specs.Graphs.{FinishedType, finished_graph};
    ghost use Rattle.canonical_graph.specs.Tables.{KeepsTables};

    ghost Value = { FinishedType };

    ghost view = { λ f. finished_graph f.steps f.codes.items };

    ghost invariant = { λ f. KeepsTables (finished_graph f.steps f.codes.items) f.targets.lowered.items f.targets.raised.items f.targets.arrows };
}

impl Finished {
    /// The graph of these codes.
    pub fn of(alloc: Global, space: Space, codes: Codes) -> Result<Finished, NoMemory>
        requires ascending { IsStrictlyIncreasing codes }
        requires below { All (λ c. c < size space) codes }
        requires few { length codes < 2 ^ 32 }
        requires closed { IsClosedList space codes }
        ensures { IfOk result (λ f. f ≡ finished_graph space codes) }
    {
        let _space = space.cartan();
        let Ok(list) = codes.as_slice().to_vec(alloc) else {
            return Err(NoMemory);
        };
        match finish(alloc, space, list) {
            Ok(graph) => Ok(graph),
            Err(_) => Err(NoMemory),
        }
    }

    /// The graph of these codes, whose lowering half is at hand: the raising operators are the lowering ones turned around.
    pub fn of_lowered(
        alloc: Global,
        steps: Steps,
        codes: Vec<u64>,
        lowered: Lowered,
    ) -> Result<Finished, AllocError>
        requires finished { IsFinished (finished_graph steps codes.items) }
        requires lowered { AreLowered (finished_graph steps codes.items) (length codes.items) lowered.ranks.items lowered.arrows }
        ensures { IfOk result (λ f. f ≡ finished_graph steps codes.items) }
    {
        let targets = Targets::of(alloc, &steps, codes.as_slice(), lowered)?;
        Ok(Finished {
            steps,
            codes,
            targets,
        })
    }

    /// The number of vertices.
    pub fn len(&self) -> u32
        ensures len { result ≡ length self.now.codes }
        ensures finished { IsFinished self.now }
    {
        self.codes.len() as u32
    }

    /// The number of arrows: of the vertices and indices at which the lowering operator does not give zero.
    pub fn arrows(&self) -> u64
        ensures arrows { result ≡ arrow_count self.now }
        ensures finished { IsFinished self.now }
    {
        self.targets.arrows
    }

    /// The space of the words.
    pub fn space(&self) -> &Space
        ensures space { result.now ≡ self.now.space }
        ensures finished { IsFinished self.now }
    {
        self.steps.space()
    }

    /// The space of the words with its tables.
    pub fn steps(&self) -> &Steps
        ensures space { result.now ≡ self.now.space }
        ensures finished { IsFinished self.now }
    {
        &self.steps
    }

    /// The code of a vertex.
    pub fn code_at(&self, rank: u32) -> u64
        requires { rank < length self.now.codes }
        ensures code { result ≡ code_at self.now rank }
        ensures below { result < size self.now.space }
        ensures finished { IsFinished self.now }
    {
        self.codes[rank as usize]
    }

    /// The rank of the vertex with this code, `None` where there is none.
    pub fn rank_of(&self, code: u64) -> Option<u32>
        ensures rank { result ≡ rank_in self.now.codes code }
        ensures below { IfSome result (λ rank. rank < length self.now.codes) }
        ensures finished { IsFinished self.now }
    {
        rank_among(self.codes.as_slice(), code)
    }

    /// The rank to which the operator of an arrow leads from a vertex, `None` where it gives zero.
    pub fn arrow_at(&self, rank: u32, arrow: Arrow) -> Option<u32>
        requires rank { rank < length self.now.codes }
        requires arrow { IsArrow self.now.space arrow }
        ensures target { result ≡ target_rank self.now rank arrow }
        ensures below { IfSome result (λ target. target < length self.now.codes) }
        ensures finished { IsFinished self.now }
    {
        let indices = self.steps.cartan().rank() as usize;
        let place = rank as usize * indices + (arrow.index as usize - 1);
        let target = self.targets.entry(arrow.down, place);
        if target == NO_TARGET {
            None
        } else {
            Some(target)
        }
    }

    /// The word of a vertex.
    pub fn word_at(&self, rank: u32) -> Word
        requires { rank < length self.now.codes }
        ensures word { result ≡ vertex_word self.now rank }
        ensures is_word { IsWord self.now.space result }
        ensures finished { IsFinished self.now }
    {
        self.steps.word(self.code_at(rank))
    }
}

/// The graph of these codes.
fn finish(alloc: Global, space: Space, codes: Vec<u64>) -> Result<Finished, AllocError>
    requires { IsFinished (finished_graph space codes.items) }
    ensures { IfOk result (λ f. f ≡ finished_graph space codes.items) }
{
    let steps = Steps::new(alloc, space)?;
    let lowered = lowered_of(alloc, &steps, codes.as_slice())?;
    Finished::of_lowered(alloc, steps, codes, lowered)
}
