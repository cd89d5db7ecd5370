//! Demazure subsets.
ghost use Rattle.std.specs.Prelude.{◌≡◌, ℕ, ◌^◌, ◌<◌, ◌↔◌, length, All, Contains, IfOk};
ghost use Rattle.std.specs.List.Sorted.{IsStrictlyIncreasing};
ghost use Rattle.crystal_cartan.specs.Types.{HasIndex};
ghost use Rattle.canonical_graph.specs.Graphs.{code_at, target_rank, lowering};
ghost use Rattle.crystal_subsets.specs.DemazureSubsets.{Demazure};
ghost use Rattle.crystal_subsets.specs.Marks.{is_marked, marked_on, AreMarkedFrom, marked_ranks};

use canonical_graph::Finished;
use crystal_cartan::Arrow;
use crystal_streams::NoMemory;
use indexmap::IndexSet;
use std::alloc::Global;

/// The Demazure subset of a list of indices over the vertex of this rank, as ranks in ascending order. It has the
/// vertices that are made of that vertex by powers of the lowering operators, those of the last index first. Over a
/// highest weight element and along a reduced word it is Kashiwara's Demazure crystal (Bump and Schilling, Crystal
/// Bases, 2017, chapter 13).
pub fn demazure(
    alloc: Global,
    finished: &Finished,
    rank: u32,
    indices: &[u8],
) -> Result<IndexSet<u32>, NoMemory>
    requires rank { rank < length finished.now.codes }
    requires indices { All (HasIndex finished.now.space.cartan) indices.now }
    ensures ascending { IfOk result (λ ranks. IsStrictlyIncreasing ranks.keys) }
    // a rank is among them exactly where the vertex is in the Demazure subset
    ensures members { IfOk result (λ ranks. (r : ℕ) → Contains ranks.keys r
        ↔ ((r < length finished.now.codes)
        × Demazure finished.now.space (code_at finished.now rank) indices.now (code_at finished.now r))) }
    // and every word of the subset is a vertex
    ensures whole { (x : ℕ) → Demazure finished.now.space (code_at finished.now rank) indices.now x
        → Contains finished.now.codes x }
{
    let mut marks = vec![in alloc; false; finished.len() as usize]?;
    marks[rank as usize] = true;
    let mut place = indices.len();
    'indices: while place > 0 {
        place -= 1;
        lower_marks(finished, indices[place], &mut marks);
    }
    marked_ranks(alloc, &marks)
}

/// Marks what f_i makes of the marked vertices when it is applied again and again. An arrow leads to a larger code,
/// so that one pass in ascending rank suffices.
fn lower_marks(finished: &Finished, index: u8, marks: &mut [bool])
    requires marks { length marks.old ≡ length finished.now.codes }
    requires index { HasIndex finished.now.space.cartan index }
    ensures { AreMarkedFrom finished.now index marks.old marks.new }
{
    'ranks: for rank in 0..finished.len() {
        mark_next(finished, rank, index, marks);
    }
}

/// Marks what f_i makes of the vertex of this rank, where that is marked.
fn mark_next(finished: &Finished, rank: u32, index: u8, marks: &mut [bool])
    requires marks { length marks.old ≡ length finished.now.codes }
    requires rank { rank < length finished.now.codes }
    requires index { HasIndex finished.now.space.cartan index }
    ensures { marks.new ≡ marked_on (is_marked marks.old rank) (target_rank finished.now rank (lowering index)) marks.old }
{
    if !marks[rank as usize] {
        return;
    }
    if let Some(target) = finished.arrow_at(rank, Arrow { down: true, index }) {
        marks[target as usize] = true;
    }
}

/// The ranks that are marked, in ascending order.
fn marked_ranks(alloc: Global, marks: &[bool]) -> Result<IndexSet<u32>, NoMemory>
    requires { length marks.now < 2 ^ 32 }
    ensures { IfOk result (λ ranks. ranks.keys ≡ marked_ranks marks.now) }
{
    let count = marks.iter().filter(|marked| **marked).count();
    let mut ranks = IndexSet::with_capacity(alloc, count)?;
    'ranks: for rank in 0..marks.len() {
        if marks[rank] {
            ranks.insert(rank as u32)?;
        }
    }
    Ok(ranks)
}
