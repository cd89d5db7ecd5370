//! The lowering half of the graph that comes of a growth.
ghost use Rattle.std.specs.Prelude.{◌≡◌, ◌+◌, ◌^◌, ◌<◌, ◌≤◌, ◌++◌, true, length, IfOk, OnOk, All};
ghost use Rattle.canonical_graph.specs.Graphs.{IsFinished, finished_graph, arrows_from};
ghost use Rattle.canonical_graph.specs.Tables.{AreLowered, rank_row};
ghost use Rattle.plain_growth.specs.Growth.{HasNexts, AreRanks, IsNote, IsPlacedCode, noted_in, codes_in};

use crate::frontier::{Growth, NO_PLACE};
use crate::sorting::PlacedCode;
use canonical_graph::Lowered;
use std::alloc::{AllocError, Global};
use tensor_words::Steps;

/// The lowering half of the finished graph with the codes that a growth found, of which these are the ranks.
pub(crate) fn lowered_of_growth(
    alloc: Global,
    steps: &Steps,
    list: &[PlacedCode],
    growth: &Growth,
    ranks: &[u32],
) -> Result<Lowered, AllocError>
    requires finished { IsFinished (finished_graph steps.now (codes_in list.now)) }
    requires placed { All (IsPlacedCode growth.now.found) list.now }
    requires lowered { HasNexts steps.now growth.now.found (length growth.now.found) growth.now.lowered.items }
    requires ranks { AreRanks (codes_in list.now) growth.now.found ranks.now }
    ensures { IfOk result (λ t. AreLowered (finished_graph steps.now (codes_in list.now)) (length list.now) t.ranks.items t.arrows) }
{
    let mut lowered = Lowered::with_room(alloc, list.len(), steps.cartan().rank())?;
    'ranks: for rank in 0..list.len() {
        push_noted_row(&mut lowered, steps, list, rank, growth, ranks)?;
    }
    Ok(lowered)
}

/// Appends the row of the vertex of this rank, from the notes of a growth.
fn push_noted_row(
    table: &mut Lowered,
    steps: &Steps,
    list: &[PlacedCode],
    rank: usize,
    growth: &Growth,
    ranks: &[u32],
) -> Result<(), AllocError>
    requires rank { rank < length list.now }
    requires room { table.old.arrows ≤ 2 ^ 40 }
    requires placed { All (IsPlacedCode growth.now.found) list.now }
    requires lowered { HasNexts steps.now growth.now.found (length growth.now.found) growth.now.lowered.items }
    requires ranks { AreRanks (codes_in list.now) growth.now.found ranks.now }
    ensures ranks { OnOk result (table.new.ranks.items ≡ table.old.ranks.items ++ rank_row (finished_graph steps.now (codes_in list.now)) rank true steps.now.cartan.rank) }
    ensures arrows { OnOk result (table.new.arrows ≡ table.old.arrows + arrows_from (finished_graph steps.now (codes_in list.now)) rank) }
    ensures few { OnOk result (table.new.arrows ≤ table.old.arrows + 8) }
{
    let place = list[rank].place as usize;
    let indices = steps.cartan().rank() as usize;
    let first = place * indices;
    'indices: for j in 0..indices {
        let target = noted_rank(ranks, growth.lowered[first + j]);
        table.push(target)?;
    }
    Ok(())
}

/// The rank for which a note stands, `None` for zero.
fn noted_rank(ranks: &[u32], note: u32) -> Option<u32>
    requires { IsNote (length ranks.now) note }
    ensures { result ≡ noted_in ranks.now note }
{
    if note == NO_PLACE {
        None
    } else {
        Some(ranks[note as usize])
    }
}
