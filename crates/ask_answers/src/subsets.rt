//! Demazure subsets over the first start.
ghost use Rattle.std.specs.Prelude.{◌≡◌, All, Contains, IfOk};
ghost use Rattle.crystal_cartan.specs.Types.{HasIndex};
ghost use Rattle.ask_answers.specs.Answers.{IsSubset};

use canonical_graph::Finished;
use crystal_streams::NoMemory;
use crystal_subsets::demazure;
use indexmap::IndexSet;
use job_text::Indices;
use std::alloc::Global;

/// The ranks of the Demazure subset of these indices over the vertex with the code `start`, in ascending order. The
/// last index acts first.
pub(crate) fn subset(
    alloc: Global,
    finished: &Finished,
    start: u64,
    indices: &[u8],
) -> Result<Vec<u32>, NoMemory>
    requires start { Contains finished.now.codes start }
    requires indices { All (HasIndex finished.now.space.cartan) indices.now }
    ensures { IfOk result (λ ranks. IsSubset finished.now start indices.now ranks.items) }
{
    let Some(rank) = finished.rank_of(start) else {
        unreachable!()
    };
    let ranks = demazure(alloc, finished, rank, indices)?;
    in_order(alloc, &ranks)
}

/// The ranks of a set, in its order.
fn in_order(alloc: Global, ranks: &IndexSet<u32>) -> Result<Vec<u32>, NoMemory>
    ensures { IfOk result (λ list. list.items ≡ ranks.now.keys) }
{
    Ok(ranks.iter().copied().collect(alloc)?)
}

/// The indices of an ask, in their order.
pub(crate) fn listed(alloc: Global, indices: &Indices) -> Result<Vec<u8>, NoMemory>
    ensures { IfOk result (λ list. list.items ≡ indices.now) }
{
    let mut list = Vec::new(alloc);
    'places: for place in 0..indices.len() {
        list.push(*indices.at(place))?;
    }
    Ok(list)
}
