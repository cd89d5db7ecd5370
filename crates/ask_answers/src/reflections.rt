//! Crystal reflections of all vertices.
ghost use Rattle.std.specs.Prelude.{IfOk};
ghost use Rattle.crystal_cartan.specs.Types.{HasIndex};
ghost use Rattle.ask_answers.specs.Answers.{IsImages};

use canonical_graph::Finished;
use crystal_characters::reflect;
use crystal_streams::NoMemory;
use std::alloc::Global;

/// The ranks of the crystal reflections of the vertices at an index, in ascending rank of the vertices.
pub(crate) fn images(alloc: Global, finished: &Finished, index: u8) -> Result<Vec<u32>, NoMemory>
    requires { HasIndex finished.now.space.cartan index }
    ensures { IfOk result (λ images. IsImages finished.now index images.items) }
{
    let mut images = Vec::with_capacity(alloc, finished.len() as usize)?;
    'ranks: for rank in 0..finished.len() {
        images.push_reserved(reflect(finished, rank, index));
    }
    Ok(images)
}
