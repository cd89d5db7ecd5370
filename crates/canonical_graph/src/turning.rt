//! The arrows of a table turned around.
ghost use Rattle.std.specs.Prelude.{◌≡◌, ◌+◌, ◌*◌, ◌<◌, ◌≤◌, length, IfOk};
ghost use Rattle.canonical_graph.specs.Turning.{AreArrows, AreTurned};

use crate::tables::NO_TARGET;
use std::alloc::{AllocError, Global};

/// The table of the other direction: where an entry leads from one vertex to another, the other's entry at that index
/// leads back.
pub(crate) fn turned(
    alloc: Global,
    vertices: usize,
    indices: usize,
    entries: &[u32],
) -> Result<Vec<u32>, AllocError>
    requires arrows { AreArrows indices vertices entries.now }
    requires indices { indices ≤ 8 }
    ensures { IfOk result (λ back. AreTurned indices vertices (vertices * indices) entries.now back.items) }
{
    let mut back = vec![in alloc; NO_TARGET; entries.len()]?;
    'ranks: for rank in 0..vertices {
        turn_row(vertices, indices, entries, rank, &mut back);
    }
    Ok(back)
}

/// Turns the arrows of one vertex.
fn turn_row(vertices: usize, indices: usize, entries: &[u32], rank: usize, back: &mut Vec<u32>)
    requires arrows { AreArrows indices vertices entries.now }
    requires indices { indices ≤ 8 }
    requires rank { rank < vertices }
    requires turned { AreTurned indices vertices (rank * indices) entries.now back.old.items }
    ensures { AreTurned indices vertices ((rank + 1) * indices) entries.now back.new.items }
{
    let first = rank * indices;
    'indices: for j in 0..indices {
        let target = entries[first + j];
        if target != NO_TARGET {
            back[target as usize * indices + j] = rank as u32;
        }
    }
}
