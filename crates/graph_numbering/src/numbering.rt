//! The finished graph of a shared graph that is closed.
ghost use Rattle.std.specs.Prelude.{◌≡◌, ◌<◌, ◌≤◌, IfOk, vec_len};
ghost use Rattle.graph_history.specs.History.{state_of, vertex_at};
ghost use Rattle.graph_history.specs.Laws.{IsCodeList};
ghost use Rattle.graph_rule.specs.Rule.{whole};
ghost use Rattle.graph_rule.specs.Values.{Belongs};

use canonical_graph::Finished;
use crystal_streams::NoMemory;
use graph_rule::{Closed, Graph, Seat};
use std::alloc::{AllocError, Global};
use table_calls::word;
use tensor_words::Codes;

/// The finished graph of a closed graph, from a seat with the whole stake. Its codes are those of the vertices of the
/// front for which `closed` was made. It reads each cell once, with no event, and the seat stays as it is.
pub fn finished(
    alloc: Global,
    graph: &Graph,
    seat: &mut Seat,
    closed: &Closed,
) -> Result<Finished, NoMemory>
    requires belongs { Belongs seat.old graph.now }
    requires alone { seat.old.view.stake ≡ whole }
    requires pledge { seat.old.view.dues.pledge ≡ 0 }
    requires world { closed.now.world ≡ seat.old.view.world }
    requires front { closed.now.front ≡ seat.old.view.front }
    ensures same { seat.new ≡ seat.old }
    ensures space { IfOk result (λ made. made.space ≡ seat.old.view.world.space) }
    ensures codes { IfOk result (λ made. IsCodeList (state_of seat.old.view.front) made.codes) }
{
    let _front = closed.front();
    seat.reveal();
    let space = *graph.world().space();
    let codes = vertex_codes(alloc, graph, seat)?;
    match Finished::of(alloc, space, Codes::of(codes)) {
        Ok(made) => Ok(made),
        Err(fault) => Err(fault),
    }
}

/// The codes of all vertices, ascending.
fn vertex_codes(alloc: Global, graph: &Graph, seat: &mut Seat) -> Result<Vec<u64>, AllocError>
    requires belongs { Belongs seat.old graph.now }
    requires alone { seat.old.view.stake ≡ whole }
    requires pledge { seat.old.view.dues.pledge ≡ 0 }
    ensures same { seat.new ≡ seat.old }
    ensures codes { IfOk result (λ codes. IsCodeList (state_of seat.old.view.front) codes.items) }
    ensures few { IfOk result (λ codes. vec_len codes ≤ seat.old.view.world.cells) }
{
    seat.reveal();
    let cells = graph.world().cells();
    let mut codes = Vec::with_capacity(alloc, cells as usize)?;
    'cells: for cell in 0..cells {
        if let Some(code) = code_in(graph, seat, cell) {
            codes.push_reserved(code);
        }
    }
    codes.sort_unstable();
    codes.dedup();
    Ok(codes)
}

/// The code of the vertex of a cell, `None` where it has none. Nobody else is there, so the seat learns nothing.
fn code_in(graph: &Graph, seat: &mut Seat, cell: u32) -> Option<u64>
    requires belongs { Belongs seat.old graph.now }
    requires alone { seat.old.view.stake ≡ whole }
    requires pledge { seat.old.view.dues.pledge ≡ 0 }
    requires cell { cell < graph.now.world.cells }
    ensures same { seat.new ≡ seat.old }
    ensures value { result ≡ vertex_at (state_of seat.old.view.front).vertices cell }
{
    word(graph, seat, cell)
}
