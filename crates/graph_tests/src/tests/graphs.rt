//! Worked graphs.
ghost use Rattle.std.specs.Prelude.{◌<◌, ◌^◌, length};

use canonical_graph::Finished;
use crystal_cartan::{Arrow, Cartan, Kind};
use crystal_streams::NoMemory;
use plain_growth::{PlainFault, grow_plain};
use std::alloc::{AllocError, Global};
use tensor_words::{Codes, Factor, Space, World};

const V: Factor = Factor::Vector;

/// The graph that grows from roots in a tensor product of vector crystals of type A.
fn grown(
    alloc: Global,
    rank: u8,
    factors: &[Factor],
    cells: u32,
    roots: Codes,
) -> Option<Result<Finished, PlainFault>>
    requires { length roots < 2 ^ 32 }
{
    let space = Space::new(Cartan::new(Kind::A, rank).ok()?, factors).ok()?;
    let world = World::new(space, cells, roots).ok()?;
    Some(grow_plain(alloc, &world))
}

/// Whether the graph has just these codes, in this order.
fn has_codes(graph: &Finished, codes: &[u64]) -> bool {
    let count = graph.len() as usize;
    if count != codes.len() {
        return false;
    }
    for k in 0..count {
        if graph.code_at(k as u32) != codes[k] {
            return false;
        }
    }
    true
}

/// The graph that is made anew of the codes of a graph.
fn made_again(alloc: Global, graph: &Finished) -> Result<Finished, NoMemory> {
    let mut codes = Vec::new(alloc);
    'codes: for rank in 0..graph.len() {
        if codes.push(graph.code_at(rank)).is_err() {
            return Err(NoMemory);
        }
    }
    Finished::of(alloc, *graph.space(), Codes::of(codes))
}

#[test]
fn cells_that_suffice(rt: HostRuntime) -> Result<(), AllocError> {
    let roots = Codes::of(vec![in rt.alloc(); 0, 2]?);
    let full = grown(rt.alloc(), 1, &[V, V], 3, roots).expect(&rt, "the roots are words");
    assert_eq!(rt; full.err(), Some(PlainFault::Full));
    let roots = Codes::of(vec![in rt.alloc(); 0, 2]?);
    let whole = grown(rt.alloc(), 1, &[V, V], 4, roots).expect(&rt, "the roots are words");
    let graph = whole.ok().expect(&rt, "four words are reached");
    assert!(rt; has_codes(&graph, &[0, 1, 2, 3]));
    Ok(())
}

#[test]
fn a_component(rt: HostRuntime) -> Result<(), AllocError> {
    let roots = Codes::of(vec![in rt.alloc(); 3]?);
    let whole = grown(rt.alloc(), 1, &[V, V], 3, roots).expect(&rt, "the root is a word");
    let graph = whole.ok().expect(&rt, "three words are reached");
    let again = made_again(rt.alloc(), &graph)
        .ok()
        .expect(&rt, "there is memory");
    assert!(rt; has_codes(&again, &[0, 1, 3]));
    assert_eq!(rt; (again.len(), again.arrows()), (3, 2));
    assert_eq!(rt; (again.rank_of(3), again.rank_of(2)), (Some(2), None));
    Ok(())
}

/// What e_1 makes of the vertex of this rank.
fn raised(graph: &Finished, rank: u32) -> Option<u32> {
    let arrow = Arrow {
        down: false,
        index: 1,
    };
    if rank >= graph.len() || !graph.space().cartan().has_index(1) {
        return None;
    }
    graph.arrow_at(rank, arrow)
}

#[test]
fn a_single_vertex(rt: HostRuntime) -> Result<(), AllocError> {
    let roots = Codes::of(vec![in rt.alloc(); 733_007_751_850]?);
    let whole = grown(rt.alloc(), 1, &[V; 40], 1, roots).expect(&rt, "the root is a word");
    let graph = whole.ok().expect(&rt, "one word is reached");
    assert_eq!(rt; (graph.len(), raised(&graph, 0)), (1, None));
    Ok(())
}
