//! The printed lines of vertices.
ghost use Rattle.std.specs.Prelude.{◌<◌, ◌^◌, length};

use answer_text::vertex_line;
use canonical_graph::Finished;
use crystal_cartan::{Cartan, Kind};
use plain_growth::grow_plain;
use std::alloc::{AllocError, Global};
use tensor_words::{Codes, Factor, Space, World};

const V: Factor = Factor::Vector;

/// The graph that grows from roots in a tensor product of vector crystals of type A.
fn grown(alloc: Global, rank: u8, factors: &[Factor], cells: u32, roots: Codes) -> Option<Finished>
    requires { length roots < 2 ^ 32 }
{
    let space = Space::new(Cartan::new(Kind::A, rank).ok()?, factors).ok()?;
    let world = World::new(space, cells, roots).ok()?;
    grow_plain(alloc, &world).ok()
}

/// Whether the vertex of this rank has this line.
fn has_line(graph: &Finished, rank: u32, text: &[u8]) -> bool {
    rank < graph.len() && vertex_line(graph, rank).bytes() == text
}

#[test]
fn lines_of_a_graph(rt: HostRuntime) -> Result<(), AllocError> {
    let roots = Codes::of(vec![in rt.alloc(); 9]?);
    let graph = grown(rt.alloc(), 2, &[V, V, V], 8, roots).expect(&rt, "eight words are reached");
    assert_eq!(rt; (graph.len(), graph.arrows()), (8, 8));
    let lines: [&[u8]; 8] = [
        b"0 | 2 1 1 | 2 1 0 | 1:1 2:3",
        b"1 | 2 1 2 | 1 2 0 | 2:2",
        b"2 | 2 1 3 | 1 1 1 | 2:5",
        b"3 | 3 1 1 | 2 0 1 | 1:4",
        b"4 | 3 1 2 | 1 1 1 | 1:6",
        b"5 | 3 1 3 | 1 0 2 | 1:7",
        b"6 | 3 2 2 | 0 2 1 | 2:7",
        b"7 | 3 2 3 | 0 1 2 | -",
    ];
    for rank in 0..8u32 {
        assert!(rt; has_line(&graph, rank, lines[rank as usize]), "rank {rank}");
    }
    Ok(())
}

#[test]
fn a_long_line(rt: HostRuntime) -> Result<(), AllocError> {
    let roots = Codes::of(vec![in rt.alloc(); 733_007_751_850]?);
    let graph = grown(rt.alloc(), 1, &[V; 40], 1, roots).expect(&rt, "one word is reached");
    assert!(rt;
        has_line(
            &graph,
            0,
            b"0 | 2 1 2 1 2 1 2 1 2 1 2 1 2 1 2 1 2 1 2 1 2 1 2 1 2 1 2 1 2 1 2 1 2 1 2 1 2 1 2 1 | 20 20 | -"
        )
    );
    Ok(())
}
