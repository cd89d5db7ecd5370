//! Worked subsets and a product. Those along reduced words, and other products, stand as rows under tests/.
ghost use Rattle.std.specs.Prelude.{◌<◌, IsTrue, All};
ghost use Rattle.crystal_cartan.specs.Types.{HasIndex};
ghost use Rattle.tensor_words.specs.Codes.{IsWord};

use crate::tests::components::{V, component, space_of};
use canonical_graph::Finished;
use crystal_cartan::{Cartan, Kind, Weight};
use crystal_streams::NoMemory;
use crystal_subsets::{demazure, product_tops, product_tops_law};
use std::alloc::Global;
use tensor_words::{Space, Word};

fn has_indices(cartan: Cartan, indices: &[u8]) -> bool
    ensures { IsTrue result → All (HasIndex cartan) indices.now }
{
    indices.iter().all(|i| cartan.has_index(*i))
}

/// The Demazure subset over the vertex of this rank, `None` where the call cannot be made or wants memory.
fn subset(alloc: Global, graph: &Finished, rank: u32, indices: &[u8]) -> Option<Vec<u32>> {
    if rank >= graph.len() || !has_indices(graph.space().cartan(), indices) {
        return None;
    }
    let ranks = demazure(alloc, graph, rank, indices).ok()?;
    ranks.iter().copied().collect(alloc).ok()
}

/// Whether the Demazure subset over the vertex of this rank has just these ranks, in this order.
fn is_subset(alloc: Global, graph: &Finished, rank: u32, indices: &[u8], ranks: &[u32]) -> bool {
    match subset(alloc, graph, rank, indices) {
        Some(found) => found.as_slice() == ranks,
        None => false,
    }
}

#[test]
fn the_last_index_acts_first(rt: HostRuntime) {
    let graph = component(rt.alloc(), Kind::A, 2, &[V], 0).expect(&rt, "three letters");
    assert!(rt; is_subset(rt.alloc(), &graph, 0, &[2, 1], &[0, 1, 2]));
    assert!(rt; is_subset(rt.alloc(), &graph, 0, &[1, 2], &[0, 1]));
    assert!(rt; is_subset(rt.alloc(), &graph, 1, &[], &[1]));
    let graph = component(rt.alloc(), Kind::A, 2, &[V, V, V], 9).expect(&rt, "eight words");
    assert!(rt; is_subset(rt.alloc(), &graph, 3, &[2, 1], &[3, 4, 6, 7]));
    assert!(rt; is_subset(rt.alloc(), &graph, 3, &[1, 2], &[3, 4, 6]));
}

/// The vertices that are tops beside the weight of a word.
fn tops_beside_word(
    alloc: Global,
    graph: &Finished,
    other: &Space,
    word: &Word,
) -> Option<Result<Vec<(u32, Weight)>, NoMemory>>
    requires { IsWord other.now word.now }
{
    let weight = other.weight(word);
    if graph.space().cartan() != other.cartan() || !other.cartan().is_dominant(&weight) {
        return None;
    }
    Some(product_tops(alloc, graph, &weight))
}

/// Whether these are the doubled coordinates.
fn has_coordinates(weight: &Weight, doubled: &[i32]) -> bool {
    if weight.coordinates() as usize != doubled.len() {
        return false;
    }
    for k in 0..weight.coordinates() {
        if weight.doubled_at(k + 1) != doubled[k as usize] {
            return false;
        }
    }
    true
}

/// Whether just these vertices are tops beside the weight of the word with this code, with these doubled sums.
fn are_tops(
    alloc: Global,
    graph: &Finished,
    other: &Space,
    code: u64,
    expected: &[(u32, &[i32])],
) -> bool {
    let Some(word) = other.word_of(code) else {
        return false;
    };
    let Some(Ok(tops)) = tops_beside_word(alloc, graph, other, &word) else {
        return false;
    };
    if tops.len() != expected.len() {
        return false;
    }
    for k in 0..expected.len() {
        if tops[k].0 != expected[k].0 || !has_coordinates(&tops[k].1, expected[k].1) {
            return false;
        }
    }
    true
}

/// Pieri: one box is added to the shape 2 1 in each of three rows.
#[test]
fn products_with_a_vector(rt: HostRuntime) {
    product_tops_law();
    let graph = component(rt.alloc(), Kind::A, 2, &[V, V, V], 9).expect(&rt, "eight words");
    let other = space_of(Kind::A, 2, &[V]).expect(&rt, "one factor");
    let tops: [(u32, &[i32]); 3] = [(0, &[6, 2, 0]), (1, &[4, 4, 0]), (4, &[4, 2, 2])];
    assert!(rt; are_tops(rt.alloc(), &graph, &other, 0, &tops));
}
