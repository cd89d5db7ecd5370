//! Adds of pairs from the one seat of a wide graph.
ghost use Rattle.std.specs.Prelude.{◌≤◌, length, All, Contains, IfSome};
ghost use Rattle.wide_words.specs.WideSpaces.{IsWide};
ghost use Rattle.graph_bench.specs.Adding.{CanAddPairs};

use crystal_cartan::{Cartan, Kind};
use graph_history::{Added, Origin};
use std::alloc::Global;
use tensor_words::{Factor, Space};
use wide_graph::add;
use wide_rule::{WideGraph, WideSeat};
use wide_words::{WideCode, WideSpace};

/// So many pairs with the same code in both halves.
fn pairs(alloc: Global, space: &WideSpace, codes: u32) -> Option<Vec<WideCode>>
    ensures words { IfSome result (λ made. All (IsWide space.now) made.items) }
{
    let mut made = Vec::with_capacity(alloc, codes as usize).ok()?;
    for code in 0..u64::from(codes) {
        let pair = WideCode {
            high: code,
            low: code,
        };
        if !space.has(pair) {
            return None;
        }
        made.push(pair).ok()?;
    }
    Some(made)
}

/// Adds a root, and answers whether it was new.
fn add_root(graph: &WideGraph, seat: &mut WideSeat, root: WideCode) -> bool
    requires can { CanAddPairs graph.now seat.old }
    requires root { Contains graph.now.world.roots root }
    ensures can { CanAddPairs graph.now seat.new }
{
    let _world = graph.world();
    matches!(add(graph, seat, root, Origin::Root), Added::New { .. })
}

/// Adds all roots, and answers how many were new.
fn add_roots(graph: &WideGraph, mut seat: WideSeat) -> usize
    requires can { CanAddPairs graph.now seat }
    ensures few { result ≤ length graph.now.world.roots }
{
    let roots = graph.world().roots();
    let mut fresh = 0;
    for place in 0..roots.len() {
        if add_root(graph, &mut seat, roots[place]) {
            fresh += 1;
        }
    }
    fresh
}

/// How many of so many pairs are new in a new graph with room for them, `None` for want of memory or where there are none
/// or too many. The words are those of forty letters in A_1.
pub fn run_pairs(alloc: Global, is_added: bool, codes: u32) -> Option<usize> {
    let cartan = Cartan::new(Kind::A, 1).ok()?;
    let half = Space::new(cartan, &[Factor::Vector; 20]).ok()?;
    let space = WideSpace::new(half, half).ok()?;
    if codes == 0 || codes > 1_048_576 {
        return None;
    }
    let roots = pairs(alloc, &space, codes)?;
    if roots.is_empty() {
        return None;
    }
    let Ok((graph, seat)) = WideGraph::new(alloc, space, codes, roots) else {
        return None;
    };
    Some(if is_added { add_roots(&graph, seat) } else { 0 })
}
