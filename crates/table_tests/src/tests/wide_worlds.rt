//! Small wide graphs, and calls on their roots.
ghost use Rattle.std.specs.Prelude.{◌≡◌, ◌<◌, None, IfOk, IfSome, All, Contains};
ghost use Rattle.wide_words.specs.WideSpaces.{IsWide, number};
ghost use Rattle.wide_words.specs.WideHistory.{flat};
ghost use Rattle.wide_rule.specs.Values.{Belongs};

use crystal_cartan::{Cartan, Kind};
use crystal_streams::NoMemory;
use graph_history::{Added, Origin};
use std::alloc::Global;
use tensor_words::{Factor, Space};
use wide_graph::{add, find};
use wide_rule::{WideGraph, WideSeat};
use wide_words::{WideCode, WideSpace};

/// The words of these letters in A of this rank.
pub(super) fn space(rank: u8, letters: &[Factor]) -> Option<Space> {
    let cartan = Cartan::new(Kind::A, rank).ok()?;
    Space::new(cartan, letters).ok()
}

/// The wide words of twice these letters in A_1.
pub(super) fn wide_space(letters: &[Factor]) -> Option<WideSpace> {
    WideSpace::new(space(1, letters)?, space(1, letters)?).ok()
}

/// Those of the pairs that are words.
pub(super) fn words_of(
    alloc: Global,
    space: &WideSpace,
    pairs: &[(u64, u64)],
) -> Result<Vec<WideCode>, NoMemory>
    ensures { IfOk result (λ words. All (IsWide space.now) words.items) }
{
    let mut words = Vec::new(alloc);
    for pair in pairs {
        let code = WideCode {
            high: pair.0,
            low: pair.1,
        };
        if space.has(code) {
            words.push(code)?;
        }
    }
    Ok(words)
}

/// The root at this place, `None` past the last.
pub(super) fn root(graph: &WideGraph, place: usize) -> Option<WideCode>
    ensures { IfSome result (λ c. IsWide graph.now.world.space c × Contains (flat graph.now.world).roots (number graph.now.world.space c)) }
{
    let roots = graph.world().roots();
    if place >= roots.len() {
        return None;
    }
    Some(roots[place])
}

/// Adds the root at this place, `None` past the last.
pub(super) fn add_root(graph: &WideGraph, seat: &mut WideSeat, place: usize) -> Option<Added>
    requires belongs { Belongs seat.old graph.now }
    requires idle { seat.old.view.dues.pending ≡ None }
    ensures belongs { Belongs seat.new graph.now }
    ensures idle { seat.new.view.dues.pending ≡ None }
{
    let code = root(graph, place)?;
    Some(add(graph, seat, code, Origin::Root))
}

/// Looks for the root at this place, `None` past the last.
pub(super) fn find_root(graph: &WideGraph, seat: &mut WideSeat, place: usize) -> Option<Option<u32>>
    requires belongs { Belongs seat.old graph.now }
    requires idle { seat.old.view.dues.pending ≡ None }
    ensures belongs { Belongs seat.new graph.now }
    ensures idle { seat.new.view.dues.pending ≡ None }
{
    let code = root(graph, place)?;
    Some(find(graph, seat, code))
}
