//! As many cells as roots, or one less, for two seats that come against each other; and a seat that is lost.
ghost use Rattle.std.specs.Prelude.{◌≡◌};
ghost use Rattle.graph_rule.specs.Values.{Belongs};

use super::cells::{add_root, find_code};
use super::worlds::world;
use crystal_streams::NoMemory;
use graph_history::Added;
use graph_rule::{Graph, Seat};
use std::alloc::Global;
use std::thread::{Threads, join};
use tensor_words::{Factor, World};

/// The eight words of three letters, all of them roots.
fn eight_roots(alloc: Global, cells: u32) -> Result<Option<World>, NoMemory> {
    let roots = Vec::from_array(alloc, [0, 1, 2, 3, 4, 5, 6, 7])?;
    Ok(world(
        &[Factor::Vector, Factor::Vector, Factor::Vector],
        cells,
        roots,
    ))
}

/// What a seat was told of each code, in the order in which it added them.
type Answers = [Option<Added>; 8];

/// Adds all roots from one seat, upwards or downwards.
fn add_all(graph: &Graph, mut seat: Seat, up: bool) -> (Seat, Answers)
    requires { Belongs seat graph.now × (seat.view.dues.pledge ≡ 0) }
    ensures { Belongs result.0 graph.now × (result.0.view.dues.pledge ≡ 0) }
{
    let mut answers = [None; 8];
    for place in 0..8 {
        let code = if up { place } else { 7 - place };
        answers[place as usize] = add_root(graph, &mut seat, code);
    }
    (seat, answers)
}

/// The same from two seats on threads of their own, upwards from the first and downwards from the second.
fn add_against<R: Threads + Sync>(
    rt: &R,
    graph: &Graph,
    one: Seat,
    two: Seat,
) -> ((Seat, Answers), (Seat, Answers))
    requires one { Belongs one graph.now × (one.view.dues.pledge ≡ 0) }
    requires two { Belongs two graph.now × (two.view.dues.pledge ≡ 0) }
    ensures one { Belongs result.0.0 graph.now × (result.0.0.view.dues.pledge ≡ 0) }
    ensures two { Belongs result.1.0 graph.now × (result.1.0.view.dues.pledge ≡ 0) }
{
    join(
        rt,
        move || add_all(graph, one, true),
        move || add_all(graph, two, false),
    )
}

/// What two seats were told of one code.
#[derive(Clone, Copy, PartialEq, Eq)]
enum Told {
    /// One put the word in, and the other found it in the same cell.
    OneCell,
    /// Neither found a cell for it.
    NoCell,
    Else,
}

fn compare(one: Option<Added>, two: Option<Added>) -> Told {
    match (one, two) {
        (Some(Added::New { cell }), Some(Added::Old { cell: same }))
        | (Some(Added::Old { cell: same }), Some(Added::New { cell }))
            if cell == same => { Told::OneCell }
        (Some(Added::Full), Some(Added::Full)) => Told::NoCell,
        _ => Told::Else,
    }
}

/// Of how many codes two seats, of which the second went the other way, were told so.
fn count(up: &Answers, down: &Answers, wanted: Told) -> usize {
    up.iter()
        .zip(down.iter().rev())
        .filter(|(one, two)| compare(**one, **two) == wanted)
        .count()
}

/// With a cell for each root both seats find them all. With one cell less one root has no cell, and both are told so.
#[test]
fn against_each_other(rt: HostRuntime) -> Result<(), NoMemory> {
    for (cells, in_one_cell, in_none) in [(8, 8, 0), (7, 7, 1)] {
        let world = eight_roots(rt.alloc(), cells)?.expect(&rt, "a world of eight roots");
        let (graph, mut seat) = Graph::new(rt.alloc(), world)?;
        let child = seat.split(&graph, 1, 1);
        let (first, second) = add_against(&rt, &graph, seat, child);
        let (mut seat, up) = first;
        let (other, down) = second;
        seat.join(&graph, other);
        assert_eq!(rt; seat.stake(), 65_536);
        assert_eq!(rt; count(&up, &down, Told::OneCell), in_one_cell);
        assert_eq!(rt; count(&up, &down, Told::NoCell), in_none);
    }
    Ok(())
}

/// After a seat was dropped its stake is lost. Words are put in and found as before.
#[test]
fn a_lost_seat(rt: HostRuntime) -> Result<(), NoMemory> {
    let world = eight_roots(rt.alloc(), 8)?.expect(&rt, "a world of eight roots");
    let (graph, mut seat) = Graph::new(rt.alloc(), world)?;
    drop(seat.split(&graph, 1, 1));
    assert_eq!(rt; seat.stake(), 65_535);
    let Some(Added::New { cell }) = add_root(&graph, &mut seat, 5) else {
        panic!(rt; "the word is new");
    };
    assert_eq!(rt; find_code(&graph, &mut seat, 5), Some(Some(cell)));
    assert_eq!(rt; find_code(&graph, &mut seat, 2), Some(None));
    Ok(())
}
