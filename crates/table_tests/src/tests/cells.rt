//! Words of the shared table, by calls.
ghost use Rattle.std.specs.Prelude.{◌≡◌, ◌<◌, ◌≤◌, ◌+◌, Contains};
ghost use Rattle.graph_rule.specs.Values.{Belongs};

use super::worlds::world;
use crystal_streams::NoMemory;
use graph_history::{Added, Origin};
use graph_rule::{Graph, Seat, tally};
use std::alloc::Global;
use std::thread::{Threads, join};
use table_calls::{add, add_at, find, word};
use tensor_words::{Factor, World};

/// The words of two letters, with the roots `1 1` and `2 1`.
fn two_letters(alloc: Global, cells: u32) -> Result<Option<World>, NoMemory> {
    let roots = Vec::from_array(alloc, [0, 2])?;
    Ok(world(&[Factor::Vector, Factor::Vector], cells, roots))
}

/// Adds a root, `None` where the code is that of no root.
pub(crate) fn add_root(graph: &Graph, seat: &mut Seat, code: u64) -> Option<Added>
    requires belongs { Belongs seat.old graph.now }
    requires pledge { seat.old.view.dues.pledge ≡ 0 }
    ensures belongs { Belongs seat.new graph.now }
    ensures pledge { seat.new.view.dues.pledge ≡ 0 }
{
    if !graph.world().has_root(code) {
        return None;
    }
    Some(add(graph, seat, code, Origin::Root))
}

/// The same with a look at one cell first.
fn add_root_at(graph: &Graph, seat: &mut Seat, code: u64, near: u32) -> Option<Added>
    requires belongs { Belongs seat.old graph.now }
    requires pledge { seat.old.view.dues.pledge ≡ 0 }
    ensures belongs { Belongs seat.new graph.now }
    ensures pledge { seat.new.view.dues.pledge ≡ 0 }
{
    if !graph.world().has_root(code) {
        return None;
    }
    Some(add_at(graph, seat, code, Origin::Root, near))
}

pub(crate) fn find_code(graph: &Graph, seat: &mut Seat, code: u64) -> Option<Option<u32>>
    requires belongs { Belongs seat.old graph.now }
    requires pledge { seat.old.view.dues.pledge ≡ 0 }
    ensures belongs { Belongs seat.new graph.now }
    ensures pledge { seat.new.view.dues.pledge ≡ 0 }
{
    if code >= graph.world().space().size() {
        return None;
    }
    Some(find(graph, seat, code))
}

fn word_at(graph: &Graph, seat: &mut Seat, cell: u32) -> Option<Option<u64>>
    requires belongs { Belongs seat.old graph.now }
    requires pledge { seat.old.view.dues.pledge ≡ 0 }
    ensures belongs { Belongs seat.new graph.now }
    ensures pledge { seat.new.view.dues.pledge ≡ 0 }
{
    if cell >= graph.world().cells() {
        return None;
    }
    Some(word(graph, seat, cell))
}

#[test]
fn one_cell(rt: HostRuntime) -> Result<(), NoMemory> {
    let world = two_letters(rt.alloc(), 1)?.expect(&rt, "a world of one cell");
    let (graph, mut seat) = Graph::new(rt.alloc(), world)?;
    let before = tally(&graph, &mut seat);
    let first = add_root(&graph, &mut seat, 0);
    let second = add_root(&graph, &mut seat, 2);
    let missing = find_code(&graph, &mut seat, 2);
    let again = add_root(&graph, &mut seat, 0);
    let found = find_code(&graph, &mut seat, 0);
    let code = word_at(&graph, &mut seat, 0);
    let after = tally(&graph, &mut seat);
    assert_eq!(rt;
        [first, second, again],
        [
            Some(Added::New { cell: 0 }),
            Some(Added::Full),
            Some(Added::Old { cell: 0 })
        ]
    );
    assert_eq!(rt;
        (missing, found, code),
        (Some(None), Some(Some(0)), Some(Some(0)))
    );
    assert_eq!(rt; (before, after), (0, 1));
    Ok(())
}

/// A right place, one that is empty, one past the last cell, and one with another word; and a new word at a wrong place.
#[test]
fn near_or_not(rt: HostRuntime) -> Result<(), NoMemory> {
    let world = two_letters(rt.alloc(), 4)?.expect(&rt, "a world of four cells");
    let (graph, mut seat) = Graph::new(rt.alloc(), world)?;
    let Some(Added::New { cell }) = add_root_at(&graph, &mut seat, 2, 3) else {
        panic!(rt; "the word is new");
    };
    let old = Some(Added::Old { cell });
    let right = add_root_at(&graph, &mut seat, 2, cell);
    let wrong = add_root_at(&graph, &mut seat, 2, cell ^ 1);
    let past = add_root_at(&graph, &mut seat, 2, 4);
    let far = add_root_at(&graph, &mut seat, 2, u32::MAX);
    assert_eq!(rt; [right, wrong, past, far], [old; 4]);
    let Some(Added::New { cell: other }) = add_root_at(&graph, &mut seat, 0, cell) else {
        panic!(rt; "the other word is new");
    };
    let last = add_root_at(&graph, &mut seat, 2, other);
    let found = find_code(&graph, &mut seat, 0);
    let debts = tally(&graph, &mut seat);
    assert!(rt; other != cell);
    assert_eq!(rt; (last, found, debts), (old, Some(Some(other)), 2));
    Ok(())
}

/// A seat, and what it was told.
#[derive(Drop)]
struct Told {
    seat: Seat,
    answer: Option<Added>,
}

fn add_with(graph: &Graph, seat: Seat, code: u64) -> Told
    requires { Belongs seat graph.now × (seat.view.dues.pledge ≡ 0) }
    ensures { Belongs result.seat graph.now × (result.seat.view.dues.pledge ≡ 0) }
{
    let mut seat = seat;
    let answer = add_root(graph, &mut seat, code);
    Told { seat, answer }
}

/// Each of two seats adds the root on a thread of its own.
fn add_both<R: Threads + Sync>(rt: &R, graph: &Graph, one: Seat, two: Seat) -> (Told, Told)
    requires one { Belongs one graph.now × (one.view.dues.pledge ≡ 0) }
    requires two { Belongs two graph.now × (two.view.dues.pledge ≡ 0) }
    ensures one { Belongs result.0.seat graph.now × (result.0.seat.view.dues.pledge ≡ 0) }
    ensures two { Belongs result.1.seat graph.now × (result.1.seat.view.dues.pledge ≡ 0) }
{
    join(
        rt,
        move || add_with(graph, one, 2),
        move || add_with(graph, two, 2),
    )
}

/// The cell in which one of the two put the word in, and the other found it.
fn one_cell_of(one: Option<Added>, two: Option<Added>) -> Option<u32> {
    match (one?, two?) {
        (Added::New { cell }, Added::Old { cell: same })
        | (Added::Old { cell: same }, Added::New { cell })
            if cell == same => { Some(cell) }
        _ => None,
    }
}

#[test]
fn two_seats(rt: HostRuntime) -> Result<(), NoMemory> {
    let world = two_letters(rt.alloc(), 4)?.expect(&rt, "a world of four cells");
    let (graph, mut seat) = Graph::new(rt.alloc(), world)?;
    let child = seat.split(&graph, 1, 1);
    assert_eq!(rt;
        (child.number(), child.numbers_left(), child.stake()),
        (1, 0, 1)
    );
    let (mine, other) = add_both(&rt, &graph, seat, child);
    let cell = one_cell_of(mine.answer, other.answer);
    let mut seat = mine.seat;
    seat.join(&graph, other.seat);
    seat.meet(&graph);
    let stake = seat.stake();
    assert!(rt; cell.is_some());
    let found = find_code(&graph, &mut seat, 2);
    let debts = tally(&graph, &mut seat);
    assert_eq!(rt; (stake, found, debts), (65_536, Some(cell), 1));
    Ok(())
}
