//! Pairs of a wide graph, by calls.
ghost use Rattle.std.specs.Prelude.{◌≡◌, ◌<◌, ◌+◌, None, All, IfOk};
ghost use Rattle.wide_rule.specs.Layout.{mixed};
ghost use Rattle.wide_rule.specs.Values.{Belongs};

use super::edges::home;
use super::wide_worlds::{add_root, find_root, root, space, wide_space, words_of};
use crystal_streams::NoMemory;
use graph_history::{Added, Origin};
use std::alloc::Global;
use std::thread::{Threads, join, map_vec};
use tensor_words::Factor;
use wide_rule::{WideGraph, WideSeat, claim_first};
use wide_words::{Mixed, WideCode, WideSpace};

/// Five letters: halves below 32.
const LETTERS: [Factor; 5] = [Factor::Vector; 5];

#[test]
fn of_two_kinds(rt: HostRuntime) {
    let high = space(1, &LETTERS).expect(&rt, "words in A_1");
    let low = space(2, &LETTERS).expect(&rt, "words in A_2");
    assert!(rt; matches!(WideSpace::new(high, low), Err(Mixed)));
}

/// A seat, the place of a root, and what the seat was told of it.
#[derive(Drop)]
struct Told {
    seat: WideSeat,
    place: usize,
    answer: Option<Added>,
}

/// Adds the root at the place.
fn add_at_place(graph: &WideGraph, job: Told) -> Told
    requires { Belongs job.seat graph.now × (job.seat.view.dues.pending ≡ None) }
    ensures { Belongs result.seat graph.now × (result.seat.view.dues.pending ≡ None) }
{
    let Told {
        mut seat,
        place,
        answer: _,
    } = job;
    let answer = add_root(graph, &mut seat, place);
    Told {
        seat,
        place,
        answer,
    }
}

/// Each of two seats adds on a thread of its own.
fn add_both<R: Threads + Sync>(rt: &R, graph: &WideGraph, one: Told, two: Told) -> (Told, Told)
    requires one { Belongs one.seat graph.now × (one.seat.view.dues.pending ≡ None) }
    requires two { Belongs two.seat graph.now × (two.seat.view.dues.pending ≡ None) }
    ensures one { Belongs result.0.seat graph.now × (result.0.seat.view.dues.pending ≡ None) }
    ensures two { Belongs result.1.seat graph.now × (result.1.seat.view.dues.pending ≡ None) }
{
    join(
        rt,
        move || add_at_place(graph, one),
        move || add_at_place(graph, two),
    )
}

#[test]
fn one_root_from_two_seats(rt: HostRuntime) -> Result<(), NoMemory> {
    let space = wide_space(&LETTERS).expect(&rt, "a wide space");
    let roots = words_of(rt.alloc(), &space, &[(3, 30)])?;
    assert_eq!(rt; roots.len(), 1);
    let (graph, mut seat) = WideGraph::new(rt.alloc(), space, 4, roots)?;
    let child = seat.split(&graph, 1, 1);
    assert_eq!(rt;
        (child.number(), child.numbers_left(), child.stake()),
        (1, 0, 1)
    );
    let one = Told {
        seat,
        place: 0,
        answer: None,
    };
    let two = Told {
        seat: child,
        place: 0,
        answer: None,
    };
    let (one, two) = add_both(&rt, &graph, one, two);
    let cell = match (one.answer, two.answer) {
        (Some(Added::New { cell }), Some(Added::Old { cell: same }))
        | (Some(Added::Old { cell: same }), Some(Added::New { cell }))
            if cell == same => { Some(cell) }
        _ => None,
    };
    assert!(rt; cell.is_some());
    let mut seat = one.seat;
    seat.join(&graph, two.seat);
    seat.meet(&graph);
    assert_eq!(rt; seat.stake(), 32);
    let found = find_root(&graph, &mut seat, 0);
    assert_eq!(rt; found, Some(cell));
    Ok(())
}

/// So many seats that are split off, for as many roots.
fn split_off(
    alloc: Global,
    graph: &WideGraph,
    seat: &mut WideSeat,
    seats: usize,
) -> Result<Vec<Told>, NoMemory>
    requires belongs { Belongs seat.old graph.now }
    requires idle { seat.old.view.dues.pending ≡ None }
    ensures belongs { Belongs seat.new graph.now }
    ensures idle { seat.new.view.dues.pending ≡ None }
    ensures jobs { IfOk result (λ jobs. All (λ j. Belongs j.seat graph.now × (j.seat.view.dues.pending ≡ None)) jobs.items) }
{
    let mut jobs = Vec::new(alloc);
    for place in 0..seats {
        if seat.stake() > 1 && seat.numbers_left() > 0 {
            let child = seat.split(graph, 1, 1);
            jobs.push(Told {
                seat: child,
                place,
                answer: None,
            })?;
        }
    }
    Ok(jobs)
}

/// Each seat adds on a thread of its own.
fn add_all<R: Threads + Sync>(
    rt: &R,
    graph: &WideGraph,
    jobs: Vec<Told>,
) -> Result<Vec<Told>, NoMemory>
    requires { All (λ j. Belongs j.seat graph.now × (j.seat.view.dues.pending ≡ None)) jobs.items }
{
    let run = move |job: Told| -> Told
        requires { Belongs job.seat graph.now × (job.seat.view.dues.pending ≡ None) }
    { add_at_place(graph, job) };
    match map_vec(rt, jobs, &run) {
        Ok(told) => Ok(told),
        Err(_) => Err(NoMemory),
    }
}

/// How many pairs were new, each in a cell that no one before it was told, and are found there.
fn found_where_put(graph: &WideGraph, seat: &mut WideSeat, told: &[Told]) -> usize
    requires belongs { Belongs seat.old graph.now }
    requires idle { seat.old.view.dues.pending ≡ None }
    ensures belongs { Belongs seat.new graph.now }
    ensures idle { seat.new.view.dues.pending ≡ None }
{
    let mut taken = [false; 64];
    let mut right = 0;
    for job in told {
        let found = find_root(graph, seat, job.place);
        if let Some(Added::New { cell }) = job.answer {
            if found == Some(Some(cell)) && taken.get(cell as usize) == Some(&false) {
                taken[cell as usize] = true;
                right += 1;
            }
        }
    }
    right
}

/// Sixteen pairs with one first half.
const ONE_HALF: [(u64, u64); 16] = [
    (7, 0),
    (7, 1),
    (7, 2),
    (7, 3),
    (7, 4),
    (7, 5),
    (7, 6),
    (7, 7),
    (7, 8),
    (7, 9),
    (7, 10),
    (7, 11),
    (7, 12),
    (7, 13),
    (7, 14),
    (7, 15),
];

#[test]
fn one_half_from_sixteen_seats(rt: HostRuntime) -> Result<(), NoMemory> {
    let space = wide_space(&LETTERS).expect(&rt, "a wide space");
    let roots = words_of(rt.alloc(), &space, &ONE_HALF)?;
    assert_eq!(rt; roots.len(), 16);
    let (graph, mut seat) = WideGraph::new(rt.alloc(), space, 16, roots)?;
    let jobs = split_off(rt.alloc(), &graph, &mut seat, 16)?;
    let told = add_all(&rt, &graph, jobs)?;
    assert_eq!(rt; told.len(), 16);
    assert_eq!(rt; found_where_put(&graph, &mut seat, &told), 16);
    Ok(())
}

/// The number whose path is that of a pair.
fn mixed(code: WideCode) -> u64
    ensures { result ≡ mixed code }
{
    code.high.wrapping_add(code.low.wrapping_mul(3))
}

/// A seat claims the first cell of the root's path, and is dropped before it finishes the cell. Answers whether the cell was
/// empty.
fn claim_and_go(graph: &WideGraph, seat: &mut WideSeat, place: usize) -> Option<bool>
    requires belongs { Belongs seat.old graph.now }
    requires idle { seat.old.view.dues.pending ≡ None }
    ensures belongs { Belongs seat.new graph.now }
    ensures idle { seat.new.view.dues.pending ≡ None }
{
    let code = root(graph, place)?;
    if seat.stake() < 2 || seat.numbers_left() < 1 {
        return None;
    }
    let mut other = seat.split(graph, 1, 1);
    let cells = graph.world().capacity() + 32;
    let cell = home(mixed(code), cells);
    Some(claim_first(graph, &mut other, cell, code, Origin::Root) == 0)
}

/// Of how many roots at these places a first cell was claimed so.
fn claimed_and_left(graph: &WideGraph, seat: &mut WideSeat, from: usize, end: usize) -> usize
    requires belongs { Belongs seat.old graph.now }
    requires idle { seat.old.view.dues.pending ≡ None }
    ensures belongs { Belongs seat.new graph.now }
    ensures idle { seat.new.view.dues.pending ≡ None }
{
    let mut claimed = 0;
    for place in from..end {
        if claim_and_go(graph, seat, place) == Some(true) {
            claimed += 1;
        }
    }
    claimed
}

/// How many roots at these places were missed, then new, and then found in the cell that was told.
fn new_and_found(graph: &WideGraph, seat: &mut WideSeat, from: usize, end: usize) -> usize
    requires belongs { Belongs seat.old graph.now }
    requires idle { seat.old.view.dues.pending ≡ None }
    ensures belongs { Belongs seat.new graph.now }
    ensures idle { seat.new.view.dues.pending ≡ None }
{
    let mut right = 0;
    for place in from..end {
        let before = find_root(graph, seat, place);
        let answer = add_root(graph, seat, place);
        let after = find_root(graph, seat, place);
        if let Some(Added::New { cell }) = answer {
            if before == Some(None) && after == Some(Some(cell)) {
                right += 1;
            }
        }
    }
    right
}

/// Thirty-one pairs with different first halves and different first cells among 34, four pairs with one more half, and a pair
/// with the first half of the second.
const LOST: [(u64, u64); 36] = [
    (0, 1),
    (1, 31),
    (2, 22),
    (3, 31),
    (4, 4),
    (5, 31),
    (6, 5),
    (7, 16),
    (8, 24),
    (9, 23),
    (10, 24),
    (11, 31),
    (12, 4),
    (13, 31),
    (14, 24),
    (15, 9),
    (16, 24),
    (17, 31),
    (18, 24),
    (19, 7),
    (20, 10),
    (21, 29),
    (22, 12),
    (23, 31),
    (24, 30),
    (25, 31),
    (26, 22),
    (27, 31),
    (28, 24),
    (29, 1),
    (30, 24),
    (31, 0),
    (31, 1),
    (31, 2),
    (31, 3),
    (1, 5),
];

/// Of 34 cells 31 are left with a first half by seats that are dropped. Three cells are free for pairs with other halves, one
/// more than the capacity. A pair with a first half that stands somewhere finishes that cell, whoever began it.
#[test]
fn lost_between_two_words(rt: HostRuntime) -> Result<(), NoMemory> {
    let space = wide_space(&LETTERS).expect(&rt, "a wide space");
    let roots = words_of(rt.alloc(), &space, &LOST)?;
    assert_eq!(rt; roots.len(), 36);
    let (graph, mut seat) = WideGraph::new(rt.alloc(), space, 2, roots)?;
    assert_eq!(rt; claimed_and_left(&graph, &mut seat, 0, 31), 31);
    assert_eq!(rt; seat.stake(), 1);
    assert_eq!(rt; new_and_found(&graph, &mut seat, 31, 34), 3);
    assert_eq!(rt; add_root(&graph, &mut seat, 34), Some(Added::Full));
    assert_eq!(rt; find_root(&graph, &mut seat, 34), Some(None));
    assert_eq!(rt; new_and_found(&graph, &mut seat, 0, 1), 1);
    assert_eq!(rt; new_and_found(&graph, &mut seat, 35, 36), 1);
    assert_eq!(rt; add_root(&graph, &mut seat, 1), Some(Added::Full));
    assert_eq!(rt; find_root(&graph, &mut seat, 1), Some(None));
    Ok(())
}

/// Thirty-four pairs of few halves, which have seven first cells among 33.
const CLOSE: [(u64, u64); 34] = [
    (0, 0),
    (1, 0),
    (2, 0),
    (3, 0),
    (4, 0),
    (5, 0),
    (0, 1),
    (1, 1),
    (2, 1),
    (3, 1),
    (4, 1),
    (5, 1),
    (0, 2),
    (1, 2),
    (2, 2),
    (3, 2),
    (4, 2),
    (5, 2),
    (0, 3),
    (1, 3),
    (2, 3),
    (3, 3),
    (4, 3),
    (5, 3),
    (0, 4),
    (1, 4),
    (2, 4),
    (3, 4),
    (4, 4),
    (5, 4),
    (0, 5),
    (1, 5),
    (2, 5),
    (3, 5),
];

/// With a capacity of 1 there are 33 cells: the last pair finds none, and all others are found where they were put.
#[test]
fn every_cell(rt: HostRuntime) -> Result<(), NoMemory> {
    let space = wide_space(&LETTERS).expect(&rt, "a wide space");
    let roots = words_of(rt.alloc(), &space, &CLOSE)?;
    assert_eq!(rt; roots.len(), 34);
    let (graph, mut seat) = WideGraph::new(rt.alloc(), space, 1, roots)?;
    assert_eq!(rt; new_and_found(&graph, &mut seat, 0, 33), 33);
    assert_eq!(rt; add_root(&graph, &mut seat, 33), Some(Added::Full));
    assert_eq!(rt; find_root(&graph, &mut seat, 33), Some(None));
    Ok(())
}
