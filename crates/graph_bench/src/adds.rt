//! Adds from seats of one graph.
ghost use Rattle.std.specs.Prelude.{◌≡◌, ◌≤◌, ◌<◌, ◌+◌, ◌-◌, ◌*◌, length, Contains};
ghost use Rattle.std.specs.Thread.{IsSync};
ghost use Rattle.graph_rule.specs.Values.{Belongs};
ghost use Rattle.graph_bench.specs.Adding.{CanAdd, HasAdded};

use crystal_cartan::{Cartan, Kind};
use graph_history::{Added, Origin};
use graph_rule::{Graph, Seat};
use std::alloc::Global;
use std::thread::{Threads, join};
use table_calls::add;
use tensor_words::{Codes, Factor, Space, World};

/// From how many seats the codes are added.
#[derive(Clone, Copy)]
pub enum Seats {
    None,
    One,
    Four,
}

/// The words of twenty letters in A_1, with as many cells as roots: the words with the first codes.
fn world(alloc: Global, codes: u32) -> Option<World> {
    let cartan = Cartan::new(Kind::A, 1).ok()?;
    let space = Space::new(cartan, &[Factor::Vector; 20]).ok()?;
    let roots = Codes::of((0..u64::from(codes)).collect(alloc).ok()?);
    if roots.len() > codes as usize {
        return None;
    }
    World::new(space, codes, roots).ok()
}

/// Adds a root, and answers whether it was new.
fn add_root(graph: &Graph, seat: &mut Seat, root: u64) -> bool
    requires can { CanAdd graph.now seat.old 1 }
    requires root { Contains graph.now.world.roots root }
    ensures can { CanAdd graph.now seat.new 1 }
    ensures stake { seat.new.view.stake ≡ seat.old.view.stake }
{
    matches!(add(graph, seat, root, Origin::Root), Added::New { .. })
}

/// Adds the roots at the places `from` to `end`, and answers how many were new.
fn add_all(graph: &Graph, mut seat: Seat, from: usize, end: usize) -> (Seat, usize)
    requires can { CanAdd graph.now seat 1 }
    requires places { (from ≤ end) × (end ≤ length graph.now.world.roots) }
    ensures { HasAdded graph.now seat (end - from) result }
{
    let roots = graph.world().roots();
    let mut fresh = 0;
    for place in from..end {
        if add_root(graph, &mut seat, *roots.at(place)) {
            fresh += 1;
        }
    }
    (seat, fresh)
}

/// A seat that is split off, so that so many seats can be made of each of the two.
fn half(graph: &Graph, seat: &mut Seat, seats: u32) -> Seat
    requires can { CanAdd graph.now seat.old (2 * seats) }
    requires some { 1 ≤ seats }
    ensures can { CanAdd graph.now seat.new seats × CanAdd graph.now result seats }
    ensures stake { seat.new.view.stake + result.view.stake ≡ seat.old.view.stake }
{
    seat.split(graph, u64::from(seats), seats)
}

/// Takes in a seat that was split off.
fn whole(graph: &Graph, mut seat: Seat, other: Seat) -> Seat
    requires seat { Belongs seat graph.now × (seat.view.dues.pledge ≡ 0) }
    requires other { Belongs other graph.now × (other.view.dues.pledge ≡ 0) }
    ensures seat { Belongs result graph.now × (result.view.dues.pledge ≡ 0) }
    ensures stake { result.view.stake ≡ seat.view.stake + other.view.stake }
{
    seat.join(graph, other);
    seat
}

/// Adds the same roots from two seats on threads of their own: half of them from a seat that is split off.
fn add_from_two<R: Threads + Sync>(
    rt: &R,
    graph: &Graph,
    mut seat: Seat,
    from: usize,
    end: usize,
) -> (Seat, usize)
    requires can { CanAdd graph.now seat 2 }
    requires places { (from ≤ end) × (end ≤ length graph.now.world.roots) }
    ensures { HasAdded graph.now seat (end - from) result }
{
    let other = half(graph, &mut seat, 1);
    let middle = from + (end - from) / 2;
    let ((seat, fresh), (other, more)) = join(
        rt,
        move || add_all(graph, seat, from, middle),
        move || add_all(graph, other, middle, end),
    );
    (whole(graph, seat, other), fresh + more)
}

/// Adds the same roots from four seats on threads of their own.
fn add_from_four<R: Threads + Sync>(
    rt: &R,
    graph: &Graph,
    mut seat: Seat,
    from: usize,
    end: usize,
) -> (Seat, usize)
    requires can { CanAdd graph.now seat 4 }
    requires places { (from ≤ end) × (end ≤ length graph.now.world.roots) }
    ensures { HasAdded graph.now seat (end - from) result }
{
    let other = half(graph, &mut seat, 2);
    let middle = from + (end - from) / 2;
    let ((seat, fresh), (other, more)) = join(
        rt,
        move || -> (Seat, usize)
            requires { IsSync R.row × CanAdd graph.now seat 2 × (from ≤ middle) × (middle ≤ length graph.now.world.roots) }
            ensures { HasAdded graph.entry.now seat (middle - from) result }
        { add_from_two(rt, graph, seat, from, middle) },
        move || -> (Seat, usize)
            requires { IsSync R.row × CanAdd graph.now other 2 × (middle ≤ end) × (end ≤ length graph.now.world.roots) }
            ensures { HasAdded graph.entry.now other (end - middle) result }
        { add_from_two(rt, graph, other, middle, end) },
    );
    (whole(graph, seat, other), fresh + more)
}

/// How many of so many codes are new in a new graph, `None` for want of memory or where there are too many.
pub fn run_adds<R: Threads + Sync>(
    rt: &R,
    alloc: Global,
    seats: Seats,
    codes: u32,
) -> Option<usize> {
    let Ok((graph, seat)) = Graph::new(alloc, world(alloc, codes)?) else {
        return None;
    };
    let end = graph.world().roots().len();
    let (_seat, fresh) = match seats {
        Seats::None => (seat, 0),
        Seats::One => add_all(&graph, seat, 0, end),
        Seats::Four => add_from_four(rt, &graph, seat, 0, end),
    };
    Some(fresh)
}
