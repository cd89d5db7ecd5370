//! Eight seats on threads of their own add one root.
ghost use Rattle.std.specs.Prelude.{◌≡◌, ◌≤◌, ◌+◌, ◌*◌, Contains};
ghost use Rattle.std.specs.Thread.{IsSync};
ghost use Rattle.graph_rule.specs.Values.{Belongs};

use super::worlds::world;
use crystal_streams::NoMemory;
use graph_history::{Added, Origin};
use graph_rule::{Graph, Seat};
use std::thread::{Threads, join};
use table_calls::add;
use tensor_words::Factor;

/// Adds the root from one seat; answers the seat, and 1 where it was told that the root is new.
fn from_one(graph: &Graph, mut seat: Seat, root: u64) -> (Seat, u32)
    requires { Belongs seat graph.now × (seat.view.dues.pledge ≡ 0) × Contains graph.now.world.roots root }
    ensures { Belongs result.0 graph.now × (result.0.view.dues.pledge ≡ 0) × (result.1 ≤ 1) }
{
    let answer = add(graph, &mut seat, root, Origin::Root);
    (seat, u32::from(matches!(answer, Added::New { .. })))
}

/// A seat that is split off, so that so many seats can be made of each of the two.
fn half(graph: &Graph, seat: &mut Seat, seats: u32) -> Seat
    requires can { Belongs seat.old graph.now × (seat.old.view.dues.pledge ≡ 0) × (2 * seats ≤ seat.old.view.stake) × (2 * seats ≤ seat.old.view.left + 1) }
    requires some { 1 ≤ seats }
    ensures one { Belongs seat.new graph.now × (seat.new.view.dues.pledge ≡ 0) × (seats ≤ seat.new.view.stake) × (seats ≤ seat.new.view.left + 1) }
    ensures two { Belongs result graph.now × (result.view.dues.pledge ≡ 0) × (seats ≤ result.view.stake) × (seats ≤ result.view.left + 1) }
{
    seat.split(graph, u64::from(seats), seats)
}

/// Takes in a seat that was split off, and adds up the answers.
fn whole(graph: &Graph, one: (Seat, u32), two: (Seat, u32)) -> (Seat, u32)
    requires one { Belongs one.0 graph.now × (one.0.view.dues.pledge ≡ 0) × (one.1 ≤ 4) }
    requires two { Belongs two.0 graph.now × (two.0.view.dues.pledge ≡ 0) × (two.1 ≤ 4) }
    ensures { Belongs result.0 graph.now × (result.0.view.dues.pledge ≡ 0) × (result.1 ≡ one.1 + two.1) }
{
    let (mut seat, fresh) = one;
    let (other, more) = two;
    seat.join(graph, other);
    (seat, fresh + more)
}

fn from_two<R: Threads + Sync>(rt: &R, graph: &Graph, mut seat: Seat, root: u64) -> (Seat, u32)
    requires can { Belongs seat graph.now × (seat.view.dues.pledge ≡ 0) × (2 ≤ seat.view.stake) × (2 ≤ seat.view.left + 1) }
    requires root { Contains graph.now.world.roots root }
    ensures { Belongs result.0 graph.now × (result.0.view.dues.pledge ≡ 0) × (result.1 ≤ 2) }
{
    let other = half(graph, &mut seat, 1);
    let (one, two) = join(
        rt,
        move || from_one(graph, seat, root),
        move || from_one(graph, other, root),
    );
    whole(graph, one, two)
}

fn from_four<R: Threads + Sync>(rt: &R, graph: &Graph, mut seat: Seat, root: u64) -> (Seat, u32)
    requires can { Belongs seat graph.now × (seat.view.dues.pledge ≡ 0) × (4 ≤ seat.view.stake) × (4 ≤ seat.view.left + 1) }
    requires root { Contains graph.now.world.roots root }
    ensures { Belongs result.0 graph.now × (result.0.view.dues.pledge ≡ 0) × (result.1 ≤ 4) }
{
    let other = half(graph, &mut seat, 2);
    let (one, two) = join(
        rt,
        move || -> (Seat, u32)
            requires { IsSync R.row × Belongs seat graph.now × (seat.view.dues.pledge ≡ 0) × (2 ≤ seat.view.stake) × (2 ≤ seat.view.left + 1) × Contains graph.now.world.roots root }
            ensures { Belongs result.0 graph.entry.now × (result.0.view.dues.pledge ≡ 0) × (result.1 ≤ 2) }
        { from_two(rt, graph, seat, root) },
        move || -> (Seat, u32)
            requires { IsSync R.row × Belongs other graph.now × (other.view.dues.pledge ≡ 0) × (2 ≤ other.view.stake) × (2 ≤ other.view.left + 1) × Contains graph.now.world.roots root }
            ensures { Belongs result.0 graph.entry.now × (result.0.view.dues.pledge ≡ 0) × (result.1 ≤ 2) }
        { from_two(rt, graph, other, root) },
    );
    whole(graph, one, two)
}

fn from_eight<R: Threads + Sync>(rt: &R, graph: &Graph, mut seat: Seat, root: u64) -> (Seat, u32)
    requires can { Belongs seat graph.now × (seat.view.dues.pledge ≡ 0) × (8 ≤ seat.view.stake) × (8 ≤ seat.view.left + 1) }
    requires root { Contains graph.now.world.roots root }
{
    let other = half(graph, &mut seat, 4);
    let (one, two) = join(
        rt,
        move || -> (Seat, u32)
            requires { IsSync R.row × Belongs seat graph.now × (seat.view.dues.pledge ≡ 0) × (4 ≤ seat.view.stake) × (4 ≤ seat.view.left + 1) × Contains graph.now.world.roots root }
            ensures { Belongs result.0 graph.entry.now × (result.0.view.dues.pledge ≡ 0) × (result.1 ≤ 4) }
        { from_four(rt, graph, seat, root) },
        move || -> (Seat, u32)
            requires { IsSync R.row × Belongs other graph.now × (other.view.dues.pledge ≡ 0) × (4 ≤ other.view.stake) × (4 ≤ other.view.left + 1) × Contains graph.now.world.roots root }
            ensures { Belongs result.0 graph.entry.now × (result.0.view.dues.pledge ≡ 0) × (result.1 ≤ 4) }
        { from_four(rt, graph, other, root) },
    );
    whole(graph, one, two)
}

#[test]
fn one_of_eight_is_new(rt: HostRuntime) -> Result<(), NoMemory> {
    let roots = Vec::from_array(rt.alloc(), [2])?;
    let world = world(&[Factor::Vector, Factor::Vector], 4, roots).expect(
        &rt,
        "a world of four cells",
    );
    let (graph, seat) = Graph::new(rt.alloc(), world)?;
    assert!(rt; graph.world().has_root(2));
    let (seat, fresh) = from_eight(&rt, &graph, seat, 2);
    assert_eq!(rt; fresh, 1);
    assert_eq!(rt; seat.stake(), 65_536);
    Ok(())
}
