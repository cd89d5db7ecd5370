//! A bench by calls: what was loaded comes out in order, with its tags and stakes.
ghost use Rattle.std.specs.Prelude.{◌≡◌};
ghost use Rattle.graph_rule.specs.Values.{Belongs};

use super::gatherings::world;
use crystal_streams::NoMemory;
use graph_rule::{Graph, Seat};
use parcel_deques::{Bench, Cells, Naming, Parcel, benches};
use std::alloc::Global;
use std::marker::Brand;

/// Who loaded a parcel, at which place, how many cells it has, and its stake.
#[derive(Clone, Copy, Debug, PartialEq, Eq)]
struct Taken {
    owner: u32,
    place: u64,
    cells: usize,
    stake: u32,
}

/// Takes a parcel's seat in, and tells of it.
fn take<J: Naming>(graph: &Graph, seat: &mut Seat, parcel: Parcel<J>) -> Taken
    requires named { J.graph ≡ graph.now }
    requires belongs { Belongs seat.old graph.now }
    requires pledge { seat.old.view.dues.pledge ≡ 0 }
    ensures belongs { Belongs seat.new graph.now }
    ensures pledge { seat.new.view.dues.pledge ≡ 0 }
{
    let tag = parcel.tag();
    let (child, cells) = parcel.into_parts();
    let stake = child.stake();
    seat.join(graph, child);
    Taken {
        owner: tag.owner,
        place: tag.place,
        cells: cells.as_slice().len(),
        stake,
    }
}

/// Loads a parcel of no cells with this stake. Whether it was loaded.
fn load<J: Naming>(
    alloc: Global,
    graph: &Graph,
    seat: &mut Seat,
    bench: &mut Bench<J>,
    stake: u32,
) -> bool
    requires named { J.graph ≡ graph.now }
    requires belongs { Belongs seat.old graph.now }
    requires pledge { seat.old.view.dues.pledge ≡ 0 }
    ensures belongs { Belongs seat.new graph.now }
    ensures pledge { seat.new.view.dues.pledge ≡ 0 }
{
    if seat.numbers_left() == 0 || stake == 0 || stake >= seat.stake() {
        return false;
    }
    let parcel = Parcel::hand(graph, seat, stake, Cells::of(Vec::new(alloc)));
    bench.load(parcel).is_ok()
}

/// Takes the next parcel in.
fn drain<J: Naming>(graph: &Graph, seat: &mut Seat, bench: &mut Bench<J>) -> Option<Taken>
    requires named { J.graph ≡ graph.now }
    requires belongs { Belongs seat.old graph.now }
    requires pledge { seat.old.view.dues.pledge ≡ 0 }
    ensures belongs { Belongs seat.new graph.now }
    ensures pledge { seat.new.view.dues.pledge ≡ 0 }
{
    match bench.drain() {
        Some(parcel) => Some(take(graph, seat, parcel)),
        None => None,
    }
}

/// A bench for one parcel takes three, past its capacity, and is drained. What was loaded, what was taken in turn, and the
/// stake in the end.
fn go_round<J: Naming>(
    alloc: Global,
    graph: &Graph,
    seat: &mut Seat,
) -> Result<([bool; 3], [Option<Taken>; 4], u32), NoMemory>
    requires named { J.graph ≡ graph.now }
    requires belongs { Belongs seat.old graph.now }
    requires pledge { seat.old.view.dues.pledge ≡ 0 }
{
    let mut all = benches::<J>(alloc, 1, 1)?;
    let bench = &mut all[0];
    let loaded = [
        load(alloc, graph, seat, bench, 1),
        load(alloc, graph, seat, bench, 2),
        load(alloc, graph, seat, bench, 3),
    ];
    let taken = [
        drain(graph, seat, bench),
        drain(graph, seat, bench),
        drain(graph, seat, bench),
        drain(graph, seat, bench),
    ];
    Ok((loaded, taken, seat.stake()))
}

fn noted(place: u64, stake: u32) -> Option<Taken> {
    Some(Taken {
        owner: 0,
        place,
        cells: 0,
        stake,
    })
}

#[test]
fn parcels_come_in_order(rt: HostRuntime) -> Result<(), NoMemory> {
    let world = world(rt.alloc())?.expect(&rt, "a world of two cells");
    let (graph, mut seat) = Graph::new(rt.alloc(), world)?;
    let (loaded, taken, stake) = go_round::<Brand>(rt.alloc(), &graph, &mut seat)?;
    assert_eq!(rt; loaded, [true; 3]);
    assert_eq!(rt; taken, [noted(0, 1), noted(1, 2), noted(2, 3), None]);
    assert_eq!(rt; stake, 65_536);
    Ok(())
}
