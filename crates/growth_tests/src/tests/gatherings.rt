//! Benches that load and steal, and bring their passes home, by calls.
ghost use Rattle.std.specs.Prelude.{◌≡◌, ◌≤◌, length};
ghost use Rattle.graph_rule.specs.Values.{Belongs};
ghost use Rattle.parcel_deques.specs.Making.{AreApart};

use crystal_cartan::{Cartan, Kind};
use crystal_streams::NoMemory;
use graph_rule::{Graph, Seat};
use parcel_deques::{Bench, Cells, Naming, Parcel, benches, gather};
use std::alloc::Global;
use std::marker::Brand;
use tensor_words::{Codes, Factor, Space, World};

/// The words of one letter in A_1, in two cells, with the root `1`.
pub(crate) fn world(alloc: Global) -> Result<Option<World>, NoMemory> {
    let roots = Codes::of(Vec::from_array(alloc, [0])?);
    let Ok(cartan) = Cartan::new(Kind::A, 1) else {
        return Ok(None);
    };
    let Ok(space) = Space::new(cartan, &[Factor::Vector]) else {
        return Ok(None);
    };
    if roots.len() > 1 {
        return Ok(None);
    }
    Ok(World::new(space, 2, roots).ok())
}

/// A parcel without cells.
fn parcel<J: Naming>(alloc: Global, graph: &Graph, seat: &mut Seat) -> Option<Parcel<J>>
    requires named { J.graph ≡ graph.now }
    requires belongs { Belongs seat.old graph.now }
    requires pledge { seat.old.view.dues.pledge ≡ 0 }
    ensures belongs { Belongs seat.new graph.now }
    ensures pledge { seat.new.view.dues.pledge ≡ 0 }
{
    if seat.stake() < 2 || seat.numbers_left() == 0 {
        return None;
    }
    Some(Parcel::hand(graph, seat, 1, Cells::of(Vec::new(alloc))))
}

/// Loads so many parcels. How many were taken.
fn load_each<J: Naming>(
    alloc: Global,
    graph: &Graph,
    seat: &mut Seat,
    bench: &mut Bench<J>,
    count: u32,
) -> u32
    requires named { J.graph ≡ graph.now }
    requires belongs { Belongs seat.old graph.now }
    requires pledge { seat.old.view.dues.pledge ≡ 0 }
    ensures { bench.new ≡ record bench.old { pushed = bench.new.pushed } }
{
    let mut loaded = 0;
    for _place in 0..count {
        if let Some(parcel) = parcel(alloc, graph, seat) {
            if bench.load(parcel).is_ok() {
                loaded += 1;
            }
        }
    }
    loaded
}

/// Each bench tries to steal. How many did.
fn steal_each<J: Naming>(benches: &mut Vec<Bench<J>>) -> usize
    requires { AreApart benches.old.items }
    ensures apart { AreApart benches.new.items }
    ensures many { length benches.new.items ≡ length benches.old.items }
{
    let mut stolen = 0;
    for place in 0..benches.len() {
        if benches[place].steal().is_some() {
            stolen += 1;
        }
    }
    stolen
}

/// The first bench loads a parcel for each other, each other steals one, and all passes come home. How many were loaded
/// and stolen, and whether the first bench's deque is then empty.
fn steal_across<J: Naming>(
    alloc: Global,
    graph: &Graph,
    seat: &mut Seat,
    growers: u32,
) -> Result<(u32, usize, bool), NoMemory>
    requires named { J.graph ≡ graph.now }
    requires belongs { Belongs seat.old graph.now }
    requires pledge { seat.old.view.dues.pledge ≡ 0 }
    requires growers { (1 ≤ growers) × (growers ≤ 16) }
{
    let mut all = benches::<J>(alloc, growers, 16)?;
    let loaded = load_each(alloc, graph, seat, &mut all[0], growers - 1);
    let stolen = steal_each(&mut all);
    gather(&mut all);
    let empty = all[0].drain().is_none();
    Ok((loaded, stolen, empty))
}

#[test]
fn stolen_parcels_come_home(rt: HostRuntime) -> Result<(), NoMemory> {
    for growers in [1, 2, 16] {
        let world = world(rt.alloc())?.expect(&rt, "a world of two cells");
        let (graph, mut seat) = Graph::new(rt.alloc(), world)?;
        let found = steal_across::<Brand>(rt.alloc(), &graph, &mut seat, growers)?;
        assert_eq!(rt;
            found,
            (growers - 1, growers as usize - 1, true),
            "{growers} benches"
        );
    }
    Ok(())
}
