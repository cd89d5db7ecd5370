//! Desks at seats, the arrows of one cell, and a full table, by calls.
ghost use Rattle.std.specs.Prelude.{◌≡◌, MatchOption, Contains};
ghost use Rattle.graph_rule.specs.Parting.{first_view};
ghost use Rattle.graph_rule.specs.Values.{Belongs};
ghost use Rattle.table_calls.specs.Entries.{entered_dues};

use canonical_graph::Finished;
use crystal_cartan::{Arrow, Cartan, Kind};
use crystal_growers::{Grown, Spent, expand, grow};
use crystal_streams::NoMemory;
use graph_history::{Added, Desk, Draw, Look, Origin, PlainDesk};
use graph_numbering::finished;
use graph_rule::{Graph, Seat, settle};
use shared_desk::SharedDesk;
use std::alloc::Global;
use std::process::Abort;
use std::thread::Threads;
use tensor_words::{Codes, Factor, Space, World};
use worker_gate::OpenGate;

const F_1: Arrow = Arrow {
    down: true,
    index: 1,
};

const E_1: Arrow = Arrow {
    down: false,
    index: 1,
};

/// The words of two letters in A_1.
fn words() -> Option<Space> {
    let Ok(cartan) = Cartan::new(Kind::A, 1) else {
        return None;
    };
    Space::new(cartan, &[Factor::Vector, Factor::Vector]).ok()
}

/// With the roots `1 1` and `2 1`.
fn world(alloc: Global, cells: u32) -> Result<Option<World>, NoMemory> {
    let Some(space) = words() else {
        return Ok(None);
    };
    let roots = Codes::of(Vec::from_array(alloc, [0, 2])?);
    if roots.len() > 2 {
        return Ok(None);
    }
    Ok(World::new(space, cells, roots).ok())
}

/// Puts in a root, `None` where the code is that of no root.
fn add(desk: &mut SharedDesk, code: u64) -> Option<Added> {
    if !desk.world().has_root(code) || desk.room() == 0 {
        return None;
    }
    Some(desk.add(code))
}

fn find(desk: &mut SharedDesk, code: u64) -> Option<Option<u32>> {
    if code >= desk.space().size() {
        return None;
    }
    Some(desk.find(code))
}

/// Looks at an arrow of a root.
fn look(desk: &mut SharedDesk, code: u64, arrow: Arrow) -> Option<Look> {
    if !desk.world().has_root(code) || desk.room() == 0 {
        return None;
    }
    if !desk.space().cartan().has_index(arrow.index) {
        return None;
    }
    match desk.add(code) {
        Added::New { cell } | Added::Old { cell } => Some(desk.look(cell, arrow)),
        Added::Full => None,
    }
}

/// Draws an arrow of a root.
fn draw(desk: &mut SharedDesk, code: u64, arrow: Arrow) -> Option<Draw> {
    if !desk.world().has_root(code) || desk.room() < 2 {
        return None;
    }
    if !desk.space().cartan().has_index(arrow.index) {
        return None;
    }
    match desk.add(code) {
        Added::New { cell } | Added::Old { cell } => Some(desk.draw(cell, arrow)),
        Added::Full => None,
    }
}

/// Draws all arrows of a root.
fn expand_root(desk: &mut SharedDesk, code: u64) -> Option<Result<(), Spent>> {
    if !desk.world().has_root(code) || desk.room() < 17 {
        return None;
    }
    let _space = desk.space().cartan();
    match desk.add(code) {
        Added::New { cell } | Added::Old { cell } => Some(expand(desk, cell)),
        Added::Full => None,
    }
}

/// The same over lists in memory.
fn expand_plain(
    alloc: Global,
    world: World,
    code: u64,
) -> Result<Option<Result<(), Spent>>, NoMemory> {
    let _cells = world.cells();
    let _rank = world.space().cartan().rank();
    if !world.has_root(code) {
        return Ok(None);
    }
    let mut desk = PlainDesk::new(alloc, world, 0)?;
    match desk.add(code) {
        Added::New { cell } => Ok(Some(expand(&mut desk, cell))),
        _ => Ok(None),
    }
}

/// Puts in a root from a seat, `None` where the code is that of no root.
fn enter(graph: &Graph, seat: &mut Seat, code: u64) -> Option<Added>
    requires belongs { Belongs seat.old graph.now }
    requires pledge { seat.old.view.dues.pledge ≡ 0 }
    ensures belongs { Belongs seat.new graph.now }
    ensures parts { (seat.new.view.stake ≡ seat.old.view.stake) × (seat.new.view.left ≡ seat.old.view.left) }
    ensures dues { MatchOption result (seat.new ≡ seat.old) (λ answer. seat.new.view.dues ≡ entered_dues answer seat.old.view.dues) }
{
    if !graph.world().has_root(code) {
        return None;
    }
    Some(table_calls::add(graph, seat, code, Origin::Root))
}

/// The graph of the root `1 1` in three cells, which it fills, so that the other root finds none.
fn grow_full<R: Threads + Sync>(
    rt: &R,
    alloc: Global,
    graph: &Graph,
    mut seat: Seat,
) -> Result<Option<Finished>, NoMemory>
    requires table { seat.table ≡ graph.now.table }
    requires new { seat.view ≡ first_view graph.now.world }
{
    let Some(Added::New { cell }) = enter(graph, &mut seat, 0) else {
        return Ok(None);
    };
    seat.reveal();
    let cells = Vec::from_array(alloc, [cell])?;
    let Grown::Closed = grow(rt, alloc, graph, &mut seat, cells, 2, &OpenGate)? else {
        return Ok(None);
    };
    let Some(Added::Full) = enter(graph, &mut seat, 2) else {
        return Ok(None);
    };
    let Some(Added::Old { .. }) = enter(graph, &mut seat, 0) else {
        return Ok(None);
    };
    let closed = settle(graph, &seat);
    Ok(Some(finished(alloc, graph, &mut seat, &closed)?))
}

/// A root that is put in first.
fn put_in(rt: &impl Abort, desk: &mut SharedDesk) -> u32 {
    assert_eq!(rt; find(desk, 2), Some(None));
    let Some(Added::New { cell: two }) = add(desk, 2) else {
        panic!(rt; "the root is new");
    };
    assert_eq!(rt; find(desk, 2), Some(Some(two)));
    assert_eq!(rt; desk.tally(), 1);
    two
}

/// An arrow that is drawn first.
fn draw_first(rt: &impl Abort, desk: &mut SharedDesk) -> u32 {
    assert_eq!(rt; look(desk, 0, F_1), Some(Look::Blank));
    let Some(Draw::To { cell: next }) = draw(desk, 0, F_1) else {
        panic!(rt; "the arrow leads to a word");
    };
    assert_eq!(rt; look(desk, 0, F_1), Some(Look::To { cell: next }));
    assert_eq!(rt; find(desk, 1), Some(Some(next)));
    next
}

/// Arrows that lead to no word.
fn draw_others(rt: &impl Abort, desk: &mut SharedDesk) {
    assert_eq!(rt; draw(desk, 0, E_1), Some(Draw::Zero));
    assert_eq!(rt; look(desk, 0, E_1), Some(Look::Zero));
    assert_eq!(rt; expand_root(desk, 2), Some(Ok(())));
    assert_eq!(rt; look(desk, 2, F_1), Some(Look::Zero));
    assert_eq!(rt; desk.tally(), 3);
}

#[test]
fn four_cells(rt: HostRuntime) -> Result<(), NoMemory> {
    let world = world(rt.alloc(), 4)?.expect(&rt, "a world of four cells");
    let (graph, seat) = Graph::new(rt.alloc(), world)?;
    let Ok(made) = SharedDesk::new(rt.alloc(), &graph, seat, 64) else {
        return Err(NoMemory);
    };
    let mut desk = made;
    let two = put_in(&rt, &mut desk);
    let next = draw_first(&rt, &mut desk);
    draw_others(&rt, &mut desk);
    let (seat, added) = desk.into_parts();
    assert_eq!(rt; seat.stake(), 65_536);
    assert_eq!(rt; added.len(), 3);
    assert_eq!(rt; (added[0], added[2]), (two, next));
    Ok(())
}

/// There is no cell for the word to which the first arrow leads.
#[test]
fn one_cell(rt: HostRuntime) -> Result<(), NoMemory> {
    let small = world(rt.alloc(), 1)?.expect(&rt, "a world of one cell");
    let (graph, seat) = Graph::new(rt.alloc(), small)?;
    let Ok(made) = SharedDesk::new(rt.alloc(), &graph, seat, 64) else {
        return Err(NoMemory);
    };
    let mut desk = made;
    assert_eq!(rt; expand_root(&mut desk, 0), Some(Err(Spent { code: 1 })));
    assert_eq!(rt; add(&mut desk, 2), Some(Added::Full));
    Ok(())
}

/// The same over lists in memory, and where there are cells.
#[test]
fn one_cell_in_memory(rt: HostRuntime) -> Result<(), NoMemory> {
    let small = world(rt.alloc(), 1)?.expect(&rt, "a world of one cell");
    let full = expand_plain(rt.alloc(), small, 0)?;
    assert_eq!(rt; full, Some(Err(Spent { code: 1 })));
    let large = world(rt.alloc(), 4)?.expect(&rt, "a world of four cells");
    assert_eq!(rt; expand_plain(rt.alloc(), large, 0)?, Some(Ok(())));
    Ok(())
}

#[test]
fn no_vertex(rt: HostRuntime) -> Result<(), NoMemory> {
    let world = world(rt.alloc(), 4)?.expect(&rt, "a world of four cells");
    let (graph, mut seat) = Graph::new(rt.alloc(), world)?;
    let closed = settle(&graph, &seat);
    let made = finished(rt.alloc(), &graph, &mut seat, &closed)?;
    assert_eq!(rt; (made.len(), made.arrows()), (0, 0));
    Ok(())
}

#[test]
fn three_cells(rt: HostRuntime) -> Result<(), NoMemory> {
    let world = world(rt.alloc(), 3)?.expect(&rt, "a world of three cells");
    let (graph, seat) = Graph::new(rt.alloc(), world)?;
    let grown = grow_full(&rt, rt.alloc(), &graph, seat)?;
    let made = grown.expect(&rt, "a graph that fills the table");
    assert_eq!(rt; (made.len(), made.arrows()), (3, 2));
    assert_eq!(rt;
        (made.code_at(0), made.code_at(1), made.code_at(2)),
        (0, 1, 3)
    );
    Ok(())
}
