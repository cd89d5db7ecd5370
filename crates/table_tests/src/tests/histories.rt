//! A desk over lists in memory, by calls.
use super::worlds::world;
use crystal_cartan::Arrow;
use crystal_streams::NoMemory;
use graph_history::{Added, Desk, Draw, Look, PlainDesk};
use std::alloc::Global;
use tensor_words::Factor;

const F_1: Arrow = Arrow {
    down: true,
    index: 1,
};

const E_1: Arrow = Arrow {
    down: false,
    index: 1,
};

fn desk(alloc: Global, cells: u32, roots: Vec<u64>) -> Result<Option<PlainDesk>, NoMemory> {
    match world(&[Factor::Vector, Factor::Vector], cells, roots) {
        Some(world) => Ok(Some(PlainDesk::new(alloc, world, 0)?)),
        None => Ok(None),
    }
}

fn add(desk: &mut PlainDesk, code: u64) -> Option<Added> {
    if !desk.world().has_root(code) || desk.room() == 0 {
        return None;
    }
    Some(desk.add(code))
}

fn find(desk: &mut PlainDesk, code: u64) -> Option<Option<u32>> {
    if code >= desk.space().size() {
        return None;
    }
    Some(desk.find(code))
}

fn look(desk: &mut PlainDesk, code: u64, arrow: Arrow) -> Option<Look> {
    if code >= desk.space().size() || !desk.space().cartan().has_index(arrow.index) {
        return None;
    }
    let cell = desk.find(code)?;
    Some(desk.look(cell, arrow))
}

fn draw(desk: &mut PlainDesk, code: u64, arrow: Arrow) -> Option<Draw> {
    if code >= desk.space().size() || !desk.space().cartan().has_index(arrow.index) {
        return None;
    }
    if desk.room() == 0 {
        return None;
    }
    let cell = desk.find(code)?;
    Some(desk.draw(cell, arrow))
}

fn word(desk: &mut PlainDesk, code: u64) -> Option<u64> {
    if code >= desk.space().size() {
        return None;
    }
    let cell = desk.find(code)?;
    Some(desk.word(cell))
}

/// The root `1 1` alone. A debt is owed for each word that is put in.
#[test]
fn four_cells(rt: HostRuntime) -> Result<(), NoMemory> {
    let made = desk(rt.alloc(), 4, Vec::from_array(rt.alloc(), [0])?);
    let mut desk = made.ok().flatten().expect(&rt, "memory for four cells");
    let before = desk.tally();
    let first = add(&mut desk, 0);
    let between = desk.tally();
    let blank = look(&mut desk, 0, F_1);
    let Some(Draw::To { cell }) = draw(&mut desk, 0, F_1) else {
        panic!(rt; "the arrow leads to a word");
    };
    let below = look(&mut desk, 0, F_1);
    let found = find(&mut desk, 1);
    let code = word(&mut desk, 1);
    let above = draw(&mut desk, 0, E_1);
    let missing = find(&mut desk, 3);
    desk.call_as(1);
    let second = add(&mut desk, 0);
    let after = desk.tally();
    let _front = desk.front();
    assert!(rt; matches!(first, Some(Added::New { .. })));
    assert!(rt; matches!(second, Some(Added::Old { .. })));
    assert_eq!(rt; (before, between, after), (0, 1, 2));
    assert_eq!(rt;
        (blank, below),
        (Some(Look::Blank), Some(Look::To { cell }))
    );
    assert_eq!(rt; (found, missing), (Some(Some(cell)), Some(None)));
    assert_eq!(rt; (code, above), (Some(1), Some(Draw::Zero)));
    Ok(())
}

/// The roots `1 1` and `2 1`, of which one alone has a cell.
#[test]
fn one_cell(rt: HostRuntime) -> Result<(), NoMemory> {
    let made = desk(rt.alloc(), 1, Vec::from_array(rt.alloc(), [0, 2])?);
    let mut desk = made.ok().flatten().expect(&rt, "memory for one cell");
    assert!(rt; matches!(add(&mut desk, 0), Some(Added::New { .. })));
    assert_eq!(rt; add(&mut desk, 2), Some(Added::Full));
    assert_eq!(rt; find(&mut desk, 2), Some(None));
    assert_eq!(rt; draw(&mut desk, 0, F_1), Some(Draw::Full));
    Ok(())
}
