//! Growth from one root, by calls.
ghost use Rattle.std.specs.Prelude.{◌≡◌, ◌≤◌, Contains};
ghost use Rattle.graph_rule.specs.Parting.{first_view};

use super::barriers::{Barrier, MOST_TURNS};
use crystal_cartan::{Cartan, Kind};
use crystal_growers::{Grown, grow};
use crystal_streams::NoMemory;
use graph_history::{Added, Origin};
use graph_numbering::finished;
use graph_rule::{Graph, Seat, settle, tally};
use std::alloc::Global;
use std::sync::atomic::{AtomicU64, Ordering};
use std::thread::Threads;
use table_calls::add;
use tableau_reading::Shape;
use tensor_words::{Codes, Factor, Space, World};
use worker_gate::{Gate, OpenGate};

/// What came of a growth: how many debts and vertices there are in the end, or the code that found no cell.
#[derive(Clone, Copy, Debug, PartialEq, Eq)]
enum Outcome {
    Closed { debts: u64, vertices: u32 },
    Full,
}

/// The words of some letters.
fn words(kind: Kind, letters: &[Factor]) -> Option<Space> {
    let Ok(cartan) = Cartan::new(kind, 2) else {
        return None;
    };
    Space::new(cartan, letters).ok()
}

/// A world with one root, `None` where there is none with this code.
fn world(alloc: Global, space: Space, cells: u32, root: u64) -> Result<Option<World>, NoMemory> {
    let roots = Codes::of(Vec::from_array(alloc, [root])?);
    if roots.len() > 1 {
        return Ok(None);
    }
    Ok(World::new(space, cells, roots).ok())
}

/// Puts in a root at the seat of a new graph, and grows from its cell. Where the growth closes nothing is unpaid, so the
/// graph can be settled.
fn grow_from<R: Threads + Sync, G: Gate>(
    rt: &R,
    alloc: Global,
    graph: &Graph,
    mut seat: Seat,
    root: u64,
    growers: u32,
    gate: &G,
) -> Result<Option<Outcome>, NoMemory>
    requires table { seat.table ≡ graph.now.table }
    requires new { seat.view ≡ first_view graph.now.world }
    requires root { Contains graph.now.world.roots root }
    requires growers { (1 ≤ growers) × (growers ≤ 16) }
{
    let Added::New { cell } = add(graph, &mut seat, root, Origin::Root) else {
        return Ok(None);
    };
    seat.reveal();
    let cells = Vec::from_array(alloc, [cell])?;
    match grow(rt, alloc, graph, &mut seat, cells, growers, gate)? {
        Grown::Closed => {
            let debts = tally(graph, &mut seat);
            let closed = settle(graph, &seat);
            let vertices = finished(alloc, graph, &mut seat, &closed)?.len();
            Ok(Some(Outcome::Closed { debts, vertices }))
        }
        Grown::Full { .. } => Ok(Some(Outcome::Full)),
    }
}

/// The same in a new graph.
fn grow_new<R: Threads + Sync, G: Gate>(
    rt: &R,
    alloc: Global,
    world: World,
    root: u64,
    growers: u32,
    gate: &G,
) -> Result<Option<Outcome>, NoMemory>
    requires { (1 ≤ growers) × (growers ≤ 16) }
{
    if !world.has_root(root) {
        return Ok(None);
    }
    let (graph, seat) = Graph::new(alloc, world)?;
    grow_from(rt, alloc, &graph, seat, root, growers, gate)
}

/// Growth in the words of three letters in A_2, from the root `2 1 1`.
fn grow_words<R: Threads + Sync, G: Gate>(
    rt: &R,
    alloc: Global,
    cells: u32,
    growers: u32,
    gate: &G,
) -> Result<Option<Outcome>, NoMemory>
    requires { (1 ≤ growers) × (growers ≤ 16) }
{
    let letters = [Factor::Vector, Factor::Vector, Factor::Vector];
    let Some(space) = words(Kind::A, &letters) else {
        return Ok(None);
    };
    match world(alloc, space, cells, 9)? {
        None => Ok(None),
        Some(world) => grow_new(rt, alloc, world, 9, growers, gate),
    }
}

/// Growth in the letters of C_2, from the lowest one.
fn grow_letters<R: Threads + Sync>(
    rt: &R,
    alloc: Global,
    cells: u32,
) -> Result<Option<Outcome>, NoMemory> {
    let Some(space) = words(Kind::C, &[Factor::Vector]) else {
        return Ok(None);
    };
    match world(alloc, space, cells, 3)? {
        None => Ok(None),
        Some(world) => grow_new(rt, alloc, world, 3, 2, &OpenGate),
    }
}

#[test]
fn eight_words(rt: HostRuntime) -> Result<(), NoMemory> {
    let all = Some(Outcome::Closed {
        debts: 0,
        vertices: 8,
    });
    for growers in 1..5 {
        assert_eq!(rt; grow_words(&rt, rt.alloc(), 8, growers, &OpenGate)?, all);
        assert_eq!(rt; grow_words(&rt, rt.alloc(), 64, growers, &OpenGate)?, all);
        assert_eq!(rt;
            grow_words(&rt, rt.alloc(), 7, growers, &OpenGate)?,
            Some(Outcome::Full)
        );
    }
    Ok(())
}

#[test]
fn from_the_lowest_letter(rt: HostRuntime) -> Result<(), NoMemory> {
    let all = Some(Outcome::Closed {
        debts: 0,
        vertices: 4,
    });
    assert_eq!(rt; grow_letters(&rt, rt.alloc(), 4)?, all);
    assert_eq!(rt; grow_letters(&rt, rt.alloc(), 3)?, Some(Outcome::Full));
    Ok(())
}

#[test]
fn growers_run_side_by_side(rt: HostRuntime) -> Result<(), NoMemory> {
    let both = (1 << 0) | (1 << 1);
    let gate = Barrier::of(both);
    let ended = grow_words(&rt, rt.alloc(), 8, 2, &gate)?;
    let all = Outcome::Closed {
        debts: 0,
        vertices: 8,
    };
    assert_eq!(rt; ended, Some(all));
    assert_eq!(rt; gate.counts(), (0, both));
    Ok(())
}

/// A gate for one worker, that counts its turns, and those that are not one more than the last.
#[derive(Drop)]
struct Counting {
    turns: AtomicU64,
    wrong: AtomicU64,
}

impl Gate for Counting {
    fn pass(&self, worker: u32, turn: u64) {
        let before = self.turns.fetch_add(1, Ordering::SeqCst);
        if worker != 0 || turn != before {
            self.wrong.fetch_add(1, Ordering::SeqCst);
        }
    }
}

/// From `2 1 1` there are 1, 2, 2, 2 and 1 words in 0 to 4 arrows, and each of these lists is one parcel.
#[test]
fn turns_count_on(rt: HostRuntime) -> Result<(), NoMemory> {
    let gate = Counting {
        turns: AtomicU64::new(0),
        wrong: AtomicU64::new(0),
    };
    let ended = grow_words(&rt, rt.alloc(), 8, 1, &gate)?;
    let all = Outcome::Closed {
        debts: 0,
        vertices: 8,
    };
    assert_eq!(rt; ended, Some(all));
    assert_eq!(rt; gate.turns.load(Ordering::SeqCst), 6);
    assert_eq!(rt; gate.wrong.load(Ordering::SeqCst), 0);
    Ok(())
}

/// Growth from the top of the tableaux with rows of 4, 3, 2 and 1 boxes in C_4.
fn grow_tableaux<R: Threads + Sync, G: Gate>(
    rt: &R,
    alloc: Global,
    cells: u32,
    growers: u32,
    gate: &G,
) -> Result<Option<Outcome>, NoMemory>
    requires { (1 ≤ growers) × (growers ≤ 16) }
{
    let Ok(cartan) = Cartan::new(Kind::C, 4) else {
        return Ok(None);
    };
    let Ok(shape) = Shape::new(&[4, 3, 2, 1], cartan) else {
        return Ok(None);
    };
    let space = shape.space();
    let root = space.code_of(&shape.top());
    match world(alloc, space, cells, root)? {
        None => Ok(None),
        Some(world) => grow_new(rt, alloc, world, root, growers, gate),
    }
}

/// A gate at which worker 1 waits at its start until worker 0 is at a late parcel, and worker 0 waits there until worker 1
/// has a parcel, each for so many turns at most. Worker 1 has loaded none then, so it stole that parcel.
#[derive(Drop)]
struct Stealing {
    first: AtomicU64,
    second: AtomicU64,
    missed: AtomicU64,
}

const LATE: u64 = 40;

/// Whether a count comes to a number within so many turns.
fn reaches(count: &AtomicU64, least: u64) -> bool {
    for _ in 0..MOST_TURNS {
        if count.load(Ordering::SeqCst) >= least {
            return true;
        }
    }
    false
}

impl Gate for Stealing {
    fn pass(&self, worker: u32, turn: u64) {
        let (own, other) = if worker == 0 {
            (&self.first, &self.second)
        } else {
            (&self.second, &self.first)
        };
        own.store(turn, Ordering::SeqCst);
        let came = match (worker, turn) {
            (0, LATE) => reaches(other, 1),
            (1, 0) => reaches(other, LATE),
            _ => true,
        };
        if !came {
            self.missed.fetch_add(1, Ordering::SeqCst);
        }
    }
}

#[test]
fn a_parcel_is_stolen(rt: HostRuntime) -> Result<(), NoMemory> {
    let gate = Stealing {
        first: AtomicU64::new(0),
        second: AtomicU64::new(0),
        missed: AtomicU64::new(0),
    };
    let ended = grow_tableaux(&rt, rt.alloc(), 200_000, 2, &gate)?;
    let all = Outcome::Closed {
        debts: 0,
        vertices: 65_536,
    };
    assert_eq!(rt; ended, Some(all));
    assert!(rt; gate.second.load(Ordering::SeqCst) > 0);
    assert_eq!(rt; gate.missed.load(Ordering::SeqCst), 0);
    Ok(())
}
