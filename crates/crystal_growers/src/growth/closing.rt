//! How growers come back.
ghost use Rattle.std.specs.Prelude.{◌≡◌, ℕ, ◌<◌, [], ◌++◌, nat_eq, None, length, All, Contains, IfOk, IfErr};
ghost use Rattle.std.specs.List.{IsDistinct};
ghost use Rattle.graph_history.specs.History.{state_of, HasSome};
ghost use Rattle.graph_rule.specs.Values.{Belongs};
ghost use Rattle.parcel_deques.specs.Making.{AreApart};
ghost use Rattle.crystal_growers.specs.Drawing.{IsWaiting};
ghost use Rattle.crystal_growers.specs.Grower.{GoesOn, IsFullAfter};
ghost use Rattle.crystal_growers.specs.Gathering.{AreStarts, AreShifts, HasCollected, AreHome, HasCleared, HasDrawnRest};
ghost use Rattle.crystal_growers.specs.Growth.{IsLost, HasClosed};

use crate::grower::sweeping::{Swept, go_on, sweep};
use crate::grower::{Ending, Shift, Start};
use crystal_streams::NoMemory;
use graph_rule::{Graph, Seat};
use parcel_deques::{Bench, Naming, gather};
use shared_desk::{Hints, NoRoom};
use std::alloc::Global;
use std::snapshot::Snapshot;

/// What came of the growers: their benches, and, where some word found no cell, the code of one.
#[derive(Drop)]
struct Collected<J: Naming> {
    benches: Vec<Bench<J>>,
    full: Option<u64>,
}

/// Takes in the seats of all growers, brings their passes home, and draws what they left, unless some word found no cell:
/// then it answers the code of one. `rest` are the cells that were not loaded.
pub(crate) fn close_growth<J: Naming>(
    alloc: Global,
    graph: &Graph,
    seat: &mut Seat,
    starts: Snapshot<Vec<Start<J>>>,
    shifts: Vec<Shift<J>>,
    rest: &[u32],
) -> Result<Option<u64>, NoMemory>
    requires named { J.graph ≡ graph.now }
    requires belongs { Belongs seat.old graph.now }
    requires pledge { seat.old.view.dues.pledge ≡ 0 }
    requires some { 0 < length starts.value.items }
    requires numbers { 0 < seat.old.view.left }
    requires starts { AreStarts graph.now seat.old.view.front starts.value.items }
    requires shifts { AreShifts graph.now starts.value.items shifts.items }
    requires once { IsDistinct nat_eq rest.now }
    requires there { All (HasSome (state_of seat.old.view.front)) rest.now }
    requires unpaid { (c : ℕ) → Contains rest.now c → Contains seat.old.view.dues.unpaid c }
    ensures closed { IfOk result (λ full. HasClosed graph.now seat.old seat.new starts.value.items rest.now full) }
    ensures fault { IfErr result (λ _. IsLost seat.old seat.new) }
{
    let Collected { mut benches, full } = collect(alloc, graph, seat, starts, shifts)?;
    gather(&mut benches);
    draw_rest(alloc, graph, seat, &mut benches, rest, full)
}

/// Takes in the seats of all growers.
fn collect<J: Naming>(
    alloc: Global,
    graph: &Graph,
    seat: &mut Seat,
    _starts: Snapshot<Vec<Start<J>>>,
    shifts: Vec<Shift<J>>,
) -> Result<Collected<J>, NoMemory>
    requires belongs { Belongs seat.old graph.now }
    requires pledge { seat.old.view.dues.pledge ≡ 0 }
    requires starts { AreStarts graph.now seat.old.view.front _starts.value.items }
    requires shifts { AreShifts graph.now _starts.value.items shifts.items }
    ensures collected { IfOk result (λ r. HasCollected graph.now seat.old seat.new _starts.value.items r.benches.items r.full) }
    ensures fault { IfErr result (λ _. IsLost seat.old seat.new) }
{
    seat.reveal();
    let count = shifts.len();
    let mut shifts = shifts;
    let mut benches = Vec::with_capacity(alloc, count)?;
    let mut full = None;
    'shifts: for _place in 0..count {
        let shift = shifts.remove(0);
        full = full_after(full, shift.ending)?;
        seat.join(graph, shift.seat);
        benches.push_reserved(shift.bench);
    }
    Ok(Collected { benches, full })
}

/// The code of a word that found no cell, after a further grower ended.
fn full_after(full: Option<u64>, ending: Ending) -> Result<Option<u64>, NoMemory>
    ensures { IfOk result (λ next. IsFullAfter full ending next) }
{
    match ending {
        Ending::Done => Ok(full),
        Ending::Spent { code } => Ok(Some(code)),
        Ending::NoMemory => Err(NoMemory),
    }
}

/// Draws the cells that were not loaded and those that are left in the deques, at a seat that joins again.
fn draw_rest<J: Naming>(
    alloc: Global,
    graph: &Graph,
    seat: &mut Seat,
    benches: &mut Vec<Bench<J>>,
    rest: &[u32],
    full: Option<u64>,
) -> Result<Option<u64>, NoMemory>
    requires named { J.graph ≡ graph.now }
    requires belongs { Belongs seat.old graph.now }
    requires pledge { seat.old.view.dues.pledge ≡ 0 }
    requires stake { 1 < seat.old.view.stake }
    requires numbers { 0 < seat.old.view.left }
    requires home { AreHome benches.old.items }
    requires once { IsDistinct nat_eq rest.now }
    requires there { All (HasSome (state_of seat.old.view.front)) rest.now }
    requires unpaid { full ≡ None → (c : ℕ) → Contains rest.now c → Contains seat.old.view.dues.unpaid c }
    ensures finished { IfOk result (HasDrawnRest graph.now seat.old seat.new benches.old.items rest.now full) }
    ensures fault { IfErr result (λ _. IsLost seat.old seat.new) }
{
    let child = seat.hand(graph, 1, rest);
    let hints = Hints::none(alloc);
    let swept = Swept {
        seat: child,
        hints,
        full,
    };
    match clear(alloc, graph, swept, benches, rest) {
        Ok(
            Swept {
                seat: child,
                full,
                ..
            },
        ) => {
            seat.join(graph, child);
            Ok(full)
        }
        Err(_) => Err(NoMemory),
    }
}

/// Draws the cells that wait at a seat, and those that are left in the deques.
fn clear<J: Naming>(
    alloc: Global,
    graph: &Graph,
    swept: Swept,
    benches: &mut Vec<Bench<J>>,
    rest: &[u32],
) -> Result<Swept, NoRoom>
    requires named { J.graph ≡ graph.now }
    requires belongs { Belongs swept.seat graph.now }
    requires pledge { swept.seat.view.dues.pledge ≡ 0 }
    requires waiting { swept.full ≡ None → IsWaiting graph.now rest.now swept.seat }
    requires home { AreHome benches.old.items }
    ensures { IfOk result (λ s. HasCleared graph.now swept.seat s.seat benches.old.items × GoesOn swept.full graph.now s.seat s.full) }
{
    let mut swept = go_on(alloc, graph, swept, rest)?;
    'benches: for place in 0..benches.len() {
        swept = sweep(alloc, graph, swept, &mut benches[place])?;
    }
    Ok(swept)
}
