//! Cells that are drawn at a seat.
ghost use Rattle.std.specs.Prelude.{◌≡◌, ◌≤◌, [], length, MatchResult, IfOk, IfErr};
ghost use Rattle.crystal_growers.specs.Drawing.{CanDraw, IsSeatDrawn, IsWaiting};
ghost use Rattle.crystal_growers.specs.Grower.{HasWorked, IsDrawnOut};

use crate::expansion::cells::expand_all;
use graph_rule::{Graph, Seat};
use shared_desk::{Hints, NoRoom, SharedDesk};
use std::alloc::Global;

/// The most cells of a parcel.
pub(crate) const PARCEL: usize = 64;

/// What came of some cells: the seat that drew them, the cells that it added, and, where some word found no cell, its
/// code; and the hints, which it used and kept.
#[derive(Drop)]
pub(crate) struct Drawn {
    pub(crate) seat: Seat,
    pub(crate) added: Vec<u32>,
    pub(crate) full: Option<u64>,
    pub(crate) hints: Hints,
}

/// Draws all arrows of a few cells at a seat, and pays for them. The memory for all cells that may be added is taken
/// before the first step, and where there is none the seat comes back as it was.
pub(crate) fn draw_few(
    alloc: Global,
    graph: &Graph,
    seat: Seat,
    cells: &[u32],
    hints: Hints,
) -> Result<Drawn, NoRoom>
    requires can { CanDraw graph.now cells.now seat }
    requires few { length cells.now ≤ 64 }
    ensures { MatchResult result (λ d. IsSeatDrawn cells.now seat d) (λ e. e.seat ≡ seat) }
{
    let rank = graph.world().space().cartan().rank() as usize;
    let room = cells.len() * (2 * rank);
    let mut desk = match SharedDesk::with_hints(alloc, graph, seat, room, hints) {
        Ok(desk) => desk,
        Err(fault) => return Err(fault),
    };
    let full = expand_all(&mut desk, cells);
    let (seat, added, hints) = desk.into_parts_with_hints();
    Ok(Drawn {
        seat,
        added,
        full,
        hints,
    })
}

/// The same for any number of cells, a few after a few. For want of memory only some of them are drawn.
pub(crate) fn draw_all(
    alloc: Global,
    graph: &Graph,
    seat: Seat,
    cells: &[u32],
    hints: Hints,
) -> Result<Drawn, NoRoom>
    requires { CanDraw graph.now cells.now seat }
    ensures ok { IfOk result (λ d. IsSeatDrawn cells.now seat d) }
    ensures fault { IfErr result (λ e. HasWorked graph.now seat e.seat [] []) }
{
    let mut seat = seat;
    seat.reveal();
    let mut hints = hints;
    let mut added = Vec::new(alloc);
    let mut rest = cells;
    'parts: while !rest.is_empty() {
        let (part, later) = rest.split_at(usize::min(PARCEL, rest.len()));
        let drawn = match draw_few(alloc, graph, seat, part, hints) {
            Ok(drawn) => drawn,
            Err(fault) => return Err(fault),
        };
        seat = drawn.seat;
        hints = drawn.hints;
        if added.extend_from_slice(drawn.added.as_slice()).is_err() {
            return Err(NoRoom { seat });
        }
        if let Some(code) = drawn.full {
            return Ok(Drawn {
                seat,
                added,
                full: Some(code),
                hints,
            });
        }
        rest = later;
    }
    Ok(Drawn {
        seat,
        added,
        full: None,
        hints,
    })
}

/// Draws the cells that wait at a seat, those that are added by that, and so on, until none is left.
pub(crate) fn draw_out(
    alloc: Global,
    graph: &Graph,
    seat: Seat,
    cells: &[u32],
    hints: Hints,
) -> Result<Drawn, NoRoom>
    requires { IsWaiting graph.now cells.now seat }
    ensures ok { IfOk result (λ d. IsDrawnOut graph.now seat d) }
    ensures fault { IfErr result (λ e. HasWorked graph.now seat e.seat [] []) }
{
    seat.reveal();
    let _cells = graph.world().cells();
    let mut drawn = match draw_all(alloc, graph, seat, cells, hints) {
        Ok(drawn) => drawn,
        Err(fault) => return Err(fault),
    };
    'lists: while drawn.full.is_none() && !drawn.added.is_empty() {
        let Drawn {
            seat,
            added,
            full: _,
            hints,
        } = drawn;
        drawn = match draw_all(alloc, graph, seat, &added, hints) {
            Ok(next) => next,
            Err(fault) => return Err(fault),
        };
    }
    Ok(drawn)
}
