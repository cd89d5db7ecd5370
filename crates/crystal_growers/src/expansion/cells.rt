//! The arrows of several cells.
ghost use Rattle.std.specs.Prelude.{◌≡◌, ℕ, ◌*◌, ◌≤◌, nat_eq, [], None, length, All, Contains};
ghost use Rattle.std.specs.List.{IsDistinct};
ghost use Rattle.graph_history.specs.History.{state_of, HasSome};
ghost use Rattle.shared_desk.specs.SharedDesks.{standing_of};
ghost use Rattle.crystal_growers.specs.Expansion.{Expansions};

use crate::expansion::Spent;
use crate::expansion::both_ends::expand_both;
use crystal_cartan::Arrow;
use shared_desk::SharedDesk;

/// Draws all arrows of these cells, one cell after another, and pays for each as soon as it is whole. Where some word
/// found no cell it answers the code. Takes no memory.
pub(crate) fn expand_all(desk: &mut SharedDesk, cells: &[u32]) -> Option<u64>
    requires there { All (HasSome (state_of desk.old.seat.view.front)) cells.now }
    requires room { length cells.now * (2 * desk.old.seat.view.world.space.cartan.rank) ≤ desk.old.room }
    requires once { IsDistinct nat_eq cells.now }
    requires unpaid { (c : ℕ) → Contains cells.now c → Contains desk.old.seat.view.dues.unpaid c }
    ensures { Expansions (standing_of desk.old) (standing_of desk.new) cells.now result }
{
    let _world = desk.world();
    read_ahead(desk, cells);
    'cells: for cell in cells {
        match expand_both(desk, *cell) {
            Ok(()) => desk.pay_debt(*cell),
            Err(Spent { code }) => return Some(code),
        }
    }
    None
}

/// Reads each cell and both ends of its row of arrows. The processor does many such reads at once, but none while it
/// exchanges a word: so they come before the first arrow is drawn.
fn read_ahead(desk: &mut SharedDesk, cells: &[u32])
    requires { All (HasSome (state_of desk.old.seat.view.front)) cells.now }
    ensures { Expansions (standing_of desk.old) (standing_of desk.new) [] None }
{
    let rank = desk.world().space().cartan().rank();
    'cells: for cell in cells {
        desk.code_at(*cell);
        desk.glance(
            *cell,
            Arrow {
                down: true,
                index: 1,
            },
        );
        desk.glance(
            *cell,
            Arrow {
                down: false,
                index: rank,
            },
        );
    }
}
