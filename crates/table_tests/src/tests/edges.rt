//! Arrows of the shared table, by calls.
ghost use Rattle.std.specs.Prelude.{◌≡◌, ◌<◌, IfSome};
ghost use Rattle.tensor_words.specs.Operators.{IsArrow, op};
ghost use Rattle.graph_rule.specs.Layout.{home};
ghost use Rattle.graph_rule.specs.Values.{Belongs};

use super::worlds::world;
use crystal_cartan::Arrow;
use crystal_streams::NoMemory;
use graph_history::{Look, Origin};
use graph_rule::{Graph, Seat, claim, load_cell, owe, release, settle};
use table_calls::{SPREAD, look, set};
use tensor_words::{Factor, Space, next_code};

/// The first cell of a code's path.
#[tactic(auto, unfolding(graph_rule::specs::Layout::home))]
pub(super) fn home(code: u64, cells: u32) -> u32
    requires { 0 < cells }
    ensures value { result ≡ home cells code }
    ensures below { result < cells }
{
    ((code.wrapping_mul(SPREAD) >> 32) % u64::from(cells)) as u32
}

/// Puts a root into the first cell of its path, and says which it is, if the cell is empty.
fn put(graph: &Graph, seat: &mut Seat, code: u64) -> Option<u32>
    requires belongs { Belongs seat.old graph.now }
    requires pledge { seat.old.view.dues.pledge ≡ 0 }
    ensures belongs { Belongs seat.new graph.now }
    ensures pledge { seat.new.view.dues.pledge ≡ 0 }
{
    seat.reveal();
    if code >= graph.world().space().size() || !graph.world().has_root(code) {
        return None;
    }
    let cell = home(code, graph.world().cells());
    owe(graph, seat);
    if claim(graph, seat, cell, code, Origin::Root) == 0 {
        Some(cell)
    } else {
        release(graph, seat);
        None
    }
}

/// What the operator of an arrow makes of the word with this code, `None` where there is no such word or index.
fn next_of(space: &Space, code: u64, arrow: Arrow) -> Option<Option<u64>>
    ensures { IfSome result (λ next. (next ≡ op space.now arrow code) × IsArrow space.now arrow) }
{
    if code >= space.size() || !space.cartan().has_index(arrow.index) {
        return None;
    }
    Some(next_code(space, code, arrow))
}

/// Draws an arrow from one cell to another or to zero, where its operator leads there.
fn set_to(graph: &Graph, seat: &mut Seat, cell: u32, arrow: Arrow, to: Option<u32>) -> Option<bool>
    requires belongs { Belongs seat.old graph.now }
    requires pledge { seat.old.view.dues.pledge ≡ 0 }
    ensures belongs { Belongs seat.new graph.now }
    ensures pledge { seat.new.view.dues.pledge ≡ 0 }
{
    let cells = graph.world().cells();
    if cell >= cells {
        return None;
    }
    let word = load_cell(graph, seat, cell);
    if word == 0 {
        return None;
    }
    let next = next_of(graph.world().space(), word - 1, arrow)?;
    match (to, next) {
        (None, None) => Some(set(graph, seat, cell, arrow, None)),
        (Some(target), Some(code)) => {
            if target >= cells {
                return None;
            }
            let there = load_cell(graph, seat, target);
            if there == 0 || there - 1 != code {
                return None;
            }
            Some(set(graph, seat, cell, arrow, Some(target)))
        }
        _ => None,
    }
}

/// Looks at an arrow from a cell that has a vertex.
fn look_at(graph: &Graph, seat: &mut Seat, cell: u32, arrow: Arrow) -> Option<Look>
    requires belongs { Belongs seat.old graph.now }
    requires pledge { seat.old.view.dues.pledge ≡ 0 }
    ensures belongs { Belongs seat.new graph.now }
    ensures pledge { seat.new.view.dues.pledge ≡ 0 }
{
    if cell >= graph.world().cells() || !graph.world().space().cartan().has_index(arrow.index) {
        return None;
    }
    if load_cell(graph, seat, cell) == 0 {
        return None;
    }
    Some(look(graph, seat, cell, arrow))
}

#[test]
fn two_words(rt: HostRuntime) -> Result<(), NoMemory> {
    let roots = Vec::from_array(rt.alloc(), [0, 1])?;
    let world = world(&[Factor::Vector], 2, roots).expect(&rt, "a world of two words");
    let (graph, mut seat) = Graph::new(rt.alloc(), world)?;
    let _nothing = settle(&graph, &seat);
    let one = put(&graph, &mut seat, 0).expect(&rt, "room for the word 1");
    let two = put(&graph, &mut seat, 1).expect(&rt, "room for the word 2");
    let lower = Arrow {
        down: true,
        index: 1,
    };
    let raise = Arrow {
        down: false,
        index: 1,
    };
    let blank = look_at(&graph, &mut seat, one, lower);
    let zero = set_to(&graph, &mut seat, one, lower, None);
    let first = set_to(&graph, &mut seat, one, lower, Some(two));
    let second = set_to(&graph, &mut seat, one, lower, Some(two));
    let third = set_to(&graph, &mut seat, one, raise, None);
    let fourth = set_to(&graph, &mut seat, one, raise, None);
    let below = look_at(&graph, &mut seat, one, lower);
    let above = look_at(&graph, &mut seat, one, raise);
    let other = look_at(&graph, &mut seat, two, raise);
    assert_eq!(rt; [zero, first, second], [None, Some(true), Some(false)]);
    assert_eq!(rt; [third, fourth], [Some(true), Some(false)]);
    assert_eq!(rt; [blank, other], [Some(Look::Blank); 2]);
    assert_eq!(rt;
        [below, above],
        [Some(Look::To { cell: two }), Some(Look::Zero)]
    );
    Ok(())
}
