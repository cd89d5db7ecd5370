//! The arrows of a type in their order: f_1 to f_r, and then e_1 to e_r.
ghost use Rattle.std.specs.Prelude.{◌≡◌, ◌+◌, ◌<◌, ◌≤◌};
ghost use Rattle.signature_rule.specs.ArrowOrder.{arrow_place};

use crystal_cartan::Arrow;

/// The place of an arrow in the order, counted from 0, in a type of this rank.
pub fn arrow_place(rank: u8, arrow: Arrow) -> usize
    requires low { 1 ≤ arrow.index }
    requires high { arrow.index ≤ rank }
    ensures place { result ≡ arrow_place rank arrow }
    ensures below { result < rank + rank }
{
    let index = usize::from(arrow.index) - 1;
    if arrow.down {
        index
    } else {
        usize::from(rank) + index
    }
}

/// The arrow at a place of the order, counted from 0, in a type of this rank.
pub fn arrow_at(rank: u8, place: u8) -> Arrow
    requires few { rank ≤ 8 }
    requires place { place < rank + rank }
    ensures place { arrow_place rank result ≡ place }
    ensures low { 1 ≤ result.index }
    ensures high { result.index ≤ rank }
{
    if place < rank {
        return Arrow {
            down: true,
            index: place + 1,
        };
    }
    Arrow {
        down: false,
        index: place - rank + 1,
    }
}
