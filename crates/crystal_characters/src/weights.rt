//! The lexicographic order of weights.
ghost use Rattle.std.specs.Prelude.{◌≡◌};
ghost use Rattle.crystal_characters.specs.Characters.{weight_order};

use crystal_cartan::Weight;
use std::cmp::Ordering;

/// Compares two weights: the first coordinate that differs decides, and else their numbers of coordinates.
pub(crate) fn compare(left: &Weight, right: &Weight) -> Ordering
    ensures { result ≡ weight_order left.now right.now }
{
    let shared = left.coordinates().min(right.coordinates());
    'places: for place in 0..shared {
        let order = left.doubled_at(place + 1).cmp(&right.doubled_at(place + 1));
        if order != Ordering::Equal {
            return order;
        }
    }
    left.coordinates().cmp(&right.coordinates())
}
