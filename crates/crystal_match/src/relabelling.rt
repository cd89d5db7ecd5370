//! How the arrows of the second component are relabelled.
ghost use Rattle.std.specs.Prelude.{◌≡◌, ◌<◌, ◌+◌, true, false};
ghost use Rattle.crystal_cartan.specs.Types.{HasIndex};
ghost use Rattle.crystal_match.specs.Relabelling.{kept, starred, star_index, relabelled};

use crystal_cartan::{Arrow, Cartan, Kind};
use std::marker::Model;

/// A map of the arrows of a Cartan type: all kept, or those of the star.
#[derive(Clone, Copy, Debug, PartialEq, Eq)]
pub struct Relabel {
    cartan: Cartan,
    star: bool,
}

impl Model for Relabel {
    ghost use Rattle.crystal_match.specs.Relabelling.{RelabelType};

    ghost Value = { RelabelType };

    ghost view = { λ r. record { cartan = r.cartan; star = r.star } };

    ghost inverse = { λ r. record { cartan = r.cartan; star = r.star } };
}

impl Relabel {
    /// Every arrow is kept.
    pub fn same(cartan: Cartan) -> Relabel
        ensures { result ≡ kept cartan }
    {
        Relabel {
            cartan,
            star: false,
        }
    }

    /// The star: f_i and e_j are exchanged where the longest element of the Weyl group takes the simple root of i to the
    /// negative of that of j, as the Lusztig involution does (Bump and Schilling, Crystal Bases, 2017).
    pub fn star(cartan: Cartan) -> Relabel
        ensures { result ≡ starred cartan }
    {
        Relabel { cartan, star: true }
    }

    /// The arrow that stands for this one.
    pub(crate) fn of(&self, arrow: Arrow) -> Arrow
        requires { HasIndex self.now.cartan arrow.index }
        ensures { result ≡ relabelled self.now arrow }
    {
        if !self.star {
            return arrow;
        }
        Arrow {
            down: !arrow.down,
            index: star_of(self.cartan, arrow.index),
        }
    }
}

/// The index that the longest element of the Weyl group exchanges with this one.
fn star_of(cartan: Cartan, i: u8) -> u8
    requires { HasIndex cartan i }
    ensures { result ≡ star_index cartan i }
{
    let rank = cartan.rank();
    match cartan.kind() {
        Kind::A => rank + 1 - i,
        Kind::B | Kind::C => i,
        Kind::D => {
            if rank % 2 == 0 {
                i
            } else if i == rank {
                rank - 1
            } else if i + 1 == rank {
                rank
            } else {
                i
            }
        }
    }
}
