//! The rule of a deque, and what each step of it tells. The numbers of a cut are told by ghost members, which a private
//! function picks.
ghost use Rattle.std.specs.Prelude.{ℕ};
ghost use Rattle.parcel_deques.specs.Rule.{DequeHolds, founder, used_up, share_kept, share_given, absorbed, IsLoading, IsTaking, Drained};

use crate::parcel::{Naming, Parcel, Slip};
use crossbeam_deque::protocol::{Join, Outcome, Protocol, Split};
use std::collections::LinkedList;
use std::marker::{Brand, PhantomData};

/// What a pass knows: the number of its deque, its share, whether it may push and what was pushed, what it has taken, and
/// the benches for which its share was cut off. No value of it is made.
pub struct Hand {
    pub deque: u64,
    pub share: u64,
    pub pushes: bool,
    pub pushed: LinkedList<Slip>,
    pub taken: LinkedList<Slip>,
    pub home: LinkedList<u64>,
}

/// The deques of this crate: what holds between any two steps, and what a new owner and a pass without a share know.
pub struct Ruled;

impl<J: Naming> Protocol<Parcel<J>, Hand> for Ruled {
    ghost use Rattle.parcel_deques.specs.Rule.{DequeHolds, founder, used_up};

    ghost holds = { DequeHolds };

    ghost first = { founder };

    ghost guest = { used_up };
}

/// A push.
pub(crate) struct Loads;

impl<J: Naming> Outcome<Parcel<J>, Hand> for Loads {
    ghost use Rattle.parcel_deques.specs.Rule.{IsLoading};

    ghost then = { IsLoading };
}

/// A pop or a steal.
pub(crate) struct Takes;

impl<J: Naming> Outcome<Parcel<J>, Hand> for Takes {
    ghost use Rattle.parcel_deques.specs.Rule.{IsTaking, Drained};

    ghost then = { IsTaking };

    ghost empty = { Drained };
}

/// Which number the deque has, and for which bench a pass is.
pub(crate) trait Marked {
    ghost deque: { ℕ };

    ghost taker: { ℕ };
}

impl Marked for Brand {
    ghost deque = { 0 };

    ghost taker = { 0 };
}

/// A share for another pass.
pub(crate) struct Cut<M> {
    of: PhantomData<M>,
}

impl<M: Marked> Split<Hand> for Cut<M> {
    ghost use Rattle.parcel_deques.specs.Rule.{share_kept, share_given};

    ghost left = { share_kept M.deque };

    ghost right = { λ v. share_given M.deque M.taker };
}

/// A share that comes home.
pub(crate) struct Glue;

impl Join<Hand> for Glue {
    ghost use Rattle.parcel_deques.specs.Rule.{absorbed, used_up};

    ghost both = { absorbed };

    ghost spent = { used_up };
}
