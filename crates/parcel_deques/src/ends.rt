//! A thief's ends of deques.
ghost use Rattle.std.specs.Prelude.{◌≡◌, ◌<◌, ◌≤◌, length, IfOk, IfSome, IfNone};
ghost use Rattle.crossbeam_deque.specs.Handles.{stealer_deque, stealer_flavor};
ghost use Rattle.parcel_deques.specs.Rule.{share_kept, share_given, absorbed};
ghost use Rattle.parcel_deques.specs.Ends.{EndValue, IsPassHere, hand_of, known_left, Tried, Took, Each, IsBetween, IsTriedAround, StoleBetween, StoleAround};
ghost use Rattle.parcel_deques.specs.declared.rule.Hand.{Hand as HandType};

use crate::own::Own;
use crate::owner::{Share, Thief};
use crate::parcel::{Naming, Parcel};
use crate::rule::Takes;
use crossbeam_deque::Steal;
use crystal_streams::NoMemory;
use std::marker::Model;

/// A thief's handle of a deque, and a pass, unless it is the own deque or the pass came home.
#[derive(Drop)]
pub struct End<J: Naming> {
    thief: Thief<J>,
    pass: Option<Share<J>>,
}

impl<J: Naming> Model for End<J> {
    ghost use Rattle.std.specs.Prelude.{◌≡◌};
    ghost use Rattle.crossbeam_deque.specs.Handles.{stealer_deque, stealer_flavor};
    ghost use Rattle.parcel_deques.specs.Ends.{EndValue, IsPassHere, hand_of, known_left};

    ghost Value = { EndValue };

    ghost view = { λ e. record { deque = stealer_deque e.thief; pass = hand_of e.pass; known = known_left e.pass } };

    ghost invariant = { λ e. (stealer_flavor e.thief ≡ 0) × IsPassHere (stealer_deque e.thief) e.pass };
}

impl<J: Naming> End<J> {
    /// The end of the bench's own deque, which has no pass.
    pub(crate) fn here(own: &Own<J>) -> Result<End<J>, NoMemory>
        ensures { IfOk result (λ e. (e.deque ≡ own.now.deque) × (e.pass ≡ None)) }
    {
        let thief = own.thief()?;
        Ok(End { thief, pass: None })
    }

    /// An end for another bench, with one share of the owner's.
    pub(crate) fn away(own: &mut Own<J>, taker: u32) -> Result<End<J>, NoMemory>
        requires { 1 < own.old.hand.share }
        ensures { IfOk result (λ e. (own.new ≡ record own.old { hand = share_kept own.old.hand.deque own.old.hand }) × (e.deque ≡ own.old.deque) × (e.pass ≡ Some (share_given own.old.hand.deque taker))) }
    {
        let thief = own.thief()?;
        let pass = Some(own.share(taker));
        Ok(End { thief, pass })
    }

    /// One try to take the first parcel.
    pub(crate) fn steal(&mut self) -> Option<Parcel<J>>
        ensures none { IfNone result (Tried self.old self.new) }
        ensures some { IfSome result (λ p. Took self.old self.new p) }
    {
        let Some(pass) = &mut self.pass else {
            return None;
        };
        match self.thief.steal_as::<Takes>(pass) {
            Steal::Success(parcel) => Some(parcel),
            Steal::Empty => None,
            Steal::Retry => None,
        }
    }

    /// Its pass comes home, to the owner of its deque.
    pub(crate) fn give(&mut self, own: &mut Own<J>)
        requires { self.old.deque ≡ own.old.deque }
        ensures end { (self.new.deque ≡ self.old.deque) × (self.new.pass ≡ None) }
        ensures own { (v : HandType) → self.old.pass ≡ Some v → own.new ≡ record own.old { hand = absorbed own.old.hand v } }
    {
        if let Some(share) = self.pass.take() {
            own.absorb(share);
        }
    }
}

/// Tries the ends from one place up to another, until one gives a parcel.
pub(crate) fn steal_between<J: Naming>(
    ends: &mut Vec<End<J>>,
    from: usize,
    to: usize,
) -> Option<Parcel<J>>
    requires places { (from ≤ to) × (to ≤ length ends.old.items) }
    ensures none { IfNone result (Each (IsBetween from to) ends.old.items ends.new.items) }
    ensures some { IfSome result (StoleBetween from to ends.old.items ends.new.items) }
{
    for place in from..to {
        if let Some(parcel) = ends[place].steal() {
            return Some(parcel);
        }
    }
    None
}

/// Tries each end but the own one, from the next place on, until one gives a parcel.
pub(crate) fn steal_around<J: Naming>(ends: &mut Vec<End<J>>, number: usize) -> Option<Parcel<J>>
    requires { number < length ends.old.items }
    ensures none { IfNone result (Each (IsTriedAround number) ends.old.items ends.new.items) }
    ensures some { IfSome result (StoleAround number ends.old.items ends.new.items) }
{
    let count = ends.len();
    if let Some(parcel) = steal_between(ends, number + 1, count) {
        return Some(parcel);
    }
    steal_between(ends, 0, number)
}
