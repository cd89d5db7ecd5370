//! The owner's end of a deque, with its number.
ghost use Rattle.std.specs.Prelude.{◌≡◌, ℕ, ◌+◌, ◌<◌, ◌≤◌, true, [], ◌∷◌, ◌++◌, length, IfOk, IfErr, MatchOption};
ghost use Rattle.crossbeam_deque.specs.Handles.{view, IsPassOf, stealer_deque, stealer_flavor, worker_deque, worker_flavor, worker_view, worker_capacity, worker_index};
ghost use Rattle.parcel_deques.specs.Rule.{all_shares, hand, share_kept, share_given, absorbed, loaded, IsTaking, Drained};
ghost use Rattle.parcel_deques.specs.Parcels.{tag_of, tagged};
ghost use Rattle.parcel_deques.specs.Owners.{OwnValue, IsOwner};

use crate::owner::{Owner, Share, Thief, absorb, another, open, pop, push};
use crate::parcel::{Naming, Parcel, Tag};
use crystal_streams::NoMemory;
use std::alloc::Global;
use std::marker::Model;

/// It counts its pushes: each slip's place is the number of those before it.
#[derive(Drop)]
pub struct Own<J: Naming> {
    number: u32,
    count: u64,
    capacity: usize,
    owner: Owner<J>,
}

impl<J: Naming> Model for Own<J> {
    ghost use Rattle.std.specs.Prelude.{◌≡◌, ◌≤◌};
    ghost use Rattle.crossbeam_deque.specs.Handles.{worker_deque, worker_flavor, worker_view, worker_capacity, worker_index};
    ghost use Rattle.parcel_deques.specs.Owners.{OwnValue, IsOwner};

    ghost Value = { OwnValue };

    ghost view = { λ o. record { deque = worker_deque o.owner; capacity = o.capacity; hand = worker_view o.owner } };

    ghost invariant = { λ o. IsOwner o.number o.count (worker_view o.owner) × (worker_flavor o.owner ≡ 0) × (worker_index o.owner ≤ o.count) × (o.capacity ≤ worker_capacity o.owner) };
}

impl<J: Naming> Own<J> {
    /// A new deque, that takes so many parcels before a push may be refused.
    pub(crate) fn open(alloc: Global, number: u32, capacity: usize) -> Result<Own<J>, NoMemory>
        ensures { IfOk result (λ o. (o.capacity ≡ capacity) × (o.hand ≡ hand number all_shares true [] [] (number ∷ []))) }
    {
        let owner = open(alloc, number, capacity)?;
        Ok(Own {
            number,
            count: 0,
            capacity,
            owner,
        })
    }

    pub(crate) fn number(&self) -> u32
        ensures number { result ≡ self.now.hand.deque }
        ensures owner { IsOwner result (length self.now.hand.pushed) self.now.hand }
    {
        self.number
    }

    /// A thief's handle for another bench.
    pub(crate) fn thief(&self) -> Result<Thief<J>, NoMemory>
        ensures { IfOk result (λ s. (stealer_deque s ≡ self.now.deque) × (stealer_flavor s ≡ 0)) }
    {
        Ok(self.owner.stealer()?)
    }

    /// A pass for another bench, with one share.
    pub(crate) fn share(&mut self, taker: u32) -> Share<J>
        requires { 1 < self.old.hand.share }
        ensures own { self.new ≡ record self.old { hand = share_kept self.old.hand.deque self.old.hand } }
        ensures here { IsPassOf self.old.deque result }
        ensures view { view result ≡ share_given self.old.hand.deque taker }
    {
        another(&mut self.owner, self.number, taker)
    }

    /// Loads a parcel, under the next tag.
    pub(crate) fn push(&mut self, parcel: Parcel<J>) -> Result<(), Parcel<J>>
        ensures ok { IfOk result (λ _. self.new ≡ record self.old { hand = loaded self.old.hand (tagged (tag_of self.old.hand.deque (length self.old.hand.pushed)) parcel ∷ []) }) }
        ensures full { IfErr result (λ p. (p ≡ parcel) × (self.new ≡ self.old) × (self.old.capacity ≤ length self.old.hand.pushed)) }
    {
        if self.count == u64::MAX {
            return Err(parcel);
        }
        let mut parcel = parcel;
        let before = parcel.tag();
        parcel.retag(Tag {
            owner: self.number,
            place: self.count,
        });
        match push(&mut self.owner, parcel) {
            Ok(()) => {
                self.count += 1;
                Ok(())
            }
            Err(mut parcel) => {
                parcel.retag(before);
                Err(parcel)
            }
        }
    }

    /// Takes the first parcel.
    pub(crate) fn pop(&mut self) -> Option<Parcel<J>>
        ensures same { (self.new.deque ≡ self.old.deque) × (self.new.capacity ≡ self.old.capacity) }
        ensures rule { MatchOption result ((self.new.hand ≡ self.old.hand) × Drained self.old.hand) (λ p. IsTaking self.old.hand (p ∷ []) self.new.hand) }
    {
        pop(&mut self.owner)
    }

    /// Takes a pass of this deque in.
    pub(crate) fn absorb(&mut self, share: Share<J>)
        requires here { IsPassOf self.old.deque share }
        requires live { 0 < (view share).share }
        ensures { self.new ≡ record self.old { hand = absorbed self.old.hand (view share) } }
    {
        absorb(&mut self.owner, share);
    }
}
