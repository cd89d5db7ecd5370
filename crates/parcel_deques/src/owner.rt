//! The ruled steps of a deque's owner.
ghost use Rattle.std.specs.Prelude.{◌≡◌, ℕ, ◌+◌, ◌<◌, ◌≤◌, ◌⊎◌, true, [], ◌∷◌, length, IfOk, MatchOption, MatchResult};
ghost use Rattle.crossbeam_deque.specs.Handles.{view, IsPassOf, worker_deque, worker_flavor, worker_view, worker_capacity, worker_index, SameWorker};
ghost use Rattle.parcel_deques.specs.Rule.{all_shares, hand, share_kept, share_given, absorbed, founder, loaded, IsTaking, Drained};
ghost use Rattle.parcel_deques.specs.Parcels.{tag_of};

use crate::parcel::{Naming, Parcel};
use crate::rule::{Cut, Glue, Hand, Loads, Marked, Ruled, Takes};
use crossbeam_deque::{Pass, Stealer, Worker};
use crystal_streams::NoMemory;
use std::alloc::Global;
use std::marker::Brand;

pub(crate) type Owner<J> = Worker<Parcel<J>, Global, Hand, Ruled>;

pub(crate) type Thief<J> = Stealer<Parcel<J>, Global, Hand, Ruled>;

pub(crate) type Share<J> = Pass<Parcel<J>, Hand>;

/// A new deque with this number. Its whole share is with the owner.
pub(crate) fn open<J: Naming>(
    alloc: Global,
    number: u32,
    capacity: usize,
) -> Result<Owner<J>, NoMemory>
    ensures { IfOk result (λ w. (worker_flavor w ≡ 0) × (worker_index w ≡ 0) × (capacity ≤ worker_capacity w) × (worker_view w ≡ hand number all_shares true [] [] (number ∷ []))) }
{
    let mut owner = Owner::fifo_as(alloc, capacity)?;
    let share = another(&mut owner, number, number);
    absorb(&mut owner, share);
    Ok(owner)
}

/// A pass with one share for a bench. Only a deque that is whole and new gets a number by it.
pub(crate) fn another<J: Naming>(owner: &mut Owner<J>, deque: u32, taker: u32) -> Share<J>
    requires live { ((worker_view owner.old).pushes ≡ true) × (1 < (worker_view owner.old).share) }
    requires deque { (deque ≡ (worker_view owner.old).deque) ⊎ ((all_shares ≤ (worker_view owner.old).share) × ((worker_view owner.old).pushed ≡ [])) }
    ensures same { SameWorker owner.old owner.new × (worker_index owner.new ≡ worker_index owner.old) × IsPassOf (worker_deque owner.old) result }
    ensures views { (worker_view owner.new ≡ share_kept deque (worker_view owner.old)) × (view result ≡ share_given deque taker) }
{
    another_as::<J, Brand>(owner, deque, taker)
}

fn another_as<J: Naming, M: Marked>(owner: &mut Owner<J>, _deque: u32, _taker: u32) -> Share<J>
    requires asked { (M.deque ≡ _deque) × (M.taker ≡ _taker) }
    requires live { ((worker_view owner.old).pushes ≡ true) × (1 < (worker_view owner.old).share) }
    requires deque { (_deque ≡ (worker_view owner.old).deque) ⊎ ((all_shares ≤ (worker_view owner.old).share) × ((worker_view owner.old).pushed ≡ [])) }
    ensures same { SameWorker owner.old owner.new × (worker_index owner.new ≡ worker_index owner.old) × IsPassOf (worker_deque owner.old) result }
    ensures views { (worker_view owner.new ≡ share_kept _deque (worker_view owner.old)) × (view result ≡ share_given _deque _taker) }
{
    owner.another::<Cut<M>>()
}

/// Takes a pass in.
pub(crate) fn absorb<J: Naming>(owner: &mut Owner<J>, share: Share<J>)
    requires here { IsPassOf (worker_deque owner.old) share }
    requires live { ((worker_view owner.old).pushes ≡ true) × (0 < (worker_view owner.old).share) × (0 < (view share).share) }
    ensures same { SameWorker owner.old owner.new × (worker_index owner.new ≡ worker_index owner.old) }
    ensures view { worker_view owner.new ≡ absorbed (worker_view owner.old) (view share) }
{
    owner.absorb::<Glue>(share);
}

/// Loads a parcel, which has the owner's tag.
pub(crate) fn push<J: Naming>(owner: &mut Owner<J>, parcel: Parcel<J>) -> Result<(), Parcel<J>>
    requires pushes { (worker_view owner.old).pushes ≡ true }
    requires live { 0 < (worker_view owner.old).share }
    requires tag { parcel.tag ≡ tag_of (worker_view owner.old).deque (length (worker_view owner.old).pushed) }
    ensures same { SameWorker owner.old owner.new }
    ensures rule { MatchResult result (λ _. (worker_view owner.new ≡ loaded (worker_view owner.old) (parcel ∷ [])) × (worker_index owner.new ≡ worker_index owner.old + 1)) (λ p. (p ≡ parcel) × (worker_view owner.new ≡ worker_view owner.old) × (worker_index owner.new ≡ worker_index owner.old) × (worker_capacity owner.old ≤ worker_index owner.old)) }
{
    owner.push_as::<Loads>(parcel)
}

/// Takes the first parcel.
pub(crate) fn pop<J: Naming>(owner: &mut Owner<J>) -> Option<Parcel<J>>
    requires first { worker_flavor owner.old ≡ 0 }
    requires live { 0 < (worker_view owner.old).share }
    ensures same { SameWorker owner.old owner.new × (worker_index owner.new ≤ worker_index owner.old) }
    ensures rule { MatchOption result ((worker_view owner.new ≡ worker_view owner.old) × Drained (worker_view owner.old)) (λ p. IsTaking (worker_view owner.old) (p ∷ []) (worker_view owner.new)) }
{
    owner.pop_as::<Takes>()
}
