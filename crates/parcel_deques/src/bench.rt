//! Benches: where growers work.
ghost use Rattle.std.specs.Prelude.{◌≡◌, ℕ, ◌<◌, ◌≤◌, ◌≢◌, [], ◌∷◌, ◌++◌, length, Contains, IfOk, IfErr, IfSome, IfNone};
ghost use Rattle.parcel_deques.specs.Lists.{SameItems};
ghost use Rattle.parcel_deques.specs.Parcels.{tag_of, tagged, owned_by, others_than, AllBelow};
ghost use Rattle.parcel_deques.specs.Benches.{BenchValue, IsBench, bench_of, HasAll, FoundOwnEmpty, FoundNone};

use crate::ends::{End, steal_around};
use crate::own::Own;
use crate::parcel::{Naming, Parcel};
use std::marker::Model;

/// A grower's place of work: the owner's end of its own deque, and for each bench of its call a thief's end of its deque,
/// at its number. At its own number stands an end without a pass.
#[derive(Drop)]
pub struct Bench<J: Naming> {
    own: Own<J>,
    ends: Vec<End<J>>,
}

impl<J: Naming> Model for Bench<J> {
    ghost use Rattle.parcel_deques.specs.Benches.{BenchValue, IsBench, bench_of};

    ghost Value = { BenchValue };

    ghost view = { λ b. bench_of b.own b.ends.items };

    ghost invariant = { λ b. IsBench b.own b.ends.items };
}

impl<J: Naming> Bench<J> {
    pub(crate) fn of(own: Own<J>, ends: Vec<End<J>>) -> Bench<J>
        requires { IsBench own ends.items }
        ensures { result ≡ bench_of own ends.items }
    {
        Bench { own, ends }
    }

    /// Its place among the benches of its call, and the owner in its tags.
    pub fn number(&self) -> u32
        ensures number { result ≡ self.now.number }
        ensures within { self.now.number < length self.now.call }
        ensures below { AllBelow (length self.now.call) self.now.taken }
    {
        let _ends = &self.ends;
        self.own.number()
    }

    /// Loads a parcel on its own deque, where it gets its tag. Past the promised capacity the deque may refuse, for want of
    /// memory or at its own bound on growth; the parcel then comes back as it was.
    pub fn load(&mut self, parcel: Parcel<J>) -> Result<(), Parcel<J>>
        ensures ok { IfOk result (λ _. self.new ≡ record self.old { pushed = self.old.pushed ++ tagged (tag_of self.old.number (length self.old.pushed)) parcel ∷ [] }) }
        ensures full { IfErr result (λ p. (p ≡ parcel) × (self.new ≡ self.old) × (self.old.capacity ≤ length self.old.pushed)) }
    {
        self.own.push(parcel)
    }

    /// Takes the first parcel of its own deque; `None` where that is empty. Takes no memory.
    pub fn drain(&mut self) -> Option<Parcel<J>>
        ensures same { self.new ≡ record self.old { taken = self.new.taken } }
        ensures some { IfSome result (λ p. SameItems self.new.taken (self.old.taken ++ p ∷ []) × (p.tag.owner ≡ self.old.number)) }
        ensures few { IfSome result (λ _. length (owned_by self.old.number self.old.taken) < length self.old.pushed) }
        ensures none { IfNone result ((self.new ≡ self.old) × FoundOwnEmpty self.old) }
        ensures all { IfNone result (HasAll self.old → SameItems (owned_by self.old.number self.old.taken) self.old.pushed) }
    {
        self.own.pop()
    }

    /// Tries each other deque once, from the next bench on, until one gives its first parcel; `None` where none does, since
    /// it is empty or another taker was faster. Takes no memory.
    pub fn steal(&mut self) -> Option<Parcel<J>>
        requires { self.old.away ≡ [] }
        ensures same { self.new ≡ record self.old { taken = self.new.taken; known = self.new.known } }
        ensures some { IfSome result (λ p. SameItems self.new.taken (self.old.taken ++ p ∷ []) × (p.tag.owner ≢ self.old.number) × (p.tag.owner < length self.old.call)) }
        ensures none { IfNone result ((self.new.taken ≡ self.old.taken) × ((k : ℕ) → k < length self.old.call → k ≢ self.old.number → FoundNone self.old self.new k)) }
    {
        let number = self.own.number() as usize;
        steal_around(&mut self.ends, number)
    }

    /// Brings the other bench's pass of this bench's deque home, with all that it took. Takes no memory.
    pub fn take_over(&mut self, other: &mut Bench<J>)
        requires call { other.old.call ≡ self.old.call }
        requires home { ¬ (Contains self.old.home other.old.number) }
        requires away { ¬ (Contains other.old.away self.old.number) }
        ensures one { self.new ≡ record self.old { home = self.old.home ++ other.old.number ∷ []; taken = self.new.taken } }
        ensures other { other.new ≡ record other.old { away = other.new.away; known = other.new.known; taken = others_than self.old.number other.old.taken } }
        ensures taken { SameItems self.new.taken (self.old.taken ++ owned_by self.old.number other.old.taken) }
        ensures away { SameItems other.new.away (other.old.away ++ self.old.number ∷ []) }
    {
        let number = self.own.number() as usize;
        other.ends[number].give(&mut self.own);
    }
}
