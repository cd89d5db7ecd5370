//! How the benches of one call are made: a deque for each, and a share of each deque for each other bench.
ghost use Rattle.std.specs.Prelude.{◌≢◌, ℕ, ◌<◌, ◌≤◌, length, slice_index_or, IfOk};
ghost use Rattle.parcel_deques.specs.Owners.{OwnValue};
ghost use Rattle.parcel_deques.specs.Making.{AreNew};
ghost use Rattle.parcel_deques.specs.Sharing.{AreSharing, HasGiven, AreGiving, AreParts, AreMade};

use crate::bench::Bench;
use crate::ends::End;
use crate::own::Own;
use crate::parcel::Naming;
use crystal_streams::NoMemory;
use std::alloc::Global;
use std::marker::Model;

/// The ends of one bench, in order of number.
#[derive(Drop)]
struct BenchEnds<J: Naming> {
    list: Vec<End<J>>,
}

impl<J: Naming> Model for BenchEnds<J> {
    ghost use Rattle.std.specs.Prelude.{List};
    ghost use Rattle.parcel_deques.specs.Ends.{EndValue};

    ghost Value = { List EndValue };

    ghost view = { λ e. e.list.items };
}

/// The owners of so many new deques.
fn open_all<J: Naming>(
    alloc: Global,
    growers: u32,
    capacity: usize,
) -> Result<Vec<Own<J>>, NoMemory>
    ensures { IfOk result (λ v. AreSharing growers capacity 0 v.items) }
{
    let mut owns = Vec::with_capacity(alloc, growers as usize)?;
    for number in 0..growers {
        let own = Own::open(alloc, number, capacity)?;
        owns.push_reserved(own);
    }
    Ok(owns)
}

/// The end of one deque for a bench.
fn end_at<J: Naming>(own: &mut Own<J>, place: u32, taker: u32) -> Result<End<J>, NoMemory>
    requires { place ≢ taker → 1 < own.old.hand.share }
    ensures { IfOk result (λ e. HasGiven taker place own.old own.new e) }
{
    if place == taker {
        return End::here(own);
    }
    End::away(own, taker)
}

/// The ends of all deques for a bench.
fn ends_of<J: Naming>(
    alloc: Global,
    owns: &mut Vec<Own<J>>,
    taker: u32,
) -> Result<BenchEnds<J>, NoMemory>
    requires few { length owns.old.items ≤ 16 }
    requires shares { (k : ℕ) (d : OwnValue) → k < length owns.old.items → k ≢ taker → 1 < (slice_index_or owns.old.items k d).hand.share }
    ensures { IfOk result (λ ends. AreGiving taker (length owns.old.items) owns.old.items owns.new.items ends) }
{
    let mut list = Vec::with_capacity(alloc, owns.len())?;
    for place in 0..owns.len() {
        let end = end_at(&mut owns[place], place as u32, taker)?;
        list.push_reserved(end);
    }
    Ok(BenchEnds { list })
}

/// Each owner with the ends of its bench.
fn assemble<J: Naming>(
    alloc: Global,
    owns: Vec<Own<J>>,
    lists: Vec<BenchEnds<J>>,
) -> Result<Vec<Bench<J>>, NoMemory>
    requires { AreParts owns.items lists.items }
    ensures { IfOk result (λ v. AreMade owns.items lists.items (length owns.items) v.items) }
{
    let count = owns.len();
    let mut owns = owns;
    let mut lists = lists;
    let mut benches = Vec::with_capacity(alloc, count)?;
    for _place in 0..count {
        let own = owns.remove(0);
        let ends = lists.remove(0);
        benches.push_reserved(Bench::of(own, ends.list));
    }
    Ok(benches)
}

/// The benches of so many growers, in order of number: each has a deque of its own that takes at least `capacity` parcels
/// before a load may be refused, and a pass to each other deque. Fails for want of memory alone.
pub fn benches<J: Naming>(
    alloc: Global,
    growers: u32,
    capacity: usize,
) -> Result<Vec<Bench<J>>, NoMemory>
    requires { (1 ≤ growers) × (growers ≤ 16) }
    ensures { IfOk result (λ v. AreNew growers capacity v.items) }
{
    let mut owns = open_all(alloc, growers, capacity)?;
    let mut lists = Vec::with_capacity(alloc, growers as usize)?;
    for taker in 0..growers {
        let ends = ends_of(alloc, &mut owns, taker)?;
        lists.push_reserved(ends);
    }
    assemble(alloc, owns, lists)
}
