//! Feeding statistics with the vertices of a finished graph.
ghost use Rattle.std.specs.Prelude.{◌≡◌, ◌<◌, ◌≤◌, ℕ, List, ◌++◌, length, take, nat_eq, IfOk, OnOk, slice_index, slice_index_or, [], ◌∷◌, is_ok, if◌then◌else◌};
ghost use Rattle.std.specs.List.{IsDistinct, range_with_len};
ghost use Rattle.crystal_characters.specs.declared.items.Item.{Item as Fed};
ghost use Rattle.crystal_characters.specs.Items.{items_of, items_for, IsFit};

use crate::items::{Item, item_of};
use crate::statistics::Statistic;
use canonical_graph::Finished;
use crystal_streams::NoMemory;
use std::alloc::{AllocError, Global};

/// Feeds each statistic with the item of every vertex once, in ascending rank. After `NoMemory` each was fed the
/// first of them, some of them perhaps none.
pub fn feed(statistics: &mut Vec<Box<dyn Statistic>>, finished: &Finished) -> Result<(), NoMemory>
    ensures len { length statistics.new.items ≡ length statistics.old.items }
    ensures all { OnOk result ((k : ℕ) (d : _) → k < length statistics.old.items →
        fed (slice_index_or statistics.new.items k d)
        ≡ fed (slice_index_or statistics.old.items k d) ++ items_of finished.now) }
    ensures part { (k : ℕ) (d : _) → k < length statistics.old.items →
        (n : ℕ) × (fed (slice_index_or statistics.new.items k d)
        ≡ fed (slice_index_or statistics.old.items k d) ++ take n (items_of finished.now)) }
    ensures named { (k : ℕ) (d : _) → k < length statistics.old.items →
        named (slice_index_or statistics.new.items k d) ≡ named (slice_index_or statistics.old.items k d) }
    ensures reported { (k : ℕ) (d : _) (items : List Fed) → k < length statistics.old.items →
        reported (slice_index_or statistics.new.items k d) items
        ≡ reported (slice_index_or statistics.old.items k d) items }
{
    let places = every_place(*statistics.allocator(), statistics.len())?;
    feed_chosen(statistics, places.as_slice(), finished)
}

/// Feeds the statistics that stand at these places, counted from 0, with the item of every vertex once, in ascending
/// rank; each item is made once for all of them. After `NoMemory` each was fed the first of them, some of them perhaps
/// none.
pub fn feed_chosen(
    statistics: &mut Vec<Box<dyn Statistic>>,
    places: &[usize],
    finished: &Finished,
) -> Result<(), NoMemory>
    requires distinct { IsDistinct nat_eq places.now }
    requires below { (j : ℕ) → j < length places.now → slice_index places.now j < length statistics.old.items }
    ensures len { length statistics.new.items ≡ length statistics.old.items }
    ensures all { OnOk result ((k : ℕ) (d : _) → k < length statistics.old.items →
        fed (slice_index_or statistics.new.items k d)
        ≡ fed (slice_index_or statistics.old.items k d) ++ items_for places.now k (items_of finished.now)) }
    ensures part { (k : ℕ) (d : _) → k < length statistics.old.items →
        (n : ℕ) × (fed (slice_index_or statistics.new.items k d)
        ≡ fed (slice_index_or statistics.old.items k d) ++ take n (items_for places.now k (items_of finished.now))) }
    ensures named { (k : ℕ) (d : _) → k < length statistics.old.items →
        named (slice_index_or statistics.new.items k d) ≡ named (slice_index_or statistics.old.items k d) }
    ensures reported { (k : ℕ) (d : _) (items : List Fed) → k < length statistics.old.items →
        reported (slice_index_or statistics.new.items k d) items
        ≡ reported (slice_index_or statistics.old.items k d) items }
{
    if places.is_empty() {
        return Ok(());
    }
    'ranks: for rank in 0..finished.len() {
        feed_item(statistics, places, &item_of(finished, rank))?;
    }
    Ok(())
}

/// The places of so many objects.
fn every_place(alloc: Global, count: usize) -> Result<Vec<usize>, AllocError>
    ensures { IfOk result (λ places. places.items ≡ range_with_len 0 count) }
{
    let mut places = Vec::with_capacity(alloc, count)?;
    'places: for k in 0..count {
        places.push(k)?;
    }
    Ok(places)
}

/// Feeds the statistics that stand at these places with one item. After `NoMemory` some of them were fed it.
fn feed_item(
    statistics: &mut Vec<Box<dyn Statistic>>,
    places: &[usize],
    item: &Item,
) -> Result<(), NoMemory>
    requires distinct { IsDistinct nat_eq places.now }
    requires below { (j : ℕ) → j < length places.now → slice_index places.now j < length statistics.old.items }
    requires fit { IsFit item.now }
    ensures len { length statistics.new.items ≡ length statistics.old.items }
    ensures all { OnOk result ((k : ℕ) (d : _) → k < length statistics.old.items →
        fed (slice_index_or statistics.new.items k d)
        ≡ fed (slice_index_or statistics.old.items k d) ++ items_for places.now k (item.now ∷ [])) }
    ensures part { (k : ℕ) (d : _) → k < length statistics.old.items →
        (n : ℕ) × (fed (slice_index_or statistics.new.items k d)
        ≡ fed (slice_index_or statistics.old.items k d) ++ take n (items_for places.now k (item.now ∷ []))) }
    ensures named { (k : ℕ) (d : _) → k < length statistics.old.items →
        named (slice_index_or statistics.new.items k d) ≡ named (slice_index_or statistics.old.items k d) }
    ensures reported { (k : ℕ) (d : _) (items : List Fed) → k < length statistics.old.items →
        reported (slice_index_or statistics.new.items k d) items
        ≡ reported (slice_index_or statistics.old.items k d) items }
{
    'objects: for j in 0..places.len() {
        take_one(&mut statistics[places[j]], item)?;
    }
    Ok(())
}

/// Feeds a statistic with one item.
fn take_one(statistic: &mut Box<dyn Statistic>, item: &Item) -> Result<(), NoMemory>
    requires { IsFit item.now }
    ensures fed { fed statistic.new ≡ (if is_ok result then fed statistic.old ++ item.now ∷ [] else fed statistic.old) }
    ensures named { named statistic.new ≡ named statistic.old }
    ensures reported { (items : List Fed) → reported statistic.new items ≡ reported statistic.old items }
{
    statistic.take(item)
}
