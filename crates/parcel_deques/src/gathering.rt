//! How all passes of one call of benches come home.
ghost use Rattle.std.specs.Prelude.{ℕ, ◌+◌, ◌<◌, List, length, slice_index_or};
ghost use Rattle.parcel_deques.specs.Parcels.{AllBelow};
ghost use Rattle.parcel_deques.specs.Benches.{BenchValue};
ghost use Rattle.parcel_deques.specs.Making.{AreApart};
ghost use Rattle.parcel_deques.specs.Gather.{AreGathered};
ghost use Rattle.parcel_deques.specs.Swapping.{MaySwap, HaveSwapped, HaveSwappedAt, AreSwapping};

use crate::bench::Bench;
use crate::parcel::Naming;

/// Two benches bring each other's passes home.
fn pair<J: Naming>(one: &mut Bench<J>, two: &mut Bench<J>)
    requires { MaySwap one.old two.old }
    ensures { HaveSwapped one.old two.old one.new two.new }
{
    one.take_over(two);
    two.take_over(one);
}

/// The benches at two places do.
fn pair_at<J: Naming>(benches: &mut Vec<Bench<J>>, first: usize, second: usize)
    requires places { (first < second) × (second < length benches.old.items) }
    requires may { (d : BenchValue) → MaySwap (slice_index_or benches.old.items first d) (slice_index_or benches.old.items second d) }
    ensures { HaveSwappedAt first second benches.old.items benches.new.items }
{
    let (front, back) = benches.split_at_mut(second);
    pair(&mut front[first], &mut back[0]);
}

/// One bench swaps passes with all before it. `old` are the benches before any of them did.
fn swap_with_earlier<J: Naming>(benches: &mut Vec<Bench<J>>, second: usize)
    requires { (old : List BenchValue) × AreSwapping 0 second old benches.old.items × (second < length old) }
    ensures { (old : List BenchValue) → second < length old → AreSwapping 0 second old benches.old.items → AreSwapping 0 (second + 1) old benches.new.items }
{
    for first in 0..second {
        pair_at(benches, first, second);
    }
}

/// Each bench's number shows that its slips are of benches of its call.
fn owners_below<J: Naming>(benches: &[Bench<J>])
    ensures { (k : ℕ) (d : BenchValue) → k < length benches.now → AllBelow (length (slice_index_or benches.now k d).call) (slice_index_or benches.now k d).taken }
{
    for bench in benches {
        let _number = bench.number();
    }
}

/// Brings all passes of one call of `benches` home: afterwards each bench holds all shares of its own deque, and notes just
/// the slips that were taken from it. Takes no memory.
pub fn gather<J: Naming>(benches: &mut Vec<Bench<J>>)
    requires { AreApart benches.old.items }
    ensures { AreGathered benches.old.items benches.new.items }
{
    owners_below(benches);
    for second in 0..benches.len() {
        swap_with_earlier(benches, second);
    }
}
