//! Parcels of cells in deques, which growers load on their own deque and steal from those of others.
//!
//! A parcel is a seat of the shared graph with the cells that were handed over with it. A bench is a grower's place of
//! work: the owner's end of one deque, and a thief's end with a pass for each other. Each parcel has a slip, which says who
//! loaded it, at which place, with which cells and which stake; contracts speak of slips alone.
//!
//! Between any two steps the slips that were taken from a deque are the first of those that were pushed there, in
//! order, and each of them is noted by just one pass (the rule of a deque). What callers are promised of it: each
//! parcel that a bench gives is noted in its `taken`; a parcel of its own deque has the bench's number in its tag, a
//! stolen one that of another bench; and a bench that holds the shares of all others in its deque (`take_over`,
//! `gather`) and finds it empty (`drain`) has noted just what was pushed there, each slip once: nothing was lost, and
//! nothing was given twice. To a bench without all shares `drain` tells less: some lawful empty state of the deque goes
//! with what it pushed and noted. No call waits for another.
//!
//! Where the clauses may surprise:
//! - The shares of all passes of a deque are together 16, however many benches there are: a bench's own end begins with
//!   what the others do not have. Whether it holds the shares of all is told by `home`.
//! - `taken` is told up to order (`SameItems`), since a bench has a list for each pass. So is `away`.
//! - Where `steal` finds nothing, each other deque was empty at that moment, or more slips are known to have left it than
//!   before. `known` counts them.
//! - `load` refuses only where as many slips were loaded already as the capacity that was promised.
//!
//! It stands on `crossbeam_deque`, whose rule holds between any two steps, and on the seats of graph_rule. Read
//! specs/Rule.antt first (the rule), then specs/Benches.antt with `bench`, then `making` and `gathering`. Below them are
//! `ends` and `own`, the two ends of a deque, and `owner`, which makes the owner's steps.
#![tactic(auto)]

mod bench;
mod ends;
mod gathering;
mod making;
mod own;
mod owner;
mod parcel;
mod rule;

pub use bench::Bench;
pub use gathering::gather;
pub use making::benches;
pub use parcel::{Cells, Naming, Parcel, Slip, Tag};
