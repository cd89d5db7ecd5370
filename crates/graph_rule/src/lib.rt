//! The shared graph: one table of atomic words, on which callers of any number of threads grow one crystal graph.
//!
//! Each caller works through a seat of its own. A seat knows a front, the history as far as the caller has seen it, and
//! each step of a seat is one atomic step on one word. The crate promises that there is one legal history of all
//! callers: after each step the seat's front is a beginning of it that has of this caller just its own calls, each once,
//! in its order, and the word that the step found is the one that this history names. Word 0 counts the debts, so a
//! `tally` of 0 shows that nothing is unfinished.
//!
//! It stands on `atomic_table`, whose rule holds between any two steps, on shared_seats, which says what seats know
//! together, and on graph_history, which says what is legal.
//! Read specs/Rule.antt first (the rule), then specs/Told.antt (what each step tells), then `steps`, `arrows` and
//! `payments`.
#![tactic(auto)]

mod arrows;
mod closed;
mod graph;
mod parting;
mod payments;
mod plays;
mod rule;
mod seat;
mod steps;

pub use arrows::{claim_edge, load_edge};
pub use closed::{Closed, settle};
pub use graph::Graph;
pub use payments::{owe, pay, release, tally};
pub use rule::Running;
pub use seat::Seat;
pub use steps::{claim, confirm, load_cell, seek, seek_room};
