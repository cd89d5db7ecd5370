//! The shared table of wide words: one table of atomic words, on which callers of any number of threads grow one crystal
//! graph of words too long for one machine word.
//!
//! A word is a pair, a word of a high space followed by a word of a low one, and a cell of the table has a word for each.
//! A caller puts a pair in by two exchanges: the first word from 0 to the high code and 1, which claims the cell for this
//! half and is no event, then the second word from 0 to the low code and 1, which is the event `Added`. A claim that is
//! cut off in between loses nothing: the cell is open to every pair with this high code, and whoever finds its own half
//! there and an empty second word finishes the cell or sees it finished, and never passes it. A seat claims a next cell
//! only after it has tried to finish the one before, so no more cells wait than seats live, which are at most 32. The
//! table has that many cells more than the capacity: where it is full, there are at least capacity vertices.
//!
//! Each caller works through a seat of its own, and each step of a seat is one atomic step on one word. The crate
//! promises that there is one legal history of all callers: after each step the seat's front is a beginning of it that has
//! of this caller just its own calls, each once, in its order, and the word that the step found is the one that this
//! history and the seat's own record of first words name. A seat that has the whole stake knows that nobody else is there,
//! so that every vertex is whole or owed by itself.
//!
//! It stands on `atomic_table`, whose rule holds between any two steps, on shared_seats, which says what seats know
//! together, and on wide_words, which says what is legal. Events and states are those of graph_history, with the number of
//! a pair for its code. Read specs/Rule.antt first (the rule), then specs/Told.antt (what each step tells), then `steps`
//! and `edges`.
#![tactic(auto)]

mod closed;
mod dues;
mod edges;
mod front;
mod graph;
mod parting;
mod plays;
mod rule;
mod seat;
mod steps;

pub use closed::{WideClosed, settle};
pub use dues::{Seen, WideDues};
pub use edges::{claim_edge, load_edge};
pub use front::WideFront;
pub use graph::WideGraph;
pub use rule::{Running, WideView};
pub use seat::WideSeat;
pub use steps::{
    claim_first, claim_second, seek_first, seek_room_first, seek_room_second, seek_second,
};
