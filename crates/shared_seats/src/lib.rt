//! What seats of a shared table know together: stakes, numbers, fronts and joins.
//!
//! A table has one history of events. Each seat has a part of the stake, a number that it calls under, numbers to give to
//! seats that are split off, and a front, which is the history as far as it has seen it. The crate promises that seats which
//! know one history (`IsSeated` of specs/Seats.antt) go on to know one: where one takes a step (`steps_keep`), where one is
//! split (`splits_keep`) and where one takes in another (`joins_keep`). The first seat begins so (`seats_open`), and who has
//! the whole stake is alone (`whole_is_alone`). It knows no word and no graph: it is generic in the
//! world that a table was made for, in the event, and in what a seat has begun.
//!
//! It stands on `atomic_table` for lemmas on lists alone. Read specs/Seats.antt first. No value of a view is made when a
//! program runs, so there is no code here that an edit could turn: wrong joins and splits are refused in the crates above.
#![tactic(auto)]

mod laws;
mod view;

pub use laws::{joins_keep, seats_open, splits_keep, steps_keep, whole_is_alone};
pub use view::{Kept, View};
