//! A desk at one seat of the shared graph.
//!
//! `SharedDesk` (`desk`) gives a seat of the shared table the interface of every desk, so that sessions and growers run on it
//! as they run on a desk in memory. Each of its calls makes atomic steps on one table and waits for nobody. It keeps the list
//! of the cells that it added, and gives back its seat with the list in the end. A grower's desk remembers where words stood
//! (`hints`); no clause says so.
//!
//! It stands on table_calls for words and arrows of the table, on graph_rule for its seat, and on graph_history for what desks
//! promise. Read `desk` with specs/SharedDesks.antt first, then `calls`.
#![tactic(auto)]

mod calls;
mod desk;
mod hints;

pub use desk::{NoRoom, SharedDesk};
pub use hints::Hints;
