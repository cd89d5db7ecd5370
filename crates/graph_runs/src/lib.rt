//! Runs of a job: sessions beside the growth of the graph that they work on.
//!
//! `run_beside` makes a graph and puts the starts in; then the scripts of the sessions run on it, each on a thread of its
//! own, while growers draw its arrows on theirs. When all are back it puts in the roots that are still missing, grows
//! what is unpaid, and numbers the vertices.
//!
//! **Promises** (specs/Runs, to be read first). There is one legal history of all callers. It begins with the starts, and
//! the replies of session s are those that its calls under the number s tell, in the order of its script. The graph is
//! closed, and its vertices are just the reached words, or some word found no cell, and then the reached words outnumber
//! the cells. The seat that is left has seen this history to its end, and nobody else is at the graph. Nothing is
//! promised of the order in which callers come.
//!
//! **Stands on** crystal_growers for growth, shared_desk for desks at seats of the shared graph, graph_numbering for the
//! finished graph, session_desk for scripts, and graph_rule for the graph. Read `run`, then `serve`, `seats`, `beside`, `hear`
//! and `ending`, its steps in order.
#![tactic(auto)]

mod beside;
mod ending;
mod hear;
mod run;
mod seats;
mod serve;

pub use run::{Held, Ran, run_beside};
