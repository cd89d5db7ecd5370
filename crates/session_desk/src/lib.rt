//! Sessions: scripts of commands that run on any desk of a growing graph, and their replies.
//!
//! **Promises.** The replies of a session are those that specs/Replies tells from the caller's own events, whatever
//! other callers do between them: `replies` goes through commands and events together, a command taking its events
//! from the front. It decides what `new`, `old`, `there`, `absent`, `open`, `full`, `done`, `more` mean; start there, and
//! then read `commands`, where each command is one function with one clause.
//!
//! `run_script` runs a script on any desk, which then owes for just those cells more that the script put in;
//! `run_sessions` runs the scripts of a job one after another on a desk in memory, each under its own number, and
//! `reply_line` prints a reply.
//!
//! **Stands on** graph_history for desks and events, job_text for commands, tableau_reading for printed words.
#![tactic(auto)]

mod commands;
mod reply;
mod scripts;
mod sessions;
mod words;

pub use reply::{Reply, reply_line};
pub use scripts::run_script;
pub use sessions::{Replies, run_sessions};
