//! Answers as data, and their texts, printed to a sink.
//!
//! **Promises.** `print_answer` (`printing`, the module to read first) prints an answer to a sink: just the text that
//! `answer_bytes` of specs/Answers.antt gives, or a front of it where a write failed. Nothing is computed and no memory is
//! taken: what is printed is handed in (`answers`), and so is the page on which lines are gathered (`pages`).
//!
//! **Where to read.** Every function that prints has one clause, `Prints` of specs/Prints.antt: what the sink took and
//! what is left on the page are together what was on the page before and the printed text. `heads` has the first and the
//! last line and the refusals, `sessions` the replies, `graphs` the graph and the reports of statistics, `vertices` the line
//! of a vertex, `asks` the answers to asks, `censuses` the tableaux of a census, `matches` what a comparison came to, `counts`
//! what a growth of wide words came to, `samples` a sample job; `lines` makes short lines. The text of the answers to asks is
//! determined by the graph, the first start and the asks (`laws`).
//!
//! **Stands on** canonical_graph for graphs, session_desk for the text of a reply, ask_answers for the answers to asks,
//! tableau_reading for words and weights, crystal_match for verdicts, crystal_streams for lines and sinks.
#![tactic(auto)]

mod answers;
mod asks;
mod censuses;
mod counts;
mod graphs;
mod heads;
mod laws;
mod lines;
mod matches;
mod pages;
mod printing;
mod samples;
mod sessions;
mod vertices;

pub use answers::{Answer, Counts, Report, Whole};
pub use laws::answers_are_one;
pub use pages::Page;
pub use printing::print_answer;
pub use vertices::vertex_line;
