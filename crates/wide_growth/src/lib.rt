//! Growth of wide words: how many words are reached from some roots, and how many arrows join them.
//!
//! `wide_grow` makes a shared graph of its own and grows it by rounds. The first seat puts in the roots. A round draws all
//! arrows of the open vertices, those that were put in by the round before: they are dealt in equal parts to growers on
//! threads of their own, each at a seat that is split off for the round and joins again, and what the growers put in is
//! open in the next round. No grower waits for another within a round. A round of few vertices is drawn by the first seat
//! alone, save the first round. Lists of vertices are kept for two rounds at a time and not for the whole graph.
//!
//! Both numbers are exact: they are those of the component list of the roots, so that the job alone determines them,
//! whatever the growers do and in whatever order. `Full` is answered exactly where the reached words outnumber the
//! capacity: as soon as a word finds no cell, or more vertices are there than the capacity, since each is reached and no
//! two are the same word; and a closed graph with at most as many has all reached words. That growers run side by side is
//! tested alone.
//!
//! It stands on wide_graph for words and arrows of the table, on wide_rule for its seats and the closed graph, and on
//! wide_words for what is counted. Read specs/Grown.antt first, then `growing`, `rounds` with specs/Rounds.antt, and
//! `drawing` with specs/Drawing.antt.
#![tactic(auto)]

mod deal;
mod drawing;
mod gather;
mod growing;
mod rounds;
mod threads;
mod work;

pub use growing::{WideGrown, wide_grow};
