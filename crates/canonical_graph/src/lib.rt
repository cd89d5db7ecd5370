//! Finished crystal graphs in canonical order.
//!
//! What it promises: `Finished::of` makes the graph of any closed ascending list of codes, and `Finished::of_lowered` the same
//! where its lowering half is at hand; a finished graph tells codes, ranks, words, and arrows by rank, as the operators of the
//! tensor product make them. Contracts see a finished graph as its space and the ascending list of its vertices' codes; a vertex
//! goes by its rank, its place in that list, counted from 0.
//!
//! It stands on `tensor_words` for spaces with tables, and on `signature_rule` for what the operators make of a code. Read
//! `finished` first; `numbering` gives ranks, `lowering` the lowering arrows, and `turning` the raising ones, which are these
//! turned around.
#![tactic(auto)]

mod finished;
mod lowering;
mod numbering;
mod tables;
mod turning;

pub use finished::Finished;
pub use lowering::Lowered;
