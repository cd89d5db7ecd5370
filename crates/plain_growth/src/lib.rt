//! The growth of a crystal graph on one thread.
//!
//! What it promises: `grow_plain` gives the graph of exactly the words that are reached from a world's roots, or says that
//! they outnumber the cells.
//!
//! It stands on `tensor_words` for spaces with tables and reached words, on `signature_rule` for what the operators make of
//! a code, and on `canonical_graph` for the graph that comes of it. Read `growth` first, which keeps a `frontier` until all is
//! found; `sorting` gives the ranks of what was found, and `noted` the lowering arrows, from what the growth noted of them.
#![tactic(auto)]

mod found;
mod frontier;
mod growth;
mod noted;
mod sorting;

pub use growth::{PlainFault, grow_plain};
