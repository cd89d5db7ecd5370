//! The shared table by calls and on threads, and a history over lists in memory.
//!
//! Tests alone, which promise nothing: the check of a crate's tests proves the crate a second time, so they stand
//! behind the crates that they try. The modules, in an order to read them in: `histories` of graph_history; `rules` of
//! graph_rule; `cells`, `edges`, `tight_seats`, `crowds` of table_calls; `wide_cells` of wide_words, wide_rule and wide_graph.
//! `worlds` and `wide_worlds` have the worlds that they try.
#![tactic(auto)]

#[cfg(test)]
mod tests;
