//! The finished graph of a shared graph that is closed.
//!
//! `finished` collects the codes of all vertices and numbers them in their order: they are exactly those of the front for which
//! the graph was found closed.
//!
//! It stands on table_calls for the cells of the table, on graph_rule for the seat, and on canonical_graph for finished graphs.
//! Read `numbering`.
#![tactic(auto)]

mod numbering;

pub use numbering::finished;
