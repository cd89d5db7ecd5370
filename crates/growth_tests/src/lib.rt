//! Growth by calls and on threads, beside sessions and alone.
//!
//! Tests alone, which promise nothing: the check of a crate's tests proves the crate a second time, so they stand
//! behind the crates that they try. The modules in the order of the crates, which is the one to read them in:
//! `parcels`, `gatherings` of parcel_deques; `growers`, `growths` of shared_desk, crystal_growers and graph_numbering; `runs`
//! of graph_runs; `wide_growths` of wide_growth. `barriers` has the gate at which workers wait for each other.
#![tactic(auto)]

#[cfg(test)]
mod tests;
