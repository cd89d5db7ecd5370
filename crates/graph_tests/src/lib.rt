//! Worked graphs, and what is told of finished ones.
//!
//! Tests alone, which promise nothing: the check of a crate's tests proves the crate a second time, so they stand
//! behind the crates that they try. The modules, in an order to read them in: `graphs` of canonical_graph; `characters`
//! of crystal_characters; `subsets` of crystal_subsets; `censuses` of tableau_census; `matches` of crystal_match.
#![tactic(auto)]

#[cfg(test)]
mod tests;
