//! A module for each crate, or for each thing that is tried of it.

mod censuses;
mod characters;
mod components;
mod graphs;
mod matches;
mod subsets;
